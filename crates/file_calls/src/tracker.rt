// The requests that wait for an answer, the outcomes that were noted, the settings, and the moment.
ghost use Rattle.std.specs.Prelude.{◌≡◌, ◌≤◌, ◌<◌, ◌+◌, ◌-◌, ◌^◌, ◌∷◌, [], IfOk, OnOk, OnErr, string_bytes, false, Option};
ghost use Rattle.gw_model.specs.Views.{next_event};
ghost use Rattle.gw_config.specs.Ranges.{AreInRange};
ghost use Rattle.gw_config.specs.Seen.{settings_in};
ghost use Rattle.tickets.specs.Answers.{IsPlain, answer_of};
ghost use Rattle.tickets.specs.Desk.{with_answered, waiting_ticket};
ghost use Rattle.admit.specs.Calls.{verdict_answers};
ghost use Rattle.file_cell.specs.State.{CellState};
ghost use Rattle.file_calls.specs.Acts.{Act, IsRequest, Reply, CloseConnection, HangUp, BeginTick};
ghost use Rattle.file_calls.specs.Part.{send_result, text_to};
ghost use Rattle.file_calls.specs.Terms.{later_moment};
ghost use Rattle.file_calls.specs.Outside.{Store, new_tracker, part_state, scene, without_outcomes, StepsTo, IsStep, IsActCut};
ghost use Rattle.file_calls.specs.declared.hull.ClosedHull.{ClosedHull};
ghost use Rattle.file_calls.specs.PartSteps.{IsAsked, IsPlainVerdict, SameButRoom, SameTerms, refusal_answers, with_refusal, with_sent, with_verdict};

use crate::answers::{send_one, send_verdict};
use crate::reply::{closed_text, said_text};
use admit::Verdict;
use gw_config::Config;
use gw_model::Trace;
use std::alloc::{AllocError, Global};
use std::marker::Model;
use tickets::{Answer, Body, ReplyDesk, Sent, Ticket};

/// The notes that one act may make.
pub const NOTES: usize = 9;

/// The requests that wait for an answer, the outcomes that were noted, the settings of the gateway, and the moment.
#[derive(Drop)]
pub struct RequestTracker {
    pub(crate) alloc: Global,
    pub(crate) desk: ReplyDesk,
    pub(crate) trace: Trace,
    pub(crate) config: Config,
    // In milliseconds.
    pub(crate) moment: u64,
}

impl Model for RequestTracker {
    ghost use Rattle.std.specs.Prelude.{◌≤◌};
    ghost use Rattle.gw_config.specs.Ranges.{AreInRange};
    ghost use Rattle.gw_config.specs.Seen.{settings_in};
    ghost use Rattle.file_calls.specs.Outside.{TrackerState};

    ghost Value = { TrackerState };

    ghost view = { λ t. record { desk = t.desk; noted = t.trace; settings = settings_in t.config; moment = t.moment } };

    // Each request of the event has a ticket.
    ghost invariant = { λ t. (t.trace.request ≤ t.desk.last) × AreInRange (settings_in t.config) };
}

impl RequestTracker {
    /// Nobody waits, nothing was noted, and the moment is 0. The settings are in their ranges, as `Config::from_toml` gives them.
    pub fn new(alloc: Global, config: Config) -> RequestTracker
        requires in_range { AreInRange (settings_in config) }
        ensures { result ≡ new_tracker (settings_in config) }
    {
        RequestTracker {
            alloc,
            desk: ReplyDesk::new(alloc),
            trace: Trace::new(alloc),
            config,
            moment: 0,
        }
    }

    /// The settings of the gateway.
    pub fn config(&self) -> &Config
        ensures { settings_in result.now ≡ self.now.settings }
    {
        &self.config
    }

    /// The next event begins.
    pub fn begin_event(&mut self)
        ensures { self.new ≡ record self.old { noted = next_event self.old.noted } }
    {
        self.trace.begin_event();
    }

    /// An event: so many milliseconds are gone. The moment stays at the greatest u64.
    pub fn begin_tick(&mut self, milliseconds: u32)
        requires few { self.old.noted.event < 2 ^ 64 - 1 }
        ensures step { (o : Option CellState) (lost : Option ClosedHull) (s : Store) → IsStep (Unit {0}) (BeginTick milliseconds)
            (scene (part_state lost o self.old) s) (scene (part_state lost o self.new) s) [] false }
        ensures is { self.new ≡ record self.old {
          noted = next_event self.old.noted;
          moment = later_moment milliseconds self.old.moment;
        } }
    {
        self.trace.begin_event();
        self.moment = self.moment.saturating_add(u64::from(milliseconds));
    }

    /// The moment, in milliseconds.
    pub(crate) fn moment(&self) -> u64
        ensures { result ≡ self.now.moment }
    {
        self.moment
    }

    /// Room for so many notes. Takes memory.
    pub fn reserve(&mut self, notes: usize) -> Result<(), AllocError>
        ensures ok { OnOk result (notes ≤ self.new.noted.room) }
        ensures rest { self.new ≡ record self.old { noted = record self.old.noted { room = self.new.noted.room } } }
    {
        self.trace.reserve(notes).map_err(|_| AllocError)
    }

    /// Forgets the outcomes that were noted.
    pub fn clear(&mut self)
        ensures { self.new ≡ without_outcomes self.old self.new.noted.room }
    {
        self.trace.clear();
    }

    /// A request begins: it gets its number and its ticket. Takes memory.
    pub(crate) fn begin_request(&mut self, conn: u32, xid: u32) -> Result<Ticket, AllocError>
        ensures ok { (o : Option CellState) (lost : Option ClosedHull)
            → IfOk result (λ ticket. IsAsked conn xid NOTES ticket (part_state lost o self.old) (part_state lost o self.new)) }
        ensures err { (o : Option CellState) (lost : Option ClosedHull) → OnErr result (SameButRoom (part_state lost o self.old) (part_state lost o self.new)) }
        ensures event { self.new.noted.event ≡ self.old.noted.event }
        ensures terms { SameTerms self.old self.new }
    {
        if self.trace.reserve(NOTES).is_err() {
            return Err(AllocError);
        }
        let Ok(ticket) = self.desk.issue(conn, xid) else {
            return Err(AllocError);
        };
        self.trace.begin_request();
        Ok(ticket)
    }

    /// Sends an answer, and gives what it writes. Takes memory; the ticket waits no more where it is refused too.
    pub(crate) fn send(&mut self, answer: Answer) -> Result<String, AllocError>
        requires plain { IsPlain answer.body }
        ensures kept { self.new ≡ with_sent (answer_of answer ∷ []) self.old }
        ensures text { IfOk result (λ text. string_bytes text ≡ (send_result self.old.desk (answer_of answer ∷ [])).text) }
    {
        send_one(self.alloc, &mut self.desk, answer)
    }

    // Sends a whole reply message, and gives what that writes.
    fn send_text(&mut self, ticket: Ticket, text: Vec<u8>) -> Result<String, AllocError>
        ensures kept { self.new ≡ record self.old { desk = with_answered ticket.number self.old.desk } }
        ensures line { IfOk result (λ line. string_bytes line ≡ text_to (waiting_ticket ticket.number self.old.desk) text.items) }
    {
        let body = Body::Text(text);
        match self.desk.send(Answer { ticket, body }) {
            Sent::Reply { conn, xid: _, body } => said_text(self.alloc, conn, body),
            Sent::Cancelled => Ok(String::new(self.alloc)),
        }
    }

    /// Memory was refused for the request of this ticket.
    pub(crate) fn refuse(&mut self, ticket: Ticket) -> Result<String, AllocError>
        requires room { 0 < self.old.noted.room }
        ensures kept { self.new ≡ with_refusal ticket.number self.old }
        ensures text { IfOk result (λ text. string_bytes text ≡ (send_result self.old.desk (refusal_answers ticket.number)).text) }
    {
        self.trace.refuse();
        let body = Body::SystemErr;
        self.send(Answer { ticket, body })
    }

    /// Spends what a request of an open file was answered.
    pub(crate) fn send_verdict(&mut self, verdict: Verdict) -> Result<String, AllocError>
        requires plain { IsPlainVerdict verdict }
        requires room { 0 < self.old.noted.room }
        ensures kept { self.new ≡ with_verdict verdict self.old }
        ensures text { IfOk result (λ text. string_bytes text ≡ (send_result self.old.desk (verdict_answers verdict)).text) }
    {
        if let Verdict::NoMemory(_) = &verdict {
            self.trace.refuse();
        }
        send_verdict(self.alloc, &mut self.desk, verdict)
    }

    /// Memory was refused while a request was read. Takes memory for the reply.
    pub fn refuse_request(&mut self, conn: u32, xid: u32) -> Result<String, AllocError>
        ensures ok { (act : Act) → IsRequest act conn xid → (o : Option CellState) (lost : Option ClosedHull) (s : Store)
            → IfOk result (StepsTo (Unit {0}) act (scene (part_state lost o self.old) s) (scene (part_state lost o self.new) s)) }
        ensures err { (act : Act) → IsRequest act conn xid → (o : Option CellState) (lost : Option ClosedHull) (s : Store)
            → OnErr result (IsActCut (Unit {0}) act (scene (part_state lost o self.old) s) (scene (part_state lost o self.new) s)) }
        ensures event { self.new.noted.event ≡ self.old.noted.event }
        ensures terms { SameTerms self.old self.new }
    {
        let ticket = self.begin_request(conn, xid)?;
        self.refuse(ticket)
    }

    /// A request is answered at once. Takes memory.
    pub fn reply_now(&mut self, conn: u32, xid: u32, reply: &[u8]) -> Result<String, AllocError>
        ensures ok { (o : Option CellState) (lost : Option ClosedHull) (s : Store) → IfOk result (StepsTo (Unit {0}) (Reply conn xid reply.now)
            (scene (part_state lost o self.old) s) (scene (part_state lost o self.new) s)) }
        ensures err { (o : Option CellState) (lost : Option ClosedHull) (s : Store) → OnErr result (IsActCut (Unit {0}) (Reply conn xid reply.now)
            (scene (part_state lost o self.old) s) (scene (part_state lost o self.new) s)) }
        ensures event { self.new.noted.event ≡ self.old.noted.event }
        ensures terms { SameTerms self.old self.new }
    {
        let ticket = self.begin_request(conn, xid)?;
        let Ok(text) = Vec::from_slice(self.alloc, reply) else {
            return self.refuse(ticket);
        };
        self.send_text(ticket, text)
    }

    /// A connection ends: none of its requests is answered any more. Takes memory.
    pub fn close_connection(&mut self, conn: u32) -> Result<String, AllocError>
        ensures ok { (o : Option CellState) (lost : Option ClosedHull) (s : Store) → IfOk result (StepsTo (Unit {0}) (CloseConnection conn)
            (scene (part_state lost o self.old) s) (scene (part_state lost o self.new) s)) }
        ensures err { (o : Option CellState) (lost : Option ClosedHull) (s : Store) → OnErr result (IsActCut (Unit {0}) (CloseConnection conn)
            (scene (part_state lost o self.old) s) (scene (part_state lost o self.new) s)) }
        ensures event { self.new.noted.event ≡ self.old.noted.event }
        ensures terms { SameTerms self.old self.new }
    {
        self.desk.cancel_conn(conn);
        closed_text(self.alloc, conn)
    }

    /// An event: a connection hangs up. None of its requests is answered any more, and nothing is written.
    pub fn hang_up(&mut self, conn: u32)
        requires few { self.old.noted.event < 2 ^ 64 - 1 }
        ensures step { (o : Option CellState) (lost : Option ClosedHull) (s : Store) → IsStep (Unit {0}) (HangUp conn)
            (scene (part_state lost o self.old) s) (scene (part_state lost o self.new) s) [] false }
        ensures event { self.new.noted.event ≡ self.old.noted.event + 1 }
        ensures terms { SameTerms self.old self.new }
    {
        self.trace.begin_event();
        self.desk.cancel_conn(conn);
    }
}
