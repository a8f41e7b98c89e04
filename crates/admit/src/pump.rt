// Giving up, and the pump.
ghost use Rattle.std.specs.Prelude.{◌≡◌, ◌+◌, [], length, true, false};
ghost use Rattle.gw_model.specs.Admission.{with_ready_sent};
ghost use Rattle.gw_model.specs.File.{is_stale};
ghost use Rattle.gw_model.specs.Sides.{HasNoPlaces, side_give_up_step, side_hearing_step};
ghost use Rattle.gw_model.specs.Sides.{side_with_hull_to_top, side_pump_step, side_stale_step};
ghost use Rattle.admit.specs.Line.{GoesOn};
ghost use Rattle.admit.specs.State.{cause_of};
ghost use Rattle.admit.specs.Calls.{GivesUp, IsPumped, Pumps, left_state, news_of, pump_state, let_go_state, with_sent};

use crate::admit::Admit;
use crate::given_up::{refuse_entries, refuse_waiting, strike};
use crate::laws::request_laws;
use crate::phase::{Cause, Phase};
use crate::queue::send_all;
use crate::request::{News, Pumped};
use gw_model::join_hull;
use gw_model::status::NFS3ERR_IO;
use range_map::PendingMap;

impl<M: PendingMap> Admit<M> {
    fn let_go(&mut self)
        requires none_left { self.old.left ≡ [] }
        ensures { self.new ≡ let_go_state self.old }
    {
        let pending = self.seen.take_pending(self.alloc);
        refuse_entries(&mut self.left, pending, NFS3ERR_IO);
        refuse_waiting(&mut self.left, &mut self.waiting, NFS3ERR_IO);
    }

    #[tactic(auto, unfolding(gw_model::specs::Sides::side_give_up_step))]
    fn take_back(&mut self, moment: u64)
        requires none_left { self.old.left ≡ [] }
        ensures { self.new ≡ left_state (side_give_up_step moment self.old.side) self.old }
    {
        let hull = self.seen.lost_hull(self.hull);
        self.let_go();
        self.hull = hull;
        self.used = moment;
    }

    /// Gives up the pending writes and the waiting COMMITs: `next_answer` hands out their answers. Takes no memory.
    pub fn give_up(&mut self, moment: u64)
        requires none_left { self.old.left ≡ [] }
        ensures step { self.new ≡ left_state (side_give_up_step moment self.old.side) self.old }
        ensures stands { GivesUp self.old moment self.new }
    {
        request_laws();
        self.take_back(moment);
    }

    #[tactic(auto, using(crate::proofs::GivenUpLines::struck), unfolding(gw_model::specs::Sides::side_stale_step))]
    fn turn_stale(&mut self, cause: Cause)
        requires none_left { self.old.left ≡ [] }
        ensures { self.new ≡ left_state (side_stale_step (cause_of cause) self.old.side) self.old }
    {
        self.let_go();
        self.seen.lose_jobs(&self.queue.ready);
        strike(&mut self.queue, &mut self.left, self.alloc, NFS3ERR_IO);
        self.phase = Phase::Stale(cause);
    }

    fn join_to_top(&mut self, low: u64)
        ensures { self.new ≡ record self.old { side = side_with_hull_to_top low self.old.side } }
    {
        self.hull = join_hull(self.hull, low, self.seen.top());
    }

    // Gives whether the file turned stale.
    #[tactic(auto, unfolding(gw_model::specs::Sides::side_hearing_step, gw_model::specs::Sides::side_stale_step))]
    fn hear(&mut self, news: News) -> bool
        requires none_left { self.old.left ≡ [] }
        ensures step { self.new ≡ left_state (side_hearing_step (news_of news) self.old.side) self.old }
        ensures turned { result ≡ true → (is_stale self.old.side.held.phase ≡ false) × (is_stale self.new.side.held.phase ≡ true) }
        ensures same { result ≡ false → self.new ≡ self.old }
    {
        let Some(failed) = news.failed else {
            return false;
        };
        if let Phase::Stale(_) = self.phase {
            return false;
        }
        self.join_to_top(failed.stored);
        self.turn_stale(Cause::Append {
            stored: failed.stored,
            kept: failed.kept,
        });
        true
    }

    #[tactic(auto, unfolding(gw_model::specs::Admission::with_ready_sent))]
    fn send(&mut self) -> u32
        ensures step { self.new ≡ with_sent self.new.line self.old }
        ensures line { GoesOn self.old.line self.new.line }
        ensures sent { length self.new.side.held.line ≡ length self.old.side.held.line + result }
        ensures same { self.new.side.held.phase ≡ self.old.side.held.phase }
    {
        let before = self.queue.line.in_line;
        send_all(&mut self.queue, self.limits.line_slots as usize);
        (self.queue.line.in_line - before) as u32
    }

    #[tactic(auto, unfolding(gw_model::specs::Sides::side_pump_step))]
    fn take_news(&mut self, news: News) -> Pumped
        requires none_left { self.old.left ≡ [] }
        ensures step { self.new ≡ pump_state (side_pump_step self.old.limits (news_of news) self.old.side) self.new.line self.old }
        ensures line { GoesOn self.old.line self.new.line }
        ensures pumped { IsPumped result self.old self.new }
    {
        let turned = self.hear(news);
        let sent = self.send();
        if turned {
            Pumped::TurnedStale
        } else {
            Pumped::Sent(sent)
        }
    }

    #[tactic(auto, using(crate::proofs::GivenUpLines::unplaced))]
    fn all_in_memory(&self)
        ensures { HasNoPlaces self.now.side.held.ready }
    {
        let _ = &self.queue;
    }

    /// Hears of the writer, and sends what is ready. Where the writer failed and the file is live, it turns stale. Takes no
    /// memory.
    pub fn pump(&mut self, news: News) -> Pumped
        requires none_left { self.old.left ≡ [] }
        ensures step { self.new ≡ pump_state (side_pump_step self.old.limits (news_of news) self.old.side) self.new.line self.old }
        ensures line { GoesOn self.old.line self.new.line }
        ensures stands { Pumps self.old news self.new }
        ensures pumped { IsPumped result self.old self.new }
    {
        request_laws();
        self.all_in_memory();
        self.take_news(news)
    }
}
