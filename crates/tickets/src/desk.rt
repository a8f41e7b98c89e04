// The desk, and the tickets that it issues.
ghost use Rattle.std.specs.Prelude.{◌≡◌, ◌-◌, ◌^◌, ◌↔◌, length, IfOk, OnOk, OnErr, IfSome, Option, None, option_map};
ghost use Rattle.tickets.specs.Desk.{new_desk, waiting_ticket, next_ticket, with_issued, with_answered, with_dropped, with_cancelled, IsSound};
ghost use Rattle.tickets.specs.Entries.{ticket_of};

use crate::{Answer, Body};
use std::alloc::Global;
use std::collections::BTreeMap;
use std::marker::Model;

/// A reply that is owed. Only a desk makes one, and it can't be copied. One that is dropped leaves its number waiting.
#[derive(Debug, Drop)]
pub struct Ticket {
    conn: u32,
    number: u64,
    xid: u32,
}

impl Model for Ticket {
    ghost use Rattle.tickets.specs.Desk.{TicketId};

    ghost Value = { TicketId };

    ghost view = { λ t. record { conn = t.conn; number = t.number; xid = t.xid } };
}

impl Ticket {
    /// The connection that the request came by.
    pub fn conn(&self) -> u32
        ensures { result ≡ self.now.conn }
    {
        self.conn
    }

    /// The number under which the reply is owed.
    pub fn number(&self) -> u64
        ensures { result ≡ self.now.number }
    {
        self.number
    }

    /// The number that the client gave its request (RFC 5531 section 9).
    pub fn xid(&self) -> u32
        ensures { result ≡ self.now.xid }
    {
        self.xid
    }
}

/// Why no ticket was issued.
#[derive(Clone, Copy, Debug, PartialEq, Eq)]
pub enum IssueFault {
    /// Memory was refused.
    Memory,
    /// The greatest `u64` was issued.
    Last,
}

/// What became of an answer.
#[derive(Debug, Drop, PartialEq, Eq)]
pub enum Sent {
    /// The reply to be written, once, to the connection that asked.
    Reply { conn: u32, xid: u32, body: Body },
    /// The number doesn't wait: its connection ended, or the ticket is of another desk.
    Cancelled,
}

// Who waits for a reply.
#[derive(Clone, Copy, Debug)]
struct Asker {
    conn: u32,
    xid: u32,
}

/// The replies that are owed. A new number is greater than all before, so that each gets at most one reply.
#[derive(Drop)]
pub struct ReplyDesk {
    last: u64,
    waiting: BTreeMap<u64, Asker>,
    sent: u64,
}

impl Model for ReplyDesk {
    ghost use Rattle.tickets.specs.Desk.{DeskState, IsSound};
    ghost use Rattle.tickets.specs.Entries.{desk_of};

    ghost Value = { DeskState };

    ghost view = { λ d. desk_of d.last d.waiting.entries d.sent };

    ghost invariant = { λ d. IsSound (desk_of d.last d.waiting.entries d.sent) };
}

impl ReplyDesk {
    /// Makes a desk that issued nothing.
    pub fn new(alloc: Global) -> Self
        ensures { result ≡ new_desk }
    {
        ReplyDesk {
            last: 0,
            waiting: BTreeMap::new(alloc),
            sent: 0,
        }
    }

    /// Issues the next number to a request of a connection, and the number waits. A fault changes nothing.
    pub fn issue(&mut self, conn: u32, xid: u32) -> Result<Ticket, IssueFault>
        ensures ticket { IfOk result (λ t. t ≡ next_ticket conn xid self.old) }
        ensures joins { OnOk result (self.new ≡ with_issued conn xid self.old) }
        ensures err { OnErr result (self.new ≡ self.old) }
        ensures last { (result ≡ Err IssueFault.Last) ↔ (self.old.last ≡ 2 ^ 64 - 1) }
        ensures sound { IsSound self.new }
    {
        let Some(number) = self.last.checked_add(1) else {
            return Err(IssueFault::Last);
        };
        match self.waiting.insert(number, Asker { conn, xid }) {
            Ok(_) => {}
            Err(_) => return Err(IssueFault::Memory),
        }
        self.last = number;
        Ok(Ticket { conn, number, xid })
    }

    /// Spends the answer's ticket. Where its number waits, the reply goes to whoever the number was issued to, and the
    /// number waits no more. Takes no memory.
    pub fn send(&mut self, answer: Answer) -> Sent
        ensures reply { IfSome (waiting_ticket answer.ticket.number self.old) (λ t. result ≡ Sent.Reply t.conn t.xid answer.body) }
        ensures cancelled { (result ≡ Sent.Cancelled) ↔ (waiting_ticket answer.ticket.number self.old ≡ None) }
        ensures after { self.new ≡ with_answered answer.ticket.number self.old }
        ensures sound { IsSound self.new }
    {
        let Answer { ticket, body } = answer;
        match self.take_asker(ticket.number) {
            Some(Asker { conn, xid }) => Sent::Reply { conn, xid, body },
            None => Sent::Cancelled,
        }
    }

    // Who waits under a number, who then waits no more and is counted as answered.
    fn take_asker(&mut self, number: u64) -> Option<Asker>
        ensures asker { option_map (ticket_of number) result ≡ waiting_ticket number self.old }
        ensures after { self.new ≡ with_answered number self.old }
        ensures sound { IsSound self.new }
    {
        let asker = self.waiting.remove(&number)?;
        self.sent += 1;
        Some(asker)
    }

    /// Spends the ticket without a reply. Its number waits no more. Takes no memory.
    pub fn drop_ticket(&mut self, ticket: Ticket)
        ensures after { self.new ≡ with_dropped ticket.number self.old }
        ensures sound { IsSound self.new }
    {
        let _ = self.waiting.remove(&ticket.number);
    }

    /// Ends a connection: none of its numbers waits any more. Takes no memory.
    pub fn cancel_conn(&mut self, conn: u32)
        ensures after { self.new ≡ with_cancelled conn self.old }
        ensures sound { IsSound self.new }
    {
        self.waiting.retain(|_, asker| asker.conn != conn);
    }

    /// How many replies were sent.
    pub fn sent(&self) -> u64
        ensures value { result ≡ self.now.sent }
        ensures sound { IsSound self.now }
    {
        self.sent
    }

    /// How many numbers wait.
    pub fn waiting(&self) -> usize
        ensures value { result ≡ length self.now.waiting }
        ensures sound { IsSound self.now }
    {
        self.waiting.len()
    }
}

#[cfg(test)]
mod tests {
    use super::*;
    use std::test::Fail;

    #[test]
    fn a_number_is_answered_once(rt: HostRuntime) -> Result<(), Fail> {
        let mut desk = ReplyDesk::new(rt.alloc());
        let first = desk.issue(7, 100)?;
        let second = desk.issue(8, 200)?;
        assert_eq!(rt; (first.conn(), first.number(), first.xid()), (7, 1, 100));
        assert_eq!(rt; (second.conn(), second.number(), second.xid()), (8, 2, 200));

        let reply = desk.send(Answer {
            ticket: second,
            body: Body::Commit { status: 5 },
        });
        let expected = Sent::Reply {
            conn: 8,
            xid: 200,
            body: Body::Commit { status: 5 },
        };
        assert_eq!(rt; reply, expected);
        assert_eq!(rt; (desk.sent(), desk.waiting()), (1, 1));

        desk.drop_ticket(first);
        assert_eq!(rt; (desk.sent(), desk.waiting()), (1, 0));
        Ok(())
    }

    #[test]
    fn a_connection_that_ended_gets_no_reply(rt: HostRuntime) -> Result<(), Fail> {
        let mut desk = ReplyDesk::new(rt.alloc());
        let ended = desk.issue(7, 100)?;
        let other = desk.issue(8, 100)?;
        desk.cancel_conn(7);
        assert_eq!(rt; desk.waiting(), 1);
        let body = Body::SystemErr;
        let late = desk.send(Answer {
            ticket: ended,
            body,
        });
        assert_eq!(rt; late, Sent::Cancelled);

        // a number isn't given out again, and a ticket that is lost leaves its number waiting
        assert_eq!(rt; desk.issue(7, 100)?.number(), 3);
        assert_eq!(rt; (desk.sent(), desk.waiting()), (0, 2));
        desk.drop_ticket(other);
        assert_eq!(rt; desk.waiting(), 1);
        Ok(())
    }

    #[test]
    fn a_ticket_of_another_desk_is_not_owed(rt: HostRuntime) -> Result<(), Fail> {
        let mut desk = ReplyDesk::new(rt.alloc());
        let mut another = ReplyDesk::new(rt.alloc());
        let ticket = another.issue(7, 100)?;
        let body = Body::Text(Vec::new(rt.alloc()));
        assert_eq!(rt; desk.send(Answer { ticket, body }), Sent::Cancelled);
        assert_eq!(rt; (another.sent(), another.waiting()), (0, 1));
        Ok(())
    }
}
