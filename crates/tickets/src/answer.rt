// What a request is answered.
ghost use Rattle.std.specs.Prelude.{◌≡◌, ◌<◌, ◌≤◌};
ghost use Rattle.gw_model.specs.File.{Wrote, NotWritten, Committed, NotCommitted, Gave, NotGiven, SystemErr};
ghost use Rattle.tickets.specs.Answers.{Says, answer_of, level_of};

use crate::Ticket;
use gw_model::Stable;
use gw_model::status::NFS3_OK;
use std::alloc::Global;

/// What a ticket's request is answered.
#[derive(Debug, Drop)]
pub struct Answer {
    pub ticket: Ticket,
    pub body: Body,
}

/// What a reply tells, before it is written as a message. Each status is an `nfsstat3` of RFC 1813 section 2.6, and 0
/// is its NFS3_OK.
#[derive(Debug, Drop, PartialEq, Eq)]
pub enum Body {
    /// A WRITE's: how many bytes were taken, and how durable they are, as `stable_how` of RFC 1813 section 3.3.7.
    Write {
        status: u32,
        count: u32,
        committed: u32,
    },
    /// A COMMIT's.
    Commit {
        status: u32,
    },
    /// A READ's: the bytes, and whether the file ends behind them.
    Read {
        status: u32,
        eof: bool,
        bytes: Vec<u8>,
    },
    /// A whole reply message.
    Text(Vec<u8>),
    /// The accepted reply SYSTEM_ERR of RFC 5531 section 9.
    SystemErr,
}

/// The `stable_how` of a stability (RFC 1813 section 3.3.7): 0, 1 or 2.
pub fn stable_how(stable: Stable) -> u32
    ensures level { level_of result ≡ stable }
    ensures few { result ≤ 2 }
{
    match stable {
        Stable::Unstable => 0,
        Stable::DataSync => 1,
        Stable::FileSync => 2,
    }
}

impl Answer {
    /// To a WRITE of `count` bytes that was done.
    pub fn wrote(ticket: Ticket, count: u32, stable: Stable) -> Self
        ensures says { Says result ticket (Wrote count stable) }
        ensures answer { answer_of result ≡ record { ticket = ticket.number; body = Wrote count stable } }
    {
        Answer {
            ticket,
            body: Body::Write {
                status: NFS3_OK,
                count,
                committed: stable_how(stable),
            },
        }
    }

    /// To a WRITE that is refused.
    pub fn not_written(ticket: Ticket, status: u32) -> Self
        requires { 0 < status }
        ensures says { Says result ticket (NotWritten status) }
        ensures answer { answer_of result ≡ record { ticket = ticket.number; body = NotWritten status } }
    {
        Answer {
            ticket,
            body: Body::Write {
                status,
                count: 0,
                committed: 0,
            },
        }
    }

    /// To a COMMIT that was done.
    pub fn committed(ticket: Ticket) -> Self
        ensures says { Says result ticket Committed }
        ensures answer { answer_of result ≡ record { ticket = ticket.number; body = Committed } }
    {
        Answer {
            ticket,
            body: Body::Commit { status: NFS3_OK },
        }
    }

    /// To a COMMIT that is refused.
    pub fn not_committed(ticket: Ticket, status: u32) -> Self
        requires { 0 < status }
        ensures says { Says result ticket (NotCommitted status) }
        ensures answer { answer_of result ≡ record { ticket = ticket.number; body = NotCommitted status } }
    {
        Answer {
            ticket,
            body: Body::Commit { status },
        }
    }

    /// To a READ: bytes, and whether the file ends behind them.
    pub fn gave(ticket: Ticket, bytes: Vec<u8>, eof: bool) -> Self
        ensures says { Says result ticket (Gave bytes.items eof) }
        ensures answer { answer_of result ≡ record { ticket = ticket.number; body = Gave bytes.items eof } }
    {
        Answer {
            ticket,
            body: Body::Read {
                status: NFS3_OK,
                eof,
                bytes,
            },
        }
    }

    /// To a READ that is refused. Takes no memory.
    pub fn not_given(alloc: Global, ticket: Ticket, status: u32) -> Self
        requires { 0 < status }
        ensures says { Says result ticket (NotGiven status) }
        ensures answer { answer_of result ≡ record { ticket = ticket.number; body = NotGiven status } }
    {
        Answer {
            ticket,
            body: Body::Read {
                status,
                eof: false,
                bytes: Vec::new(alloc),
            },
        }
    }

    /// To a request for which there is no memory.
    pub fn no_memory(ticket: Ticket) -> Self
        ensures says { Says result ticket SystemErr }
        ensures answer { answer_of result ≡ record { ticket = ticket.number; body = SystemErr } }
    {
        Answer {
            ticket,
            body: Body::SystemErr,
        }
    }
}
