// Records from the pieces of a stream.
ghost use Rattle.std.specs.Prelude.{◌≡◌, ◌≢◌, ◌≤◌, ◌++◌, length, None, Some, Ok, Err, IfOk, IfErr};
ghost use Rattle.rpc_record.specs.declared.fault.FrameFault.{FrameFault};
ghost use Rattle.rpc_record.specs.Records.{Fault, front};
ghost use Rattle.rpc_record.specs.Assembly.{empty_assembly, feed_result};

use crate::FrameFault;
use crate::present::{Present, Taken};
use bytes::Bytes;
use std::alloc::Global;
use std::marker::Model;

/// Takes the pieces of a stream and gives its records, one at a time. It never looks at the bytes of
/// an earlier piece again, and a record takes the block that its bytes were joined in with it.
#[derive(Drop)]
pub struct Assembler {
    alloc: Global,
    present: Present,
    ready: Option<Bytes>,
    fault: Option<FrameFault>,
}

impl Model for Assembler {
    ghost use Rattle.rpc_record.specs.Assembly.{Assembly};
    ghost use Rattle.rpc_record.specs.Presents.{held_of, IsPresent};

    ghost Value = { Assembly };

    ghost view = { λ a. record { held = held_of a.present; ready = a.ready; fault = a.fault } };

    ghost invariant = { λ a. IsPresent a.present };
}

impl Assembler {
    /// An assembler at the start of a stream.
    pub fn new(alloc: Global) -> Assembler
        ensures { result ≡ empty_assembly }
    {
        Assembler {
            alloc,
            present: Present::start(alloc),
            ready: None,
            fault: None,
        }
    }

    /// Takes bytes of a piece: all of it, or up to the end of a record, which is ready then. The
    /// count is how many were taken. A header at fault is answered as soon as its four bytes are
    /// there, and at every call from then on. Want of memory changes nothing, and is never answered for a
    /// header at fault.
    pub fn feed(&mut self, piece: &[u8]) -> Result<usize, FrameFault>
        requires { self.old.ready ≡ None }
        ensures ok { IfOk result (λ count. feed_result self.old piece.now ≡ (Ok count, self.new)) }
        ensures fault { IfErr result (λ fault. fault ≢ FrameFault.Memory → feed_result self.old piece.now ≡ (Err fault, self.new)) }
        ensures memory { result ≡ Err FrameFault.Memory → self.new ≡ self.old }
        ensures sound { result ≡ Err FrameFault.Memory → self.old.fault ≡ None
            → (fault : FrameFault) → front (self.old.held ++ piece.now) ≢ Fault fault }
        ensures broken { (fault : FrameFault) → self.old.fault ≡ Some fault → result ≡ Err fault }
        ensures within { IfOk result (λ count. count ≤ length piece.now) }
    {
        if let Some(fault) = self.fault {
            return Err(fault);
        }
        match self.present.take(self.alloc, piece) {
            Ok(Taken::All) => Ok(piece.len()),
            Ok(Taken::Record { count, message }) => {
                self.ready = Some(message);
                Ok(count)
            }
            Err(fault) => {
                if fault == FrameFault::Memory {
                    return Err(fault);
                }
                self.fault = Some(fault);
                Err(fault)
            }
        }
    }

    /// The record that is ready, if one is.
    pub fn next(&mut self) -> Option<Bytes>
        ensures given { result ≡ self.old.ready }
        ensures rest { self.new ≡ record self.old { ready = None } }
    {
        self.ready.take()
    }
}
