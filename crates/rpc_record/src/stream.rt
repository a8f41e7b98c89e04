// The bytes of a connection, cut into records.
ghost use Rattle.std.specs.Prelude.{◌≡◌, ◌≢◌, [], ◌++◌, IfOk, OnErr};
ghost use Rattle.rpc_record.specs.declared.fault.FrameFault.{FrameFault};
ghost use Rattle.rpc_record.specs.Records.{Fault, front};
ghost use Rattle.rpc_record.specs.Streams.{IsAtRest, IsHeard};

use crate::assembler::Assembler;
use crate::fault::FrameFault;
use bytes::Bytes;
use std::alloc::{AllocError, Global};
use std::marker::Model;

/// What a piece of a stream came to.
#[derive(Debug, Drop)]
pub enum StreamStep {
    /// All of it was taken, and a record is still to be completed.
    More,
    /// So many of its bytes complete a record.
    Record { taken: usize, message: Bytes },
    /// A record that is too long, or has too many fragments.
    Broken,
}

/// A stream of records (RFC 5531 section 11), of which the bytes since the last whole one are kept.
#[derive(Drop)]
pub struct Stream {
    // In a box, so that a stream which is taken out of a map and given back for each piece moves as a pointer.
    assembler: Box<Assembler>,
}

impl Model for Stream {
    ghost use Rattle.std.specs.Prelude.{ℕ, List};
    ghost use Rattle.rpc_record.specs.Streams.{IsAtRest};

    ghost Value = { List ℕ };

    ghost view = { λ s. s.assembler.value.held };

    ghost invariant = { λ s. IsAtRest s.assembler.value };
}

// Has an assembler take bytes of a piece. After a fault it is one at the start of a stream.
#[tactic(auto, using(crate::proofs::Fronts::front_empty))]
fn assemble(
    assembler: &mut Assembler,
    alloc: Global,
    piece: &[u8],
) -> Result<StreamStep, AllocError>
    requires rest { IsAtRest assembler.old }
    ensures ok { IfOk result (λ heard. IsHeard heard assembler.old.held piece.now assembler.new.held) }
    ensures rest { IsAtRest assembler.new }
    ensures err { OnErr result (assembler.new ≡ assembler.old) }
    ensures sound { OnErr result ((fault : FrameFault) → front (assembler.old.held ++ piece.now) ≢ Fault fault) }
{
    match assembler.feed(piece) {
        Ok(taken) => match assembler.next() {
            Some(message) => Ok(StreamStep::Record { taken, message }),
            None => Ok(StreamStep::More),
        },
        Err(fault) => {
            if fault == FrameFault::Memory {
                return Err(AllocError);
            }
            *assembler = Assembler::new(alloc);
            Ok(StreamStep::Broken)
        }
    }
}

impl Stream {
    /// A stream at its start. Takes memory.
    #[tactic(auto, using(crate::proofs::Fronts::front_empty))]
    pub fn new(alloc: Global) -> Result<Stream, AllocError>
        ensures { IfOk result (λ stream. stream ≡ []) }
    {
        let assembler = Box::new(alloc, Assembler::new(alloc))?;
        Ok(Stream { assembler })
    }

    /// Takes bytes of a piece: all of it, or up to the end of a record, which is given. After a header at fault the stream is
    /// at its start. Takes memory: want of it changes nothing, and is never answered for a header at fault.
    pub fn hear(&mut self, alloc: Global, piece: &[u8]) -> Result<StreamStep, AllocError>
        ensures ok { IfOk result (λ heard. IsHeard heard self.old piece.now self.new) }
        ensures err { OnErr result (self.new ≡ self.old) }
        ensures sound { OnErr result ((fault : FrameFault) → front (self.old ++ piece.now) ≢ Fault fault) }
    {
        assemble(&mut self.assembler, alloc, piece)
    }
}
