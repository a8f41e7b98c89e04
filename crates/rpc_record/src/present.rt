// The record of a stream that isn't whole yet.
ghost use Rattle.std.specs.Prelude.{Bool, ◌≡◌, ℕ, ◌+◌, ◌<◌, ◌≤◌, ◌-◌, ◌∷◌, ◌++◌, [], List, length, take, drop, false, OnOk, OnErr, IfOk, IfErr};
ghost use Rattle.std.specs.Bool.{OnTrue, OnFalse};
ghost use Rattle.rpc_record.specs.declared.fault.FrameFault.{FrameFault};
ghost use Rattle.rpc_record.specs.Records.{record_max};
ghost use Rattle.rpc_record.specs.Presents.{whole_headers, held_of, GoesOn, IsFaultIn, IsShort, IsPresent, IsEnd};
ghost use Rattle.rpc_record.specs.Presents.{Extends, IsWalked, IsTaken, IsRefusal};

use crate::FrameFault;
use crate::place::Place;
use bytes::{Bytes, BytesMut};
use std::alloc::Global;
use std::mem;

/// The record of a stream that isn't whole yet. Its bytes are kept in a block of their own.
#[derive(Drop)]
pub struct Present {
    pub place: Place,
    /// The first `place.done` are the headers of its whole fragments. Its value alone reads them.
    pub finished: [[u8; 4]; 64],
    /// The bytes of its fragments, without headers.
    pub joined: BytesMut,
}

/// What a piece came to.
pub enum Walked {
    /// All of it was taken, and the record isn't whole yet.
    Open,
    Fault(FrameFault),
    /// So many bytes of it complete the record.
    Whole { taken: usize },
    /// Memory was refused, and no header is at fault.
    Refused,
}

/// What a piece came to, where memory served.
#[derive(Drop)]
pub enum Taken {
    /// All of it was taken, and the record isn't whole yet.
    All,
    /// So many bytes of it complete this record.
    Record { count: usize, message: Bytes },
}

impl Present {
    /// At the start of a record. Takes no memory.
    pub fn start(alloc: Global) -> Present
        ensures { IsPresent result × (held_of result ≡ []) }
    {
        Present {
            place: Place::start(),
            finished: [[0; 4]; 64],
            joined: BytesMut::new(alloc),
        }
    }

    // The present fragment is whole, and another one is to come.
    fn finish(&mut self)
        requires some { self.old.place.done < 64 }
        ensures words { whole_headers self.new ≡ whole_headers self.old ++ self.old.place.header ∷ [] }
        ensures before { take self.old.place.done self.new.finished ≡ whole_headers self.old }
        ensures place { self.new.place ≡ record self.old.place { done = self.old.place.done + 1; filled = 0 } }
        ensures joined { self.new.joined ≡ self.old.joined }
    {
        self.finished[self.place.done] = self.place.header;
        self.place.done += 1;
        self.place.filled = 0;
    }

    // Keeps bytes of the present fragment, unless memory was refused or is now. Answers if it was.
    fn keep(&mut self, refused: bool, bytes: &[u8]) -> bool
        requires few { length bytes.now ≤ self.old.place.lacks }
        ensures kept { OnFalse result ((refused ≡ false) × (self.new.joined.items ≡ self.old.joined.items ++ bytes.now)) }
        ensures left { OnTrue result (self.new.joined.items ≡ self.old.joined.items) }
        ensures place { self.new.place ≡ record self.old.place { lacks = self.old.place.lacks - length bytes.now } }
        ensures finished { self.new.finished ≡ self.old.finished }
    {
        self.place.lacks -= bytes.len();
        refused || self.joined.extend_from_slice(bytes).is_err()
    }

    // Takes a byte of the header, or bytes of the present fragment.
    fn advance(&mut self, refused: &mut bool, rest: &[u8]) -> Result<usize, FrameFault>
        requires some { 0 < length rest.now }
        requires few { self.old.place.total ≤ record_max }
        requires header { self.old.place.filled ≤ 4 }
        requires short { IsShort self.old.place }
        ensures stands { IfOk result (λ count. GoesOn self.old refused.old rest.now self.new refused.new (drop count rest.now)) }
        ensures count { IfOk result (λ count. (0 < count) × (count ≤ length rest.now)) }
        ensures fault { IfErr result (λ fault. IsFaultIn self.old refused.old rest.now fault) }
        ensures kept { Extends self.old self.new }
    {
        if self.place.filled < 4 {
            match self.place.take_byte(rest[0]) {
                Some(fault) => Err(fault),
                None => Ok(1),
            }
        } else {
            let count = self.place.lacks.min(rest.len());
            *refused = self.keep(*refused, &rest[..count]);
            Ok(count)
        }
    }

    // If the record ends here. A fragment that is whole and not the last is finished.
    fn ends(&mut self) -> bool
        requires header { self.old.place.filled ≤ 4 }
        requires some { self.old.place.filled ≡ 4 → self.old.place.done < 64 }
        ensures last { OnTrue result (IsEnd self.old) }
        ensures more { OnFalse result ((refused : Bool) (rest : List ℕ) → GoesOn self.old refused rest self.new refused rest) }
        ensures short { OnFalse result (IsShort self.new.place) }
        ensures joined { self.new.joined ≡ self.old.joined }
        ensures kept { Extends self.old self.new }
    {
        if self.place.filled < 4 || self.place.lacks > 0 {
            return false;
        }
        if self.place.is_last() {
            return true;
        }
        self.finish();
        false
    }

    /// Takes bytes of a piece: all of it, or up to the end of the record.
    pub fn walk(&mut self, piece: &[u8]) -> Walked
        requires { IsPresent self.old }
        ensures walked { IsWalked result (held_of self.old) piece.now self.new }
        ensures kept { Extends self.old self.new }
    {
        let mut refused = false;
        let mut taken = 0;
        while taken < piece.len() {
            match self.advance(&mut refused, &piece[taken..]) {
                Ok(count) => taken += count,
                Err(fault) => return Walked::Fault(fault),
            }
            if self.ends() {
                return if refused {
                    Walked::Refused
                } else {
                    Walked::Whole { taken }
                };
            }
        }
        if refused {
            Walked::Refused
        } else {
            Walked::Open
        }
    }

    // Goes back to where it stood before a walk, when it had `count` bytes.
    fn go_back(&mut self, place: Place, count: usize)
        ensures place { self.new.place ≡ place }
        ensures finished { self.new.finished ≡ self.old.finished }
        ensures joined { self.new.joined.items ≡ take count self.old.joined.items }
    {
        self.place = place;
        self.joined.truncate(count);
    }

    // Gives the bytes of a record that ends here, in their own block, and is at the start of another one.
    fn freeze(&mut self, alloc: Global) -> Result<Bytes, FrameFault>
        ensures ok { IfOk result (λ message. message ≡ self.old.joined.items) }
        ensures next { OnOk result (IsPresent self.new × (held_of self.new ≡ [])) }
        ensures err { IfErr result (λ fault. fault ≡ FrameFault.Memory) }
        ensures same { OnErr result (Extends self.old self.new) }
    {
        match mem::replace(&mut self.joined, BytesMut::new(alloc)).freeze() {
            Ok(message) => {
                self.place = Place::start();
                Ok(message)
            }
            Err(refused) => {
                self.joined = refused.value;
                Err(FrameFault::Memory)
            }
        }
    }

    // Takes bytes of a piece, and what was kept before stays.
    fn gather(&mut self, alloc: Global, piece: &[u8]) -> Result<Taken, FrameFault>
        requires { IsPresent self.old }
        ensures ok { IfOk result (λ taken. IsPresent self.new × IsTaken taken (held_of self.old) piece.now self.new) }
        ensures err { IfErr result (λ fault. IsRefusal fault (held_of self.old ++ piece.now)) }
        ensures kept { OnErr result (Extends self.old self.new) }
    {
        match self.walk(piece) {
            Walked::Open => Ok(Taken::All),
            Walked::Whole { taken } => match self.freeze(alloc) {
                Ok(message) => Ok(Taken::Record {
                    count: taken,
                    message,
                }),
                Err(fault) => Err(fault),
            },
            Walked::Fault(fault) => Err(fault),
            Walked::Refused => Err(FrameFault::Memory),
        }
    }

    /// Takes bytes of a piece: all of it, or up to the end of the record. A refusal changes nothing.
    pub fn take(&mut self, alloc: Global, piece: &[u8]) -> Result<Taken, FrameFault>
        requires { IsPresent self.old }
        ensures stands { IsPresent self.new }
        ensures ok { IfOk result (λ taken. IsTaken taken (held_of self.old) piece.now self.new) }
        ensures err { IfErr result (λ fault. IsRefusal fault (held_of self.old ++ piece.now)) }
        ensures same { OnErr result (held_of self.new ≡ held_of self.old) }
    {
        let place = self.place;
        let length = self.joined.len();
        match self.gather(alloc, piece) {
            Ok(taken) => Ok(taken),
            Err(fault) => {
                self.go_back(place, length);
                Err(fault)
            }
        }
    }
}
