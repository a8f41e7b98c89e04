// Where a stream stands in a record that isn't whole yet.
ghost use Rattle.std.specs.Prelude.{◌≡◌, ◌+◌, ◌<◌, ◌≤◌, length, IfNone, IfSome};
ghost use Rattle.rpc_record.specs.Records.{record_max, header, is_last};
ghost use Rattle.rpc_record.specs.Places.{with_byte, IsJudged, IsFaultAt};

use crate::FrameFault;

const LONGEST_RECORD: usize = 1_052_672;

const MOST_FRAGMENTS: usize = 64;

const LAST_FRAGMENT: u32 = 0x8000_0000;

/// Where a stream stands in a record that isn't whole yet.
#[derive(Clone, Copy)]
pub struct Place {
    /// How many fragments of the record are whole.
    pub done: usize,
    /// The present fragment's header, of which the first `filled` bytes are there.
    pub header: [u8; 4],
    pub filled: usize,
    /// How many bytes the present fragment lacks, if its header is whole.
    pub lacks: usize,
    /// How many bytes the fragments have whose headers are whole.
    pub total: usize,
}

impl Place {
    /// At the start of a record.
    pub fn start() -> Place
        ensures { (result.done ≡ 0) × (result.filled ≡ 0) × (result.lacks ≡ 0) × (result.total ≡ 0) × (length result.header ≡ 4) }
    {
        Place {
            done: 0,
            header: [0; 4],
            filled: 0,
            lacks: 0,
            total: 0,
        }
    }

    fn word(&self) -> u32
        ensures { result ≡ header self.now.header }
    {
        u32::from_be_bytes(self.header)
    }

    /// If the header is of the last fragment of its record.
    pub fn is_last(&self) -> bool
        ensures { result ≡ is_last self.now.header }
    {
        self.word() >= LAST_FRAGMENT
    }

    // Goes from a header that is whole to its fragment's bytes, if it isn't at fault.
    fn judge(&mut self) -> Option<FrameFault>
        requires few { self.old.total ≤ record_max }
        ensures done { self.new.done ≡ self.old.done }
        ensures good { IfNone result (IsJudged self.old self.new) }
        ensures fault { IfSome result (λ fault. IsFaultAt self.old fault) }
    {
        if self.done >= MOST_FRAGMENTS {
            return Some(FrameFault::TooMany);
        }
        let len = (self.word() % LAST_FRAGMENT) as usize;
        let have = self.total + len;
        if have > LONGEST_RECORD {
            return Some(FrameFault::TooLong { have: have as u64 });
        }
        self.lacks = len;
        self.total = have;
        None
    }

    /// Takes a byte of a header. Once the header is whole, it is judged.
    pub fn take_byte(&mut self, byte: u8) -> Option<FrameFault>
        requires part { self.old.filled < 4 }
        requires few { self.old.total ≤ record_max }
        ensures done { self.new.done ≡ self.old.done }
        ensures part { IfNone result (self.old.filled + 1 < 4 → self.new ≡ with_byte self.old byte) }
        ensures good { IfNone result (self.old.filled ≡ 3 → IsJudged (with_byte self.old byte) self.new) }
        ensures fault { IfSome result (λ fault. (self.old.filled ≡ 3) × IsFaultAt (with_byte self.old byte) fault) }
    {
        self.header[self.filled] = byte;
        self.filled += 1;
        if self.filled < 4 {
            return None;
        }
        self.judge()
    }
}
