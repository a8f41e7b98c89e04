// The items of an edit of which a part may be missing.
ghost use Rattle.std.specs.Prelude.{◌≡◌, ◌≤◌, length, IfOk, IfErr, Ok, Err};
ghost use Rattle.edit_log.specs.Edits.{bytes_at, word_at, long_at, count_at, padded_at, name_at, name_bytes_at, path_at, kind_at, all_zero};
ghost use Rattle.xdr.specs.Items.{pad_len};

use crate::parts::{back, front};
use std::marker::Model;
use xdr::padded_length;

/// Why an edit can't be read.
#[derive(Clone, Copy, Debug, PartialEq, Eq)]
pub enum Cut {
    /// Bytes are missing, and those that are there may begin an edit.
    Torn,
    /// The bytes that are there begin no edit.
    Bad,
}

/// How many bytes of an edit are to come, and those of them that are there.
#[derive(Drop)]
pub struct Gauge<'a> {
    room: usize,
    left: &'a [u8],
}

impl<'a> Model for Gauge<'a> {
    ghost use Rattle.edit_log.specs.Edits.{Gauge as Seen};

    ghost Value = { Seen };

    ghost view = { λ g. record { room = g.room; left = g.left.now } };
}

impl<'a> Gauge<'a> {
    /// A gauge over an edit of `room` bytes, of which `left` are there.
    pub fn new(room: usize, left: &'a [u8]) -> Gauge<'a>
        ensures { result ≡ record { room = room; left = left.now } }
    {
        Gauge { room, left }
    }

    /// How many bytes are to come.
    pub fn room(&self) -> usize
        ensures { result ≡ self.now.room }
    {
        self.room
    }

    /// The next `n` bytes.
    #[tactic(auto, unfolding(crate::specs::Edits::bytes_at))]
    fn bytes(&mut self, n: usize) -> Result<&'a [u8], Cut>
        ensures ok { IfOk result (λ x. bytes_at n self.old ≡ Ok (x.now, self.new)) }
        ensures err { IfErr result (λ e. bytes_at n self.old ≡ Err e) }
        ensures len { IfOk result (λ x. length x.now ≡ n) }
    {
        if n > self.room {
            return Err(Cut::Bad);
        }
        if n > self.left.len() {
            return Err(Cut::Torn);
        }
        let (front, back) = self.left.split_at(n);
        self.room -= n;
        self.left = back;
        Ok(front)
    }

    /// An unsigned integer (RFC 4506 section 4.2).
    #[tactic(auto, unfolding(crate::specs::Edits::word_at, crate::specs::Edits::bytes_at))]
    pub fn word(&mut self) -> Result<u32, Cut>
        ensures ok { IfOk result (λ x. word_at self.old ≡ Ok (x, self.new)) }
        ensures err { IfErr result (λ e. word_at self.old ≡ Err e) }
    {
        if self.room < 4 {
            return Err(Cut::Bad);
        }
        let Some((word, rest)) = self.left.split_first_chunk::<4>() else {
            return Err(Cut::Torn);
        };
        self.left = rest;
        self.room -= 4;
        Ok(u32::from_be_bytes(*word))
    }

    /// An unsigned hyper integer (RFC 4506 section 4.5).
    #[tactic(auto, unfolding(crate::specs::Edits::long_at, crate::specs::Edits::bytes_at))]
    pub fn long(&mut self) -> Result<u64, Cut>
        ensures ok { IfOk result (λ x. long_at self.old ≡ Ok (x, self.new)) }
        ensures err { IfErr result (λ e. long_at self.old ≡ Err e) }
    {
        if self.room < 8 {
            return Err(Cut::Bad);
        }
        let Some((long, rest)) = self.left.split_first_chunk::<8>() else {
            return Err(Cut::Torn);
        };
        self.left = rest;
        self.room -= 8;
        Ok(u64::from_be_bytes(*long))
    }

    /// The length of an opaque of `low` to `high` bytes (RFC 4506 section 4.10).
    #[tactic(auto, unfolding(crate::specs::Edits::count_at))]
    fn count(&mut self, low: usize, high: usize) -> Result<usize, Cut>
        ensures ok { IfOk result (λ n. count_at low high self.old ≡ Ok (n, self.new)) }
        ensures err { IfErr result (λ e. count_at low high self.old ≡ Err e) }
        ensures most { IfOk result (λ n. n ≤ high) }
    {
        let count = self.word()? as usize;
        if count < low || count > high {
            return Err(Cut::Bad);
        }
        Ok(count)
    }

    /// The next `n` bytes, behind which there is padding of zeros.
    #[tactic(auto, unfolding(crate::specs::Edits::padded_at))]
    fn padded(&mut self, n: usize) -> Result<&'a [u8], Cut>
        requires { n ≤ 4096 }
        ensures ok { IfOk result (λ x. padded_at n self.old ≡ Ok (x.now, self.new)) }
        ensures err { IfErr result (λ e. padded_at n self.old ≡ Err e) }
    {
        if !is_zero(front(back(self.left, n), padding(n))) {
            return Err(Cut::Bad);
        }
        let whole = self.bytes(n + padding(n))?;
        Ok(front(whole, n))
    }

    /// The next `n` bytes as a name.
    #[tactic(auto, unfolding(crate::specs::Edits::name_bytes_at))]
    fn name_bytes(&mut self, n: usize) -> Result<&'a [u8], Cut>
        requires { n ≤ 4096 }
        ensures ok { IfOk result (λ x. name_bytes_at n self.old ≡ Ok (x.now, self.new)) }
        ensures err { IfErr result (λ e. name_bytes_at n self.old ≡ Err e) }
    {
        let there = front(self.left, n);
        if there.contains(&b'/') || there.contains(&0) {
            return Err(Cut::Bad);
        }
        self.padded(n)
    }

    /// A name: an opaque of 1 to 255 bytes without `/` and zero bytes.
    #[tactic(auto, unfolding(crate::specs::Edits::name_at))]
    pub fn name(&mut self) -> Result<&'a [u8], Cut>
        ensures ok { IfOk result (λ x. name_at self.old ≡ Ok (x.now, self.new)) }
        ensures err { IfErr result (λ e. name_at self.old ≡ Err e) }
    {
        let count = self.count(1, 255)?;
        self.name_bytes(count)
    }

    /// A path: an opaque of at most `most` bytes.
    #[tactic(auto, unfolding(crate::specs::Edits::path_at))]
    pub fn path(&mut self, most: usize) -> Result<&'a [u8], Cut>
        requires { most ≤ 4096 }
        ensures ok { IfOk result (λ x. path_at most self.old ≡ Ok (x.now, self.new)) }
        ensures err { IfErr result (λ e. path_at most self.old ≡ Err e) }
    {
        let count = self.count(0, most)?;
        self.padded(count)
    }

    /// The number of a kind of node: 1 a file, 2 a directory, 5 a link.
    #[tactic(auto, unfolding(crate::specs::Edits::kind_at))]
    pub fn kind(&mut self) -> Result<u32, Cut>
        ensures ok { IfOk result (λ x. kind_at self.old ≡ Ok (x, self.new)) }
        ensures err { IfErr result (λ e. kind_at self.old ≡ Err e) }
    {
        let kind = self.word()?;
        if kind == 1 || kind == 2 || kind == 5 {
            Ok(kind)
        } else {
            Err(Cut::Bad)
        }
    }
}

// How many bytes of padding lead from a number of bytes to a multiple of four (RFC 4506 section 3).
fn padding(count: usize) -> usize
    requires { count ≤ 4096 }
    ensures value { result ≡ pad_len count }
    ensures few { result ≤ 3 }
{
    padded_length(count) - count
}

// Whether all bytes are zero.
fn is_zero(bytes: &[u8]) -> bool
    ensures { result ≡ all_zero bytes.now }
{
    for byte in bytes {
        if *byte != 0 {
            return false;
        }
    }
    true
}
