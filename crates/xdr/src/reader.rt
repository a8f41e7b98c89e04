// Items from the front of a message.
ghost use Rattle.std.specs.Prelude.{◌≡◌, ◌≤◌, Ok, Err, IfOk, IfErr, OnErr};
ghost use Rattle.xdr.specs.Reading.{start, u32_at, u64_at, bool_at, padded_at, opaque_at, fixed_at, finish_at};

use crate::XdrFault;
use crate::padding::padding;
use std::marker::Model;

/// Reads a message item by item. After a fault it stands where it stood. It takes no memory: an
/// opaque is a part of the message.
#[derive(Drop)]
pub struct Reader<'a> {
    place: usize,
    left: &'a [u8],
}

impl<'a> Model for Reader<'a> {
    ghost use Rattle.std.specs.Prelude.{◌+◌, ◌^◌, ◌<◌, length};
    ghost use Rattle.xdr.specs.Reading.{Cursor};

    ghost Value = { Cursor };

    ghost view = { λ r. record { place = r.place; left = r.left.now } };

    ghost invariant = { λ r. r.place + length r.left.now < 2 ^ 64 };
}

impl<'a> Reader<'a> {
    /// A reader at the start of a message.
    pub fn new(bytes: &'a [u8]) -> Reader<'a>
        ensures { result ≡ start bytes.now }
    {
        let _length = bytes.len();
        Reader {
            place: 0,
            left: bytes,
        }
    }

    /// How many bytes were taken.
    pub fn place(&self) -> usize
        ensures { result ≡ self.now.place }
    {
        self.place
    }

    /// The bytes that are left.
    pub fn rest(&self) -> &'a [u8]
        ensures { result.now ≡ self.now.left }
    {
        self.left
    }

    /// An unsigned integer (RFC 4506 section 4.2).
    #[tactic(auto, unfolding(crate::specs::Reading::u32_at))]
    pub fn take_u32(&mut self) -> Result<u32, XdrFault>
        ensures ok { IfOk result (λ n. u32_at self.old ≡ Ok (n, self.new)) }
        ensures err { IfErr result (λ fault. u32_at self.old ≡ Err fault) }
        ensures stays { OnErr result (self.new ≡ self.old) }
    {
        let Some((word, rest)) = self.left.split_first_chunk::<4>() else {
            return Err(XdrFault::Short { place: self.place });
        };
        self.left = rest;
        self.place += 4;
        Ok(u32::from_be_bytes(*word))
    }

    /// An unsigned hyper integer (RFC 4506 section 4.5).
    #[tactic(auto, unfolding(crate::specs::Reading::u64_at))]
    pub fn take_u64(&mut self) -> Result<u64, XdrFault>
        ensures ok { IfOk result (λ n. u64_at self.old ≡ Ok (n, self.new)) }
        ensures err { IfErr result (λ fault. u64_at self.old ≡ Err fault) }
        ensures stays { OnErr result (self.new ≡ self.old) }
    {
        let Some((long, rest)) = self.left.split_first_chunk::<8>() else {
            return Err(XdrFault::Short { place: self.place });
        };
        self.left = rest;
        self.place += 8;
        Ok(u64::from_be_bytes(*long))
    }

    /// A boolean (RFC 4506 section 4.4).
    #[tactic(auto, unfolding(crate::specs::Reading::bool_at))]
    pub fn take_bool(&mut self) -> Result<bool, XdrFault>
        ensures ok { IfOk result (λ b. bool_at self.old ≡ Ok (b, self.new)) }
        ensures err { IfErr result (λ fault. bool_at self.old ≡ Err fault) }
        ensures stays { OnErr result (self.new ≡ self.old) }
    {
        let place = self.place;
        let Some((word, rest)) = self.left.split_first_chunk::<4>() else {
            return Err(XdrFault::Short { place });
        };
        let value = match u32::from_be_bytes(*word) {
            0 => false,
            1 => true,
            _ => return Err(XdrFault::BadBool { place }),
        };
        self.left = rest;
        self.place += 4;
        Ok(value)
    }

    /// An opaque of any length up to `max` bytes (RFC 4506 section 4.10).
    #[tactic(auto, unfolding(crate::specs::Reading::opaque_at))]
    pub fn take_opaque(&mut self, max: u32) -> Result<&'a [u8], XdrFault>
        ensures ok { IfOk result (λ v. opaque_at max self.old ≡ Ok (v.now, self.new)) }
        ensures err { IfErr result (λ fault. opaque_at max self.old ≡ Err fault) }
        ensures stays { OnErr result (self.new ≡ self.old) }
    {
        let place = self.place;
        let Some((word, _)) = self.left.split_first_chunk::<4>() else {
            return Err(XdrFault::Short { place });
        };
        let len = u32::from_be_bytes(*word);
        if len > max {
            return Err(XdrFault::TooLong { place });
        }
        self.take_padded(4, len)
    }

    /// An opaque of `len` bytes (RFC 4506 section 4.9).
    #[tactic(auto, unfolding(crate::specs::Reading::fixed_at))]
    pub fn take_fixed(&mut self, len: u32) -> Result<&'a [u8], XdrFault>
        ensures ok { IfOk result (λ v. fixed_at len self.old ≡ Ok (v.now, self.new)) }
        ensures err { IfErr result (λ fault. fixed_at len self.old ≡ Err fault) }
        ensures stays { OnErr result (self.new ≡ self.old) }
    {
        self.take_padded(0, len)
    }

    // The `len` bytes behind the next `skip` bytes, which were judged before, and their padding.
    fn take_padded(&mut self, skip: usize, len: u32) -> Result<&'a [u8], XdrFault>
        requires { skip ≤ 4 }
        ensures ok { IfOk result (λ v. padded_at skip len self.old ≡ Ok (v.now, self.new)) }
        ensures err { IfErr result (λ fault. padded_at skip len self.old ≡ Err fault) }
        ensures stays { OnErr result (self.new ≡ self.old) }
    {
        let len = len as usize;
        let whole = skip + len + padding(len);
        let left = self.left;
        if left.len() < whole {
            return Err(XdrFault::Short { place: self.place });
        }
        let (_, item) = left.split_at(skip);
        let (value, _) = item.split_at(len);
        let (_, rest) = left.split_at(whole);
        self.left = rest;
        self.place += whole;
        Ok(value)
    }

    /// Ends the reading: nothing may be left.
    #[tactic(auto, unfolding(crate::specs::Reading::finish_at))]
    pub fn finish(self) -> Result<(), XdrFault>
        ensures { result ≡ finish_at self.entry }
    {
        if self.left.is_empty() {
            Ok(())
        } else {
            Err(XdrFault::Trailing { place: self.place })
        }
    }
}
