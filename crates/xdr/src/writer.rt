// Items to the end of a message.
ghost use Rattle.std.specs.Prelude.{◌≡◌, ◌++◌, ◌≤◌, ◌<◌, ◌^◌, [], length, OnOk, OnErr};
ghost use Rattle.xdr.specs.Items.{word, long, bool_text, fixed_text, opaque_text};

use crate::NoMemory;
use crate::padding::zeros;
use std::alloc::Global;
use std::marker::Model;

/// Writes items one behind the other, with zero padding. A put that is refused changes nothing.
#[derive(Drop)]
pub struct Writer {
    text: Vec<u8>,
}

impl Model for Writer {
    ghost use Rattle.std.specs.Prelude.{List, ℕ};

    ghost Value = { List ℕ };

    ghost view = { λ w. w.text.items };
}

impl Writer {
    /// A writer that has written nothing.
    pub fn new(alloc: Global) -> Writer
        ensures { result ≡ [] }
    {
        Writer {
            text: Vec::new(alloc),
        }
    }

    /// Writes an unsigned integer (RFC 4506 section 4.2).
    #[tactic(auto, unfolding(crate::specs::Items::word))]
    pub fn put_u32(&mut self, v: u32) -> Result<(), NoMemory>
        ensures ok { OnOk result (self.new ≡ self.old ++ word v) }
        ensures err { OnErr result (self.new ≡ self.old) }
    {
        append(&mut self.text, &v.to_be_bytes())
    }

    /// Writes an unsigned hyper integer (RFC 4506 section 4.5).
    #[tactic(auto, unfolding(crate::specs::Items::long))]
    pub fn put_u64(&mut self, v: u64) -> Result<(), NoMemory>
        ensures ok { OnOk result (self.new ≡ self.old ++ long v) }
        ensures err { OnErr result (self.new ≡ self.old) }
    {
        append(&mut self.text, &v.to_be_bytes())
    }

    /// Writes a boolean (RFC 4506 section 4.4).
    #[tactic(auto, unfolding(crate::specs::Items::bool_text))]
    pub fn put_bool(&mut self, v: bool) -> Result<(), NoMemory>
        ensures ok { OnOk result (self.new ≡ self.old ++ bool_text v) }
        ensures err { OnErr result (self.new ≡ self.old) }
    {
        if v { self.put_u32(1) } else { self.put_u32(0) }
    }

    /// Writes an opaque with its length (RFC 4506 section 4.10). One of 2^32 bytes or more has no
    /// spelling, and is answered as want of memory.
    #[tactic(auto, unfolding(crate::specs::Items::word, crate::specs::Items::opaque_text, crate::specs::Items::fixed_text))]
    pub fn put_opaque(&mut self, v: &[u8]) -> Result<(), NoMemory>
        ensures ok { OnOk result (self.new ≡ self.old ++ opaque_text v.now) }
        ensures fits { OnOk result (length v.now < 2 ^ 32) }
        ensures err { OnErr result (self.new ≡ self.old) }
    {
        let Ok(count) = u32::try_from(v.len()) else {
            return Err(NoMemory);
        };
        let before = self.text.len();
        append(&mut self.text, &count.to_be_bytes())?;
        if append_padded(&mut self.text, v).is_err() {
            self.text.truncate(before);
            return Err(NoMemory);
        }
        Ok(())
    }

    /// Writes an opaque whose length the reader knows (RFC 4506 section 4.9).
    pub fn put_fixed(&mut self, v: &[u8]) -> Result<(), NoMemory>
        ensures ok { OnOk result (self.new ≡ self.old ++ fixed_text v.now) }
        ensures err { OnErr result (self.new ≡ self.old) }
    {
        append_padded(&mut self.text, v)
    }

    /// What was written.
    pub fn into_vec(self) -> Vec<u8>
        ensures { result.items ≡ self }
    {
        let Writer { text } = self;
        text
    }
}

fn append(text: &mut Vec<u8>, bytes: &[u8]) -> Result<(), NoMemory>
    ensures ok { OnOk result (text.new.items ≡ text.old.items ++ bytes.now) }
    ensures err { OnErr result (text.new.items ≡ text.old.items) }
{
    text.extend_from_slice(bytes).map_err(|_| NoMemory)
}

#[tactic(auto, unfolding(crate::specs::Items::fixed_text))]
fn append_padded(text: &mut Vec<u8>, v: &[u8]) -> Result<(), NoMemory>
    ensures ok { OnOk result (text.new.items ≡ text.old.items ++ fixed_text v.now) }
    ensures err { OnErr result (text.new.items ≡ text.old.items) }
{
    let before = text.len();
    append(text, v)?;
    if append(text, zeros(v.len())).is_err() {
        text.truncate(before);
        return Err(NoMemory);
    }
    Ok(())
}
