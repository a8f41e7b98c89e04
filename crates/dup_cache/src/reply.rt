// A reply that is kept.
ghost use Rattle.std.specs.Prelude.{◌≡◌, length, option_copied, IfOk};
ghost use Rattle.dup_cache.specs.CallList.{Empty, Filled, HasRoom, filled_text};

use std::alloc::{AllocError, Global};
use std::marker::Model;

/// A reply: room for its text, and then the text.
#[derive(Drop)]
pub struct Reply {
    text: Vec<u8>,
    is_filled: bool,
}

impl Model for Reply {
    ghost use Rattle.dup_cache.specs.CallList.{KeptReply};
    ghost use Rattle.dup_cache.specs.Entries.{block_reply};

    ghost Value = { KeptReply };

    ghost view = { λ r. block_reply r.is_filled r.text };
}

impl Reply {
    /// Room for a text of so many bytes. Takes memory.
    pub fn empty(alloc: Global, room: usize) -> Result<Reply, AllocError>
        ensures { IfOk result (λ r. r ≡ Empty room) }
    {
        let text = Vec::with_capacity(alloc, room)?;
        Ok(Reply {
            text,
            is_filled: false,
        })
    }

    /// The text, where it was filled.
    pub fn text(&self) -> Option<&[u8]>
        ensures { option_copied result ≡ filled_text self.now }
    {
        if self.is_filled {
            Some(self.text.as_slice())
        } else {
            None
        }
    }

    /// Takes the text into the room that there is. Takes no memory.
    pub fn fill(&mut self, text: &[u8])
        requires { HasRoom (length text.now) self.old }
        ensures { self.new ≡ Filled text.now }
    {
        self.text.clear();
        // There is room, so this is Ok.
        let _ = self.text.extend_from_slice(text);
        self.is_filled = true;
    }
}
