// The last calls.
ghost use Rattle.std.specs.Prelude.{◌≡◌, ◌≤◌, ℕ, length, option_copied, IfOk, OnOk, OnErr};
ghost use Rattle.std.specs.Borrow.{sem};
ghost use Rattle.dup_cache.specs.CallList.{HasRoomFor, no_replies, reply_for, with_begun, with_filled, with_used, without_call};

use crate::reply::Reply;
use gw_model::NoMemory;
use lru::LruCache;
use std::alloc::Global;
use std::marker::Model;
use std::num::NonZeroUsize;

/// The calls that were used last, by their keys, each with its reply. At most as many are kept as were asked for, and the
/// one that was used longest ago goes first.
#[derive(Drop)]
pub struct Calls {
    cache: LruCache<Vec<u8>, Reply>,
}

impl Model for Calls {
    ghost use Rattle.dup_cache.specs.CallList.{CallList};
    ghost use Rattle.dup_cache.specs.Entries.{cache_list};

    ghost Value = { CallList };

    ghost view = { λ c. cache_list c.cache };
}

impl Calls {
    ghost use Rattle.dup_cache.specs.Lends.{ends_used};

    /// Keeps none yet, and at most `calls`, which is at least 1. Takes memory.
    pub fn new(alloc: Global, calls: usize) -> Result<Calls, NoMemory>
        requires { 1 ≤ calls }
        ensures { IfOk result (λ c. c ≡ no_replies calls) }
    {
        let most = NonZeroUsize::new(calls).unwrap();
        match LruCache::new(alloc, most) {
            Ok(cache) => Ok(Calls { cache }),
            Err(_) => Err(NoMemory),
        }
    }

    /// How many calls are kept, those with an empty reply counted.
    pub fn len(&self) -> usize
        ensures count { result ≡ length self.now.calls }
        ensures few { length self.now.calls ≤ self.now.most }
    {
        self.cache.len()
    }

    /// The reply to a call, where it is kept and was filled. A call that is kept becomes the last used. Takes no memory.
    pub fn look(&mut self, key: &[u8]) -> Option<&[u8]>
        ensures* used { sem 𝓛 (ends_used self.entry key.now) }
        ensures value { option_copied result ≡ reply_for key.now self.old }
    {
        self.cache.promote(key);
        match self.cache.peek(key) {
            Some(reply) => reply.text(),
            None => None,
        }
    }

    /// Enters a call as the last used, with an empty reply that has room for `room` bytes. Where as many are kept as may
    /// be, the one that was used longest ago goes. Takes memory, and changes nothing for want of it.
    pub fn begin(&mut self, alloc: Global, key: &[u8], room: usize) -> Result<(), NoMemory>
        ensures begun { OnOk result (self.new ≡ with_begun key.now room self.old) }
        ensures room { OnOk result ((n : ℕ) → n ≤ room → HasRoomFor key.now n self.new) }
        ensures err { OnErr result (self.new ≡ self.old) }
    {
        let Ok(own_key) = Vec::from_slice(alloc, key) else {
            return Err(NoMemory);
        };
        let Ok(reply) = Reply::empty(alloc, room) else {
            return Err(NoMemory);
        };
        match self.cache.put(own_key, reply) {
            Ok(_) => Ok(()),
            Err(_) => Err(NoMemory),
        }
    }

    /// Fills the reply of a call that was begun with room for it. Takes no memory.
    pub fn fill(&mut self, key: &[u8], text: &[u8])
        requires { HasRoomFor key.now (length text.now) self.old }
        ensures { self.new ≡ with_filled key.now text.now self.old }
    {
        let Some(reply) = self.cache.peek_mut(key) else {
            return;
        };
        reply.fill(text);
    }

    /// Takes a call out, where it is kept. Takes no memory.
    pub fn forget(&mut self, key: &[u8])
        ensures { self.new ≡ without_call key.now self.old }
    {
        self.cache.pop_entry(key);
    }
}
