// The numbers of the files that have a context, in the order of their last use.
ghost use Rattle.std.specs.Prelude.{◌≡◌, ℕ, Bool, [], true, IfOk, IsOk, OnErr, OnOk, length, nat_eq, nat_lt};
ghost use Rattle.std.specs.List.{IsDistinct};
ghost use Rattle.ctx_cache.specs.Order.{AnswersAs, brought_first, entrance_of, is_listed, least_used_idle, order_after_use, without_file};

use gw_model::NoMemory;
use lru::LruCache;
use std::alloc::Global;
use std::marker::Model;

/// What a file finds that is to have a context.
#[derive(Clone, Copy, Debug, PartialEq, Eq)]
pub enum Entrance {
    /// It has one.
    There,
    /// One more file may have one.
    Free,
    /// As many files have one as may. Of those that are idle the file of this number was used least recently.
    Replaces(u64),
    /// As many files have one as may, and none of them is idle.
    Full,
}

/// The numbers of the files that have a context, the one used last first, and how many files may have one. While a file
/// comes in place of another one, both are listed.
#[derive(Drop)]
pub struct ContextOrder {
    // It has no bound of its own: which file leaves is not the cache's to say.
    cache: LruCache<u64, ()>,
    most: usize,
}

impl Model for ContextOrder {
    ghost use Rattle.std.specs.Prelude.{◌≡◌, ◌-◌, ◌^◌};
    ghost use Rattle.std.specs.Map.{keys_of};
    ghost use Rattle.ctx_cache.specs.Order.{OrderState};

    ghost Value = { OrderState };

    ghost view = { λ c. record { files = keys_of c.cache.entries; most = c.most } };

    ghost invariant = { λ c. c.cache.cap ≡ 2 ^ 64 - 1 };
}

impl ContextOrder {
    /// No file is listed, and at most `most` may have a context. Takes memory.
    pub fn new(alloc: Global, most: usize) -> Result<Self, NoMemory>
        ensures { IfOk result (λ c. (c.files ≡ []) × (c.most ≡ most)) }
    {
        let cache = LruCache::unbounded(alloc).map_err(|_| NoMemory)?;
        Ok(ContextOrder { cache, most })
    }

    /// Whether a file is listed.
    pub fn contains(&self, file: u64) -> bool
        ensures { result ≡ is_listed file self.now.files }
    {
        self.cache.contains(&file)
    }

    /// How many files are listed, each once.
    pub fn len(&self) -> usize
        ensures len { result ≡ length self.now.files }
        ensures once { IsDistinct nat_eq self.now.files }
    {
        self.cache.len()
    }

    /// What a file finds that is to have a context. Where there is no room, `is_idle` tells of a file that is listed
    /// whether its context is idle: it is asked once of each, from the one used least recently on, until one is. Takes no
    /// memory.
    pub fn entrance<F: Fn(u64) -> bool>(&self, file: u64, is_idle: F) -> Entrance
        requires { F.IsAlwaysCallable is_idle }
        ensures { (idle : ℕ → Bool) → AnswersAs (F.post is_idle) idle → result ≡ entrance_of idle self.now.most file self.now.files }
    {
        if self.contains(file) {
            return Entrance::There;
        }
        if self.has_room() {
            return Entrance::Free;
        }
        match self.least_used(&is_idle) {
            Some(number) => Entrance::Replaces(number),
            None => Entrance::Full,
        }
    }

    // Whether one more file may have a context.
    fn has_room(&self) -> bool
        ensures { result ≡ nat_lt (length self.now.files) self.now.most }
    {
        self.cache.len() < self.most
    }

    // The file that was used least recently of those that are idle.
    fn least_used<F: Fn(u64) -> bool>(&self, is_idle: &F) -> Option<u64>
        requires { F.IsAlwaysCallable is_idle.now }
        ensures { (idle : ℕ → Bool) → AnswersAs (F.post is_idle.now) idle → result ≡ least_used_idle idle self.now.files }
    {
        let mut uses = self.cache.iter();
        while let Some((file, _)) = uses.next_back() {
            let number = *file;
            if is_idle(number) {
                return Some(number);
            }
        }
        None
    }

    /// Lists a file as the one used last. Takes memory, where the file isn't listed; want of memory changes nothing. It
    /// goes before all else that an opening does, also before the closing of a context that is replaced: `remove` of
    /// either file takes none.
    pub fn enter(&mut self, file: u64) -> Result<(), NoMemory>
        ensures ok { OnOk result (self.new.files ≡ brought_first file self.old.files) }
        ensures err { OnErr result (self.new.files ≡ self.old.files) }
        ensures succeeds { is_listed file self.old.files ≡ true → IsOk result }
        ensures most { self.new.most ≡ self.old.most }
    {
        // There are fewer than the cache holds, so that none is pushed out.
        let _count = self.cache.len();
        match self.cache.put(file, ()) {
            Ok(_) => Ok(()),
            Err(_) => Err(NoMemory),
        }
    }

    /// A file was used: where it is listed it is now the one used last, else nothing changes. Takes no memory.
    pub fn touch(&mut self, file: u64)
        ensures files { self.new.files ≡ order_after_use file self.old.files }
        ensures most { self.new.most ≡ self.old.most }
    {
        self.cache.promote(&file);
    }

    /// Takes a file out, and gives back what was taken for it. One that isn't listed changes nothing. Takes no memory.
    pub fn remove(&mut self, file: u64)
        ensures files { self.new.files ≡ without_file file self.old.files }
        ensures most { self.new.most ≡ self.old.most }
    {
        self.cache.pop_entry(&file);
    }
}
