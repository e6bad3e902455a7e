//! What a lookaside buffer keeps.

ghost use Rattle.std.specs.Prelude.{◌≡◌, ◌⊎◌, ◌≢◌, ℕ, ◌<◌, ◌^◌, ◌/◌, [], true, false, ⊤, Contains, IfSome, MatchOption};
ghost use Rattle.sv8_mmu.specs.Plain.{LeadsPlainly};
ghost use Rattle.sv8_mmu.specs.Kept.{Kept, if_kept, entries_of, places_of, is_marked, AreAmong, NoneReads, NoneReadsPage};

use crate::access_type::AccessType;
use crate::buffer::{Key, Purpose};
use crate::memo::Memo;
use crate::walk::{Trail, Walk};
use lru::LruCache;
use std::alloc::Global;
use std::marker::Model;
use std::num::NonZeroUsize;

/// Walks that are kept: the last of each purpose, and the 64 that were used last.
///
/// The cache of the 64 takes no memory until a walk is kept.
#[derive(Drop)]
pub(crate) struct KeptWalks {
    fetch_memo: Option<Memo>,
    load_memo: Option<Memo>,
    store_memo: Option<Memo>,
    cache: Option<LruCache<Key, Walk>>,
    /// A flag for each number of a page of RAM modulo 256: unset, no walk that is kept has read a word of such a page.
    pages: [bool; 256],
}

impl Model for KeptWalks {
    ghost use Rattle.std.specs.Prelude.{List, ◌++◌};
    ghost use Rattle.sv8_mmu.specs.Kept.{Kept, if_kept, entries_of, AreMarked};

    ghost Value = { List Kept };

    ghost view = { λ w. if_kept w.fetch_memo ++ if_kept w.load_memo ++ if_kept w.store_memo ++ entries_of w.cache };

    ghost invariant = { λ w. AreMarked w.pages (if_kept w.fetch_memo ++ if_kept w.load_memo ++ if_kept w.store_memo ++ entries_of w.cache) };
}

impl Trail {
    /// Whether the entry at an address is among those read.
    fn reads(&self, at: u32) -> bool
        ensures { result ≡ false → (place : ℕ) → Contains (places_of self.now) place → place ≢ at }
    {
        self.places
            .iter()
            .take(self.count)
            .any(|place| *place == at)
    }

    /// Whether a word of a page of RAM is among those read.
    fn reads_page(&self, page: u32) -> bool
        ensures { result ≡ false → (place : ℕ) → Contains (places_of self.now) place → place / 4096 ≢ page }
    {
        self.places
            .iter()
            .take(self.count)
            .any(|place| *place / 4096 == page)
    }
}

/// Sets the flags of the pages of RAM that a walk has read.
fn mark(pages: &mut [bool; 256], trail: &Trail)
    ensures marked { (place : ℕ) → Contains (places_of trail.now) place → is_marked pages.new place ≡ true }
    ensures kept { (place : ℕ) → is_marked pages.old place ≡ true → is_marked pages.new place ≡ true }
{
    for place in trail.places.iter().take(trail.count) {
        pages[(*place / 4096 % 256) as usize] = true;
    }
}

/// The walk of a memo, where it is for a key.
fn recall_last(memo: &Option<Memo>, key: Key) -> Option<&Walk>
    ensures { IfSome result (λ w. Contains (if_kept memo.now) (key, w.now)) }
{
    match memo {
        Some(last) => last.recall(key),
        None => None,
    }
}

/// Where the page of a key begins for accesses of a type, where a memo is for that key and knows it, and the walk.
#[inline(always)]
fn recall_plainly(memo: &Option<Memo>, key: Key, access_type: AccessType) -> Option<(u64, &Walk)>
    ensures walk { IfSome result (λ s. Contains (if_kept memo.now) (key, s.1.now)) }
    ensures base { IfSome result (λ s. LeadsPlainly access_type key.page s.0 s.1.now.end) }
{
    match memo {
        Some(last) => last.recall_plainly(key, access_type),
        None => None,
    }
}

/// Finds out what accesses of a type to the page of a key come to, where a memo is for that key.
fn know_last(memo: &mut Option<Memo>, key: Key, access_type: AccessType)
    requires { key.page < 2 ^ 20 }
    ensures { memo.new ≡ memo.old }
{
    if let Some(last) = memo {
        last.know(key, access_type);
    }
}

/// The walk of a key in the cache, which becomes the one used last.
fn recall(cache: &mut Option<LruCache<Key, Walk>>, key: Key) -> Option<Walk>
    ensures found { IfSome result (λ w. Contains (entries_of cache.old) (key, w)) }
    ensures among { AreAmong (entries_of cache.new) (entries_of cache.old) }
{
    match cache {
        None => None,
        Some(walks) => recall_from(walks, key),
    }
}

/// The walk of a key, which becomes the one used last.
fn recall_from(walks: &mut LruCache<Key, Walk>, key: Key) -> Option<Walk>
    ensures found { IfSome result (λ w. Contains walks.old.entries (key, w)) }
    ensures among { AreAmong walks.new.entries walks.old.entries }
{
    walks.get(&key).copied()
}

/// Stores a walk in the cache, where there is memory for it.
fn store(cache: &mut Option<LruCache<Key, Walk>>, alloc: Global, key: Key, walk: Walk)
    ensures { (k : Kept) → Contains (entries_of cache.new) k → Contains (entries_of cache.old) k ⊎ (k ≡ (key, walk)) }
{
    if let Some(walks) = cache {
        store_into(walks, key, walk);
        return;
    }
    if let Ok(mut walks) = LruCache::sparse(alloc, NonZeroUsize::new(64).unwrap()) {
        store_into(&mut walks, key, walk);
        *cache = Some(walks);
    }
}

/// Stores a walk, where there is memory for it.
fn store_into(walks: &mut LruCache<Key, Walk>, key: Key, walk: Walk)
    ensures { (k : Kept) → Contains walks.new.entries k → Contains walks.old.entries k ⊎ (k ≡ (key, walk)) }
{
    let _ = walks.put(key, walk);
}

/// The key of a walk that has read the entry at an address.
fn reader(walks: &LruCache<Key, Walk>, at: u32) -> Option<Key>
    ensures { MatchOption result (NoneReads at walks.now.entries) (λ _. ⊤) }
{
    for (key, walk) in walks.iter() {
        if walk.trail.reads(at) {
            return Some(*key);
        }
    }
    None
}

/// Drops the walks of the cache that have read the entry at an address.
fn drop_readers(cache: &mut Option<LruCache<Key, Walk>>, at: u32)
    ensures among { AreAmong (entries_of cache.new) (entries_of cache.old) }
    ensures none { NoneReads at (entries_of cache.new) }
{
    if let Some(walks) = cache {
        drop_readers_from(walks, at);
    }
}

/// Drops the walks that have read the entry at an address.
fn drop_readers_from(walks: &mut LruCache<Key, Walk>, at: u32)
    ensures among { AreAmong walks.new.entries walks.old.entries }
    ensures none { NoneReads at walks.new.entries }
{
    for _ in 0..64 {
        match reader(walks, at) {
            None => return,
            Some(key) => {
                let _ = walks.pop(&key);
            }
        }
    }
    walks.clear();
}

/// Whether a walk of the cache has read a word of a page of RAM.
fn has_reader(cache: &Option<LruCache<Key, Walk>>, page: u32) -> bool
    ensures { result ≡ false → NoneReadsPage page (entries_of cache.now) }
{
    match cache {
        None => false,
        Some(walks) => is_read_by(walks, page),
    }
}

/// Whether a walk has read a word of a page of RAM.
fn is_read_by(walks: &LruCache<Key, Walk>, page: u32) -> bool
    ensures { result ≡ false → NoneReadsPage page walks.now.entries }
{
    for (_, walk) in walks.iter() {
        if walk.trail.reads_page(page) {
            return true;
        }
    }
    false
}

/// Whether the walk of a memo has read a word of a page of RAM.
fn is_reader(memo: &Option<Memo>, page: u32) -> bool
    ensures { result ≡ false → NoneReadsPage page (if_kept memo.now) }
{
    match memo {
        None => false,
        Some(last) => last.walk().trail.reads_page(page),
    }
}

impl KeptWalks {
    /// With no walks.
    pub(crate) fn new() -> Self
        ensures { result ≡ [] }
    {
        KeptWalks {
            fetch_memo: None,
            load_memo: None,
            store_memo: None,
            cache: None,
            pages: [false; 256],
        }
    }

    /// Forgets all walks.
    pub(crate) fn clear(&mut self)
        ensures { self.new ≡ [] }
    {
        self.fetch_memo = None;
        self.load_memo = None;
        self.store_memo = None;
        if let Some(walks) = &mut self.cache {
            walks.clear();
        }
        self.pages = [false; 256];
    }

    /// The walk that was used last for a purpose, where it is for a context and a page.
    fn last(&self, purpose: Purpose, key: Key) -> Option<&Walk>
        ensures { IfSome result (λ w. Contains self.now (key, w.now)) }
    {
        match purpose {
            Purpose::Fetch => recall_last(&self.fetch_memo, key),
            Purpose::Load => recall_last(&self.load_memo, key),
            Purpose::Store => recall_last(&self.store_memo, key),
        }
    }

    /// Where a page begins for accesses of a type, where the walk that was used last for a purpose is for that page and
    /// its context and this is known, and that walk.
    #[inline(always)]
    pub(crate) fn last_plainly(
        &self,
        purpose: Purpose,
        key: Key,
        access_type: AccessType,
    ) -> Option<(u64, &Walk)>
        ensures walk { IfSome result (λ s. Contains self.now (key, s.1.now)) }
        ensures base { IfSome result (λ s. LeadsPlainly access_type key.page s.0 s.1.now.end) }
    {
        match purpose {
            Purpose::Fetch => recall_plainly(&self.fetch_memo, key, access_type),
            Purpose::Load => recall_plainly(&self.load_memo, key, access_type),
            Purpose::Store => recall_plainly(&self.store_memo, key, access_type),
        }
    }

    /// Finds out what accesses of a type to a page come to, where the walk that was used last for a purpose is for that
    /// page and its context.
    pub(crate) fn know(&mut self, purpose: Purpose, key: Key, access_type: AccessType)
        requires { key.page < 2 ^ 20 }
        ensures { self.new ≡ self.old }
    {
        match purpose {
            Purpose::Fetch => know_last(&mut self.fetch_memo, key, access_type),
            Purpose::Load => know_last(&mut self.load_memo, key, access_type),
            Purpose::Store => know_last(&mut self.store_memo, key, access_type),
        }
    }

    /// The walk that is kept for a context and a page, if one is found.
    pub(crate) fn find(&mut self, purpose: Purpose, key: Key) -> Option<Walk>
        ensures found { IfSome result (λ w. Contains self.old (key, w)) }
        ensures among { AreAmong self.new self.old }
    {
        match self.last(purpose, key) {
            Some(walk) => Some(*walk),
            None => self.find_in_cache(purpose, key),
        }
    }

    /// The walk that the cache has for a context and a page.
    #[inline(never)]
    fn find_in_cache(&mut self, purpose: Purpose, key: Key) -> Option<Walk>
        ensures found { IfSome result (λ w. Contains self.old (key, w)) }
        ensures among { AreAmong self.new self.old }
    {
        let walk = recall(&mut self.cache, key)?;
        match purpose {
            Purpose::Fetch => self.fetch_memo = Some(Memo::new(key, walk)),
            Purpose::Load => self.load_memo = Some(Memo::new(key, walk)),
            Purpose::Store => self.store_memo = Some(Memo::new(key, walk)),
        }
        Some(walk)
    }

    /// Keeps a walk in the cache, where there is memory for it.
    pub(crate) fn keep(&mut self, alloc: Global, key: Key, walk: Walk)
        ensures { (k : Kept) → Contains self.new k → Contains self.old k ⊎ (k ≡ (key, walk)) }
    {
        mark(&mut self.pages, &walk.trail);
        store(&mut self.cache, alloc, key, walk);
    }

    /// Forgets the walks that have read the entry at an address.
    pub(crate) fn forget_entry(&mut self, at: u32)
        ensures among { AreAmong self.new self.old }
        ensures none { NoneReads at self.new }
    {
        self.fetch_memo = None;
        self.load_memo = None;
        self.store_memo = None;
        drop_readers(&mut self.cache, at);
    }

    /// Whether a walk has read a word of a page of RAM.
    fn has_read(&self, page: u32) -> bool
        ensures { result ≡ false → NoneReadsPage page self.now }
    {
        is_reader(&self.fetch_memo, page)
            || is_reader(&self.load_memo, page)
            || is_reader(&self.store_memo, page)
            || has_reader(&self.cache, page)
    }

    /// Forgets all walks where one of them has read a word of a page of RAM.
    #[cold]
    fn forget_readers(&mut self, page: u32)
        ensures among { AreAmong self.new self.old }
        ensures none { NoneReadsPage page self.new }
    {
        if self.has_read(page) {
            self.clear();
        }
    }

    /// Forgets the walks that have read a word of a page of RAM, which was written.
    #[inline]
    pub(crate) fn forget_page(&mut self, page: u32)
        ensures among { AreAmong self.new self.old }
        ensures none { NoneReadsPage page self.new }
    {
        if self.pages[(page % 256) as usize] {
            self.forget_readers(page);
        }
    }
}
