// Pages of slots, cached in memory.
ghost use Rattle.std.specs.Prelude.{nat_eq};
ghost use Rattle.lru.specs.LruCache.{IsValid};

use lru::LruCache;
use ss_base::SLOT_SIZE;
use ss_journal::{PAGE_SLOTS, Page, Put};
use std::alloc::{AllocError, Global};
use std::marker::Model;
use std::num::NonZeroUsize;

// How many pages are cached at most.
pub const MOST_CACHED: usize = 64;

// A page in a place of its own, so that the cache moves the place and not 4,096 bytes.
#[derive(Drop)]
struct Placed {
    page: Box<Page>,
}

impl Model for Placed {
    ghost use Rattle.std.specs.Prelude.{ℕ, List};

    ghost Value = { List ℕ };

    ghost view = { λ s. s.page.value };
}

impl Placed {
    ghost use Rattle.std.specs.Prelude.{◌≡◌, ◌≢◌, ℕ, ◌<◌, IfOk};
    ghost use Rattle.ss_journal.specs.Calls.{slot_in_page};

    // Puts a page into a place. It takes memory.
    fn of(alloc: Global, page: Page) -> Result<Placed, AllocError>
        ensures { IfOk result (λ placed. placed ≡ page) }
    {
        let page = Box::new(alloc, page)?;
        Ok(Placed { page })
    }

    // The bytes of slot number `k`.
    fn slot(&mut self, k: u32) -> [u8; SLOT_SIZE]
        requires slot { k < PAGE_SLOTS }
        ensures value { result ≡ slot_in_page self.old k }
        ensures same { self.new ≡ self.old }
    {
        self.page.slot(k)
    }

    // Writes slot number `k`.
    fn put(&mut self, k: u32, bytes: &[u8; SLOT_SIZE])
        requires slot { k < PAGE_SLOTS }
        ensures written { slot_in_page self.new k ≡ bytes.now }
        ensures others { (other : ℕ) → other < PAGE_SLOTS → other ≢ k → slot_in_page self.new other ≡ slot_in_page self.old other }
    {
        self.page.put(k, bytes)
    }
}

// Pages, each by its number, the most recently used first.
#[derive(Drop)]
pub struct Pages {
    cache: LruCache<u32, Placed>,
    alloc: Global,
}

impl Model for Pages {
    ghost use Rattle.std.specs.Prelude.{◌≡◌, ℕ, List};
    ghost use Rattle.ss_records.specs.declared.pages.TheConstants.{MOST_CACHED};

    ghost Value = { List (ℕ × List ℕ) };

    ghost view = { λ s. s.cache.entries };

    ghost invariant = { λ s. s.cache.cap ≡ MOST_CACHED };
}

impl Pages {
    ghost use Rattle.std.specs.Prelude.{◌≡◌, ◌⊎◌, ℕ, ◌≤◌, ◌/◌, List, [], length, nat_eq, IfOk};
    ghost use Rattle.std.specs.Map.{keys_of};
    ghost use Rattle.ss_journal.specs.Puts.{with_put, with_puts};
    ghost use Rattle.ss_records.specs.Pages.{cached_slot, ArePages};
    ghost use Rattle.lru.specs.LruCache.{lru_cache, promoted, put_entries};

    // No page yet, with room in the index for all. It takes memory.
    pub fn new(alloc: Global) -> Result<Pages, AllocError>
        ensures { IfOk result (λ pages. pages ≡ []) }
    {
        let cap = NonZeroUsize::new(MOST_CACHED).unwrap();
        Ok(Pages {
            cache: LruCache::new(alloc, cap)?,
            alloc,
        })
    }

    // The bytes of a slot, where its page is cached. That page is the most recently used then.
    pub fn find(&mut self, slot: u32) -> Option<[u8; SLOT_SIZE]>
        ensures value { result ≡ cached_slot self.old slot }
        ensures promotes { self.new ≡ promoted (nat_eq (slot / PAGE_SLOTS)) self.old }
        ensures few { length self.new ≤ MOST_CACHED }
    {
        let found = match self.cache.get_mut(&(slot / PAGE_SLOTS)) {
            Some(page) => Some(page.slot(slot % PAGE_SLOTS)),
            None => None,
        };
        is_valid(&self.cache);
        found
    }

    // Puts a page first. Where all places are taken the least recently used page goes, and where no memory is found
    // nothing changes.
    pub fn keep(&mut self, number: u32, page: Page)
        ensures pages { (self.new ≡ self.old) ⊎ (self.new ≡ put_entries nat_eq (lru_cache self.old MOST_CACHED) number page) }
        ensures few { length self.new ≤ MOST_CACHED }
    {
        if let Ok(placed) = Placed::of(self.alloc, page) {
            let _ = self.cache.put(number, placed);
        }
        is_valid(&self.cache);
    }

    // Changes the slot in its page, if that is cached. Which pages are cached stays, and so does their order.
    fn put(&mut self, put: &Put)
        ensures pages { (map : ℕ → List ℕ) → ArePages self.old map → ArePages self.new (with_put put.now map) }
        ensures numbers { keys_of self.new ≡ keys_of self.old }
    {
        is_valid(&self.cache);
        if let Some(page) = self.cache.peek_mut(&(put.slot / PAGE_SLOTS)) {
            page.put(put.slot % PAGE_SLOTS, &put.bytes);
        }
    }

    // Changes the slots of these puts, in their order.
    pub fn put_all(&mut self, puts: &[Put])
        ensures pages { (map : ℕ → List ℕ) → ArePages self.old map → ArePages self.new (with_puts puts.now map) }
        ensures numbers { keys_of self.new ≡ keys_of self.old }
    {
        for put in puts {
            self.put(put);
        }
    }

    // Forgets them all.
    pub fn clear(&mut self)
        ensures { self.new ≡ [] }
    {
        self.cache.clear();
    }
}

// What holds of every cache. It does nothing.
fn is_valid(cache: &LruCache<u32, Placed>)
    ensures { IsValid nat_eq cache.now }
{
    let _ = cache.len();
}
