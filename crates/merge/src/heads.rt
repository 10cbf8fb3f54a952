// The heads of the pages: what stands first in what is left of each, as two numbers.
ghost use Rattle.std.specs.Prelude.{◌≡◌, ◌≢◌, ◌+◌, ◌*◌, ◌/◌, ◌%◌, ◌≤◌, ◌<◌, MatchOption, length, get_or, set, drop, replicate};
ghost use Rattle.lists.specs.Block.{blocks, block};
ghost use Rattle.page.specs.Entries.{entries_of};
ghost use Rattle.page.specs.Allowed.{Sorted};
ghost use Rattle.merge.specs.Tree.{max_pages};
ghost use Rattle.merge.specs.Heads.{no_key, pair_from, key_of, tail_of, first_at, first_of};
ghost use Rattle.merge.specs.Heads.{page_at, Pages, Heads, CursorsAt, Underway, Advanced};

use crate::{First, MAX_PAGES, Merge};
use page::Pair;
use page::search::find_place;
use page::slots::{count_entries, get_entry};
use store::block_at;

// The key where nothing is left: no entry has it.
pub const NO_KEY: u64 = 18446744073709551615;

// Page `i`.
fn page_at<'a>(store: &'a [u8], pages: &[u32], i: usize) -> &'a [u8]
    requires { (Pages store.now pages.now (length pages.now)) × (i < length pages.now) }
    ensures { (result.now ≡ block store.now (get_or pages.now i 0)) × (Sorted result.now) }
{
    block_at(store, pages[i] as usize)
}

// The key of the entry in a slot of a page, `NO_KEY` past the last entry.
fn key_at(page: &[u8], slot: usize) -> u64
    requires { Sorted page.now }
    ensures { result ≡ key_of (drop slot (entries_of page.now)) }
{
    if count_entries(page) <= slot {
        return NO_KEY;
    }
    let pair = get_entry(page, slot).pair;
    pair.hash as u64 * 4294967296 + pair.block as u64
}

// The tail of the entry in a slot of a page, the slot alone past the last entry.
fn tail_at(page: &[u8], slot: usize) -> u32
    requires { (Sorted page.now) × (slot ≤ 40) }
    ensures { result ≡ tail_of slot (drop slot (entries_of page.now)) }
{
    if count_entries(page) <= slot {
        return slot as u32;
    }
    get_entry(page, slot).pair.offset as u32 * 64 + slot as u32
}

impl Merge {
    pub fn new() -> Merge
        ensures keys { result.keys ≡ replicate max_pages 0 }
        ensures tails { result.tails ≡ replicate max_pages 0 }
        ensures tree { result.tree ≡ replicate (2 * max_pages) 0 }
    {
        Merge {
            keys: [0; MAX_PAGES],
            tails: [0; MAX_PAGES],
            tree: [0; 2 * MAX_PAGES],
        }
    }

    // Puts the head of page `i`, with the cursor at a slot.
    fn put_head(&mut self, store: &[u8], pages: &[u32], i: usize, slot: usize)
        requires { (Pages store.now pages.now (length pages.now)) × (i < length pages.now) × (slot ≤ 40) }
        ensures keys_after { self.new.keys ≡ set self.old.keys i
            (key_of (drop slot (page_at store.now pages.now i))) }
        ensures tails_after { self.new.tails ≡ set self.old.tails i
            (tail_of slot (drop slot (page_at store.now pages.now i))) }
        ensures same_tree { self.new.tree ≡ self.old.tree }
    {
        let page = page_at(store, pages, i);
        self.keys[i] = key_at(page, slot);
        self.tails[i] = tail_at(page, slot);
    }

    // Puts the heads of the pages, from the sorted place of the pair on.
    fn put_heads(&mut self, store: &[u8], pages: &[u32], from: Pair)
        requires { Pages store.now pages.now (length pages.now) }
        ensures heads { Heads store.now pages.now (length pages.now) self.new.keys self.new.tails }
        ensures cursors { CursorsAt store.now pages.now from (length pages.now) self.new.tails }
    {
        for i in 0..pages.len() {
            let slot = find_place(page_at(store, pages, i), from);
            self.put_head(store, pages, i, slot);
        }
    }

    // Begins a merge of the pages' entries from the sorted place of a pair on.
    pub fn start(&mut self, store: &[u8], pages: &[u32], from: Pair)
        requires { Pages store.now pages.now (length pages.now) }
        ensures underway { Underway store.now pages.now self.new }
        ensures cursors { CursorsAt store.now pages.now from (length pages.now) self.new.tails }
    {
        self.put_heads(store, pages, from);
        self.build_tree(pages.len());
    }

    // Puts the head of page `j` anew, one slot on.
    fn advance(&mut self, store: &[u8], pages: &[u32], j: usize)
        requires { (Pages store.now pages.now (length pages.now)) × (j < length pages.now)
            × (get_or self.old.tails j 0 % 64 + 1 ≤ 40) }
        ensures keys_after { self.new.keys ≡ set self.old.keys j (key_of (drop (get_or self.old.tails j 0 % 64 + 1)
            (page_at store.now pages.now j))) }
        ensures tails_after { self.new.tails ≡ set self.old.tails j (tail_of (get_or self.old.tails j 0 % 64 + 1)
            (drop (get_or self.old.tails j 0 % 64 + 1) (page_at store.now pages.now j))) }
        ensures same_tree { self.new.tree ≡ self.old.tree }
    {
        let slot = (self.tails[j] % 64) as usize + 1;
        self.put_head(store, pages, j, slot);
    }

    // What comes first, where anything is left.
    pub fn first(&self) -> Option<First>
        requires { get_or self.now.tree 1 0 < max_pages }
        ensures { MatchOption result (get_or self.now.keys (get_or self.now.tree 1 0) 0 ≡ no_key)
            (λ first. (first.key ≢ no_key) × (first ≡ first_of self.now)) }
    {
        let page = self.tree[1] as usize;
        let key = self.keys[page];
        if key == NO_KEY {
            return None;
        }
        let tail = self.tails[page];
        Some(First { page, key, tail })
    }

    // Takes the entry that comes first. Where the next one of its page comes first again, the tree stays as it is.
    pub fn take_first(&mut self, store: &[u8], pages: &[u32])
        requires underway { (Underway store.now pages.now self.old) × (1 ≤ length pages.now) }
        requires some_left { get_or self.old.keys (get_or self.old.tree 1 0) 0 < no_key }
        ensures { Advanced store.now pages.now self.old self.new }
    {
        let n = pages.len();
        let j = self.tree[1] as usize;
        self.advance(store, pages, j);
        if self.stays_first(n, j) {
            return;
        }
        self.replay(n, j);
        self.put_second(n, j);
    }
}

impl First {
    // Its pair.
    pub fn pair(self) -> Pair
        requires { self.tail / 64 < 65536 }
        ensures { result ≡ pair_from self.key (self.tail / 64) }
    {
        Pair {
            hash: (self.key / 4294967296) as u32,
            block: (self.key % 4294967296) as u32,
            offset: (self.tail / 64) as u16,
        }
    }

    // Whether its entry is marked moved, where its page is block `block`.
    pub fn is_moved(self, store: &[u8], block: u32) -> bool
        requires { (block < blocks store.now) × (self.tail % 64 < 40) }
        ensures { result ≡ (first_at store.now block self.tail).moved }
    {
        get_entry(block_at(store, block as usize), (self.tail % 64) as usize).moved
    }
}
