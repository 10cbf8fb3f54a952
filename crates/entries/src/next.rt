// A merge of all entries of pages: its start, and its next entry held against what came first elsewhere, pair by pair.
ghost use Rattle.std.specs.Prelude.{◌≡◌, ◌/◌, ◌<◌, length, get_or};
ghost use Rattle.merge.specs.Tree.{max_pages};
ghost use Rattle.merge.specs.Merge.{joined};
ghost use Rattle.merge.specs.Heads.{page_at, Pages, left_of, Underway};
ghost use Rattle.entries.specs.Next.{next_is, next_before};

use merge::{First, Merge};
use page::Pair;

// Begins a merge of all entries of the pages.
pub fn start_all(merge: &mut Merge, store: &[u8], pages: &[u32])
    requires { Pages store.now pages.now (length pages.now) }
    ensures underway { Underway store.now pages.now merge.new }
    ensures whole { joined (left_of store.now pages.now merge.new.tails) 0 (length pages.now)
        ≡ joined (page_at store.now pages.now) 0 (length pages.now) }
{
    let from = Pair {
        hash: 0,
        block: 0,
        offset: 0,
    };
    merge.start(store, pages, from);
}

// Whether the next entry has the pair of `first`.
pub fn is_next(merge: &Merge, first: First) -> bool
    requires { get_or merge.now.tree 1 0 < max_pages }
    ensures { result ≡ next_is merge.now.keys merge.now.tails merge.now.tree first.key (first.tail / 64) }
{
    let j = merge.tree[1] as usize;
    merge.keys[j] == first.key && merge.tails[j] / 64 == first.tail / 64
}

// Whether the next entry stands before the pair of `first`.
pub fn is_next_before(merge: &Merge, first: First) -> bool
    requires { get_or merge.now.tree 1 0 < max_pages }
    ensures { result ≡ next_before merge.now.keys merge.now.tails merge.now.tree first.key (first.tail / 64) }
{
    let j = merge.tree[1] as usize;
    let next = merge.keys[j];
    if next == first.key {
        return merge.tails[j] / 64 < first.tail / 64;
    }
    next < first.key
}
