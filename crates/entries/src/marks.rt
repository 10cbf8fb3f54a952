// Rule 7, the marks of copies: in one pass over the new chain's pages and the old chain's, each merged.
ghost use Rattle.std.specs.Prelude.{◌≡◌, ◌/◌, ◌≤◌, ◌<◌, length};
ghost use Rattle.lists.specs.Lists.{all};
ghost use Rattle.merge.specs.Merge.{joined};
ghost use Rattle.merge.specs.Heads.{no_key, pair_from, page_at, Pages, Underway};
ghost use Rattle.entries.specs.Tests.{marked_by};
ghost use Rattle.entries.specs.Next.{Passed};

use crate::next::{is_next, is_next_before, start_all};
use merge::{First, Merge};

// Takes all entries that stand before the pair of `first`.
fn pass_before(merge: &mut Merge, store: &[u8], pages: &[u32], first: First)
    requires underway { (Underway store.now pages.now merge.old) × (1 ≤ length pages.now) }
    requires first_fits { (first.key < no_key) × (first.tail / 64 < 65536) }
    ensures { Passed store.now pages.now (length pages.now) (pair_from first.key (first.tail / 64)) merge.old.tails
        merge.new.keys merge.new.tails merge.new.tree }
{
    while is_next_before(merge, first) {
        merge.take_first(store, pages);
    }
}

// Whether each entry of the pages `new` is marked moved exactly if the pages `old` have its pair.
pub fn all_marked(store: &[u8], new: &[u32], old: &[u32]) -> bool
    requires new_pages { (Pages store.now new.now (length new.now)) × (1 ≤ length new.now) }
    requires old_pages { (Pages store.now old.now (length old.now)) × (1 ≤ length old.now) }
    ensures { result ≡ all (marked_by (joined (page_at store.now old.now) 0 (length old.now)))
        (joined (page_at store.now new.now) 0 (length new.now)) }
{
    let mut copies = Merge::new();
    start_all(&mut copies, store, new);
    let mut originals = Merge::new();
    start_all(&mut originals, store, old);
    while let Some(copy) = copies.first() {
        let moved = copy.is_moved(store, new[copy.page]);
        pass_before(&mut originals, store, old, copy);
        copies.take_first(store, new);
        if moved != is_next(&originals, copy) {
            return false;
        }
    }
    true
}
