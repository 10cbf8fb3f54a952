// Rule 5: the pages of each chain, and no pair twice in a chain.
ghost use Rattle.std.specs.Prelude.{◌≡◌, ◌≤◌, length};
ghost use Rattle.lists.specs.Lists.{all, bind};
ghost use Rattle.lists.specs.Block.{block};
ghost use Rattle.page.specs.Rule.{page_ok};
ghost use Rattle.image.specs.Rules.{distinct, rule5};
ghost use Rattle.chain.specs.Within.{entries_on, PagesOk, Within};
ghost use Rattle.merge.specs.Merge.{joined};
ghost use Rattle.merge.specs.Heads.{page_at, Pages};
ghost use Rattle.shape.specs.Known.{Known4};

use crate::next::{is_next, start_all};
use chain::links::zero_walk;
use image::Meta;
use merge::Merge;
use page::rule::check_page;
use reader::buckets::walk_bucket;
use store::block_at;

// Whether each block of the walk is a page.
fn check_blocks(store: &[u8], walk: &[u32]) -> bool
    requires { Within store.now walk.now }
    ensures { result ≡ all (λ k. page_ok (block store.now k)) walk.now }
{
    for block in walk {
        if !check_page(block_at(store, *block as usize)) {
            return false;
        }
    }
    true
}

// Whether no pair stands twice in the pages. Entries of one pair come one after the other.
fn all_distinct(merge: &mut Merge, store: &[u8], pages: &[u32]) -> bool
    requires { (Pages store.now pages.now (length pages.now)) × (1 ≤ length pages.now) }
    ensures { result ≡ distinct (joined (page_at store.now pages.now) 0 (length pages.now)) }
{
    start_all(merge, store, pages);
    while let Some(first) = merge.first() {
        merge.take_first(store, pages);
        if is_next(merge, first) {
            return false;
        }
    }
    true
}

// Whether no pair stands twice in the pages of the walk.
fn check_distinct(merge: &mut Merge, store: &[u8], walk: &[u32]) -> bool
    requires { (Within store.now walk.now) × (PagesOk store.now walk.now) }
    ensures { result ≡ distinct (bind walk.now (entries_on store.now)) }
{
    if walk.len() <= 1 {
        return true;
    }
    all_distinct(merge, store, walk)
}

// Rule 5. The walk and the merge are made once and lent to the test of every chain.
// Not inlined: beside those of rule 7 its arrays would stand on the stack twice.
#[inline(never)]
pub fn check_pages(store: &[u8], m: Meta) -> bool
    requires { Known4 store.now m }
    ensures { result ≡ rule5 store.now }
{
    let mut blocks = zero_walk();
    let mut merge = Merge::new();
    for b in 0..=m.max {
        let count = walk_bucket(store, &mut blocks, m, b);
        let walk = &blocks[..count];
        if !check_blocks(store, walk) {
            return false;
        }
        if !check_distinct(&mut merge, store, walk) {
            return false;
        }
    }
    true
}
