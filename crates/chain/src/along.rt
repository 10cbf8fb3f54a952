// The pairs of a hash code along two walks: that of its own bucket's chain, of which only the unmoved entries count where
// `fresh`, and that of the old chain, of no block where there is no such chain.
ghost use Rattle.std.specs.Prelude.{◌≡◌, length};
ghost use Rattle.chain.specs.Within.{PagesOk, Within};
ghost use Rattle.chain.specs.Along.{pairs_along, find_along};

use crate::Found;
use crate::counting::count_in_walk;
use crate::search::find_pair;
use page::Pair;

// The number of pairs.
pub fn count_along(store: &[u8], own: &[u32], old: &[u32], hash: u32, fresh: bool) -> u32
    requires within { (Within store.now own.now) × (PagesOk store.now own.now) }
    requires within_2 { (Within store.now old.now) × (PagesOk store.now old.now) }
    ensures { result ≡ length (pairs_along store.now own.now old.now hash fresh) }
{
    count_in_walk(store, own, hash, fresh) + count_in_walk(store, old, hash, false)
}

// The block and slot of the pair's held entry. What stands in the own chain and not in the old one is unmoved.
pub fn find_along(store: &[u8], own: &[u32], old: &[u32], pair: Pair) -> Option<Found>
    requires within { (Within store.now own.now) × (PagesOk store.now own.now) }
    requires within_2 { (Within store.now old.now) × (PagesOk store.now old.now) }
    ensures { result ≡ find_along store.now own.now old.now pair }
{
    match find_pair(store, old, pair) {
        Some(found) => Some(found),
        None => find_pair(store, own, pair),
    }
}
