// The number of pairs of a hash code.
ghost use Rattle.std.specs.Prelude.{◌≡◌, true, not, ◌*◌, ◌≤◌, length};
ghost use Rattle.lists.specs.Lists.{b2n, tally, bind};
ghost use Rattle.page.specs.Entries.{entries_of};
ghost use Rattle.page.specs.Allowed.{Sorted};
ghost use Rattle.chain.specs.Within.{entries_on, PagesOk, Within};
ghost use Rattle.chain.specs.Pairs.{is_match};

use page::Entry;
use page::run::{count_run, run_entry};
use page::search::find_run;
use store::block_at;

// 1 for an unmoved entry, 0 for a moved one.
fn count_unmoved(e: Entry) -> u32
    ensures { result ≡ b2n (not e.moved) }
{
    if e.moved { 0 } else { 1 }
}

// The number of unmoved entries in a page that have the hash code.
fn count_fresh(page: &[u8], hash: u32) -> u32
    requires { Sorted page.now }
    ensures { result ≡ tally (is_match hash true) (entries_of page.now) }
{
    let run = find_run(page, hash);
    let count = count_run(run);
    let mut n: u32 = 0;
    for i in 0..count {
        n += count_unmoved(run_entry(run, i));
    }
    n
}

// The number of entries in a page that have the hash code, unmoved ones alone where only `fresh` ones count.
fn count_in_page(page: &[u8], hash: u32, fresh: bool) -> u32
    requires { Sorted page.now }
    ensures { result ≡ tally (is_match hash fresh) (entries_of page.now) }
{
    if fresh {
        return count_fresh(page, hash);
    }
    count_run(find_run(page, hash)) as u32
}

// The number of entries along a walk that have the hash code: at most 40 on a page.
pub fn count_in_walk(store: &[u8], walk: &[u32], hash: u32, fresh: bool) -> u32
    requires { (Within store.now walk.now) × (PagesOk store.now walk.now) }
    ensures { (result ≡ tally (is_match hash fresh) (bind walk.now (entries_on store.now)))
        × (result ≤ 40 * length walk.now) }
{
    let mut n: u32 = 0;
    for block in walk {
        let page = block_at(store, *block as usize);
        n += count_in_page(page, hash, fresh);
    }
    n
}
