// The first entry of the old bucket's chain that a step copies or clears.
ghost use Rattle.std.specs.Prelude.{◌≡◌, true, false, Bool, not, ◌&&◌, suc, ◌+◌, ◌*◌, ◌≤◌, ◌<◌, length, take, is_some, IfSome};
ghost use Rattle.lists.specs.Lists.{bind};
ghost use Rattle.lists.specs.Block.{blocks};
ghost use Rattle.address.specs.Limits.{max_blocks};
ghost use Rattle.page.specs.declared.Entry.{Entry};
ghost use Rattle.page.specs.Entries.{entries_of};
ghost use Rattle.page.specs.Allowed.{Sorted};
ghost use Rattle.model.specs.Index.{Index, entries_at, new_bucket, old_bucket};
ghost use Rattle.model.specs.Steps.{moves};
ghost use Rattle.image.specs.Decode.{decode};
ghost use Rattle.chain.specs.Walk.{walk};
ghost use Rattle.chain.specs.Search.{find_in};
ghost use Rattle.chain.specs.Within.{entries_on, PagesOk, Within};
ghost use Rattle.view.specs.Reads.{Reads};
ghost use Rattle.view.specs.Places.{find_at};
ghost use Rattle.split.specs.Mover.{movable, Copies};
ghost use Rattle.split.specs.Seek.{Before, AnswersFrom, Fresh, Seeks, Located, Searches, found_on};
ghost use Rattle.split.specs.Spot.{SpotOn, SpotIn};

use crate::cursor::old_home;
use crate::{Mover, Position, Spot};
use address::bucket_of;
use address::limits::MAX_BLOCKS;
use chain::links::zero_walk;
use chain::search::find_pair;
use image::Meta;
use page::Entry;
use page::slots::{count_entries, get_entry};
use reader::buckets::walk_bucket;
use store::flags::NO_LINK;
use store::{block_at, next_at};

// Puts the blocks of the new chain, in which a step looks for copies, into `copies`, and gives their number. Where the
// entries are fresh it looks in none.
fn walk_copies(store: &[u8], copies: &mut [u32; MAX_BLOCKS + 1], m: Meta, fresh: bool) -> usize
    requires { (Reads store.now m) × (length copies.old ≡ suc max_blocks) }
    ensures { Copies fresh (decode store.now) copies.new result }
{
    if fresh {
        return 0;
    }
    walk_bucket(store, copies, m, m.max)
}

// Whether the entry goes to the new bucket.
fn is_moving(m: Meta, e: Entry) -> bool
    ensures { (x : Index) → m.max ≡ new_bucket x → result ≡ moves x e }
{
    bucket_of(e.pair.hash, m.max) == m.max
}

// Whether it does, and stands on none of the pages of the blocks `copies`.
fn is_uncopied(store: &[u8], copies: &[u32], m: Meta, e: Entry) -> bool
    requires { (Reads store.now m) × (Within store.now copies.now) × (PagesOk store.now copies.now) }
    ensures { result ≡ (moves (decode store.now) e && not (is_some (find_in store.now copies.now e.pair))) }
{
    if !is_moving(m, e) {
        return false;
    }
    find_pair(store, copies, e.pair).is_none()
}

// The first entry from slot `from` on of the page in a block that passes the test.
fn first_in_page<F: Fn(Entry) -> bool>(
    page: &[u8],
    block: u32,
    from: usize,
    test: &F,
) -> Option<Mover>
    requires sorted { Sorted page.now }
    requires callable { F.IsAlwaysCallable test.now }
    ensures seeks { (t : Entry → Bool) → Before t (entries_of page.now) from
        → AnswersFrom (F.post test.now) t (entries_of page.now) from → Seeks t (entries_of page.now) result }
    ensures located { Located (found_on block (entries_of page.now)) result }
    ensures inside { IfSome result (λ v. v.place < length (entries_of page.now)) }
{
    for i in from..count_entries(page) {
        let entry = get_entry(page, i);
        if test(entry) {
            return Some(Mover {
                entry,
                place: i,
                block,
                slot: i as u32,
            });
        }
    }
    None
}

// The first entry of the chain from `first` on, from the place `from` on, that passes the test. The next fields are
// followed from the page at `spot` as far as its page.
fn first_in_chain<F: Fn(Entry) -> bool>(
    store: &[u8],
    first: u32,
    from: usize,
    spot: Spot,
    test: &F,
) -> Option<Mover>
    requires within { (Within store.now (walk store.now first)) × (PagesOk store.now (walk store.now first))
        × (length (walk store.now first) ≤ blocks store.now) }
    requires spot_on { SpotOn store.now (walk store.now first) spot from }
    requires callable { F.IsAlwaysCallable test.now }
    ensures searches { Searches (F.post test.now) (decode store.now)
        (bind (walk store.now first) (entries_on store.now)) (find_in store.now (walk store.now first)) from result }
    ensures result_bound { IfSome result (λ v. v.place < 40 * suc max_blocks) }
{
    let mut block = spot.block;
    let mut passed = spot.passed;
    let mut i = spot.index;
    loop {
        let page = block_at(store, block as usize);
        let start = from.saturating_sub(passed);
        if let Some(found) = first_in_page(page, block, start, test) {
            return Some(Mover {
                place: passed + found.place,
                ..found
            });
        }
        let next = next_at(page);
        if next == NO_LINK {
            return None;
        }
        passed += count_entries(page);
        block = next;
        i += 1;
    }
}

// The same in the old chain.
fn first_in_old<F: Fn(Entry) -> bool>(
    store: &[u8],
    m: Meta,
    from: usize,
    spot: Spot,
    test: &F,
) -> Option<Mover>
    requires reads { Reads store.now m }
    requires spot_in { SpotIn (decode store.now) spot from }
    requires callable { F.IsAlwaysCallable test.now }
    ensures searches { Searches (F.post test.now) (decode store.now)
        (entries_at (decode store.now) (old_bucket (decode store.now)))
        (find_at (decode store.now) (old_bucket (decode store.now))) from result }
    ensures result_bound { IfSome result (λ v. v.place < 40 * suc max_blocks) }
{
    first_in_chain(store, old_home(store, m), from, spot, test)
}

// The first entry of the old chain that is left to copy. None is among those before the position, and where it is
// fresh, none of the others has a copy. The search begins at the page at `spot`.
pub fn first_to_copy(store: &[u8], m: Meta, from: Position, spot: Spot) -> Option<Mover>
    requires reads { Reads store.now m }
    requires before { (Before (movable true (decode store.now))
        (entries_at (decode store.now) (old_bucket (decode store.now))) from.place)
        × (Fresh from.fresh (decode store.now) (entries_at (decode store.now) (old_bucket (decode store.now)))
        from.place) × (SpotIn (decode store.now) spot from.place) }
    ensures seeks { Seeks (movable true (decode store.now))
        (entries_at (decode store.now) (old_bucket (decode store.now))) result }
    ensures located { Located (find_at (decode store.now) (old_bucket (decode store.now))) result }
    ensures result_bound { IfSome result (λ v. v.place < 40 * suc max_blocks) }
{
    let mut blocks = zero_walk();
    let walked = walk_copies(store, &mut blocks, m, from.fresh);
    let copies = &blocks[..walked];
    first_in_old(
        store,
        m,
        from.place,
        spot,
        &|e: Entry| { is_uncopied(store, copies, m, e) },
    )
}

// The first entry of the old chain that is left to clear; none is among the first `from`. The search begins at the page
// at `spot`.
pub fn first_to_clear(store: &[u8], m: Meta, from: usize, spot: Spot) -> Option<Mover>
    requires reads { Reads store.now m }
    requires before { (Before (movable false (decode store.now))
        (entries_at (decode store.now) (old_bucket (decode store.now))) from) × (SpotIn (decode store.now) spot from) }
    ensures seeks { Seeks (movable false (decode store.now))
        (entries_at (decode store.now) (old_bucket (decode store.now))) result }
    ensures located { Located (find_at (decode store.now) (old_bucket (decode store.now))) result }
    ensures result_bound { IfSome result (λ v. v.place < 40 * suc max_blocks) }
{
    first_in_old(store, m, from, spot, &|e: Entry| is_moving(m, e))
}
