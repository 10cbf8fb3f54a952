// A pair along a walk; the first page with room, as the next fields lead.
ghost use Rattle.std.specs.Prelude.{◌≡◌};
ghost use Rattle.page.specs.Entries.{entries_of};
ghost use Rattle.page.specs.Allowed.{Sorted};
ghost use Rattle.chain.specs.Walk.{walk, Bounded};
ghost use Rattle.chain.specs.Search.{slot_in, find_in, room_in};
ghost use Rattle.chain.specs.Within.{PagesOk, Within};

use crate::{Found, Room};
use page::Pair;
use page::order::is_same;
use page::run::{count_run, place_in_run, run_entry};
use page::search::{entries_before, find_run};
use page::slots::count_entries;
use store::flags::NO_LINK;
use store::{block_at, next_at};

// The slot of the pair in a page whose entries ascend: it is looked for in the run of its hash code.
fn find_slot(page: &[u8], pair: Pair) -> Option<u32>
    requires { Sorted page.now }
    ensures { result ≡ slot_in (entries_of page.now) pair }
{
    let run = find_run(page, pair.hash);
    let k = place_in_run(run, pair);
    if k < count_run(run) && is_same(pair, run_entry(run, k).pair) {
        return Some((entries_before(page, pair.hash) + k) as u32);
    }
    None
}

// The first page of the walk that has the pair, and the pair's slot in it.
pub fn find_pair(store: &[u8], walk: &[u32], pair: Pair) -> Option<Found>
    requires { (Within store.now walk.now) × (PagesOk store.now walk.now) }
    ensures { result ≡ find_in store.now walk.now pair }
{
    for block in walk {
        let page = block_at(store, *block as usize);
        if let Some(slot) = find_slot(page, pair) {
            return Some(Found {
                block: *block,
                slot,
            });
        }
    }
    None
}

// The first page with fewer than 40 entries in the chain from `first` on, else the chain's last block.
pub fn first_room(store: &[u8], first: u32) -> Room
    requires { Bounded store.now first }
    ensures { result ≡ room_in store.now (walk store.now first) }
{
    let mut block = first;
    loop {
        let page = block_at(store, block as usize);
        if count_entries(page) < 40 {
            return Room::Page { block };
        }
        let next = next_at(page);
        if next == NO_LINK {
            return Room::Full { last: block };
        }
        block = next;
    }
}
