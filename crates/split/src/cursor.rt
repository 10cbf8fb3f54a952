// The page of the old chain that a search begins at.
ghost use Rattle.std.specs.Prelude.{◌≡◌, ◌≤◌, length, IfSome};
ghost use Rattle.lists.specs.Block.{blocks};
ghost use Rattle.model.specs.Index.{old_bucket};
ghost use Rattle.image.specs.Decode.{block_of, decode};
ghost use Rattle.chain.specs.Walk.{walk};
ghost use Rattle.chain.specs.Within.{PagesOk, Within};
ghost use Rattle.view.specs.Reads.{Reads};
ghost use Rattle.split.specs.Spot.{SpotOn, SpotIn};

use crate::{Position, Spot};
use address::parent_of;
use image::Meta;
use page::slots::count_entries;
use reader::roles::home_of;
use store::flags::NO_LINK;
use store::{block_at, next_at};

// The block of the old bucket's page.
pub fn old_home(store: &[u8], m: Meta) -> u32
    requires { Reads store.now m }
    ensures { result ≡ block_of store.now (old_bucket (decode store.now)) }
{
    home_of(m, parent_of(m.max))
}

// The page of the chain from `first` on to which the place `from` leads: pages all of whose entries stand before it are
// passed over, but for the last, from the page at `spot` on.
fn skip_pages(store: &[u8], first: u32, from: usize, spot: Spot) -> Spot
    requires within { (Within store.now (walk store.now first)) × (PagesOk store.now (walk store.now first))
        × (length (walk store.now first) ≤ blocks store.now) }
    requires spot_on { SpotOn store.now (walk store.now first) spot from }
    ensures { SpotOn store.now (walk store.now first) result from }
{
    let mut block = spot.block;
    let mut left = from - spot.passed;
    let mut index = spot.index;
    loop {
        let page = block_at(store, block as usize);
        let count = count_entries(page);
        if left < count {
            break;
        }
        let next = next_at(page);
        if next == NO_LINK {
            break;
        }
        left -= count;
        block = next;
        index += 1;
    }
    Spot {
        block,
        index,
        passed: from - left,
    }
}

// The page to which the place of a position leads.
pub fn find_spot(store: &[u8], m: Meta, from: Position) -> Spot
    requires reads { Reads store.now m }
    requires spot_in { IfSome from.page (λ g. SpotIn (decode store.now) g from.place) }
    ensures { SpotIn (decode store.now) result from.place }
{
    let first = old_home(store, m);
    let spot = from.page.unwrap_or(Spot {
        block: first,
        index: 0,
        passed: 0,
    });
    skip_pages(store, first, from.place, spot)
}
