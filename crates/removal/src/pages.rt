// An entry out of its page; an overflow page left empty is freed.
ghost use Rattle.std.specs.Prelude.{◌≡◌, List, ℕ, ◌+◌, ◌<◌};
ghost use Rattle.endian.specs.Endian.{u16_at};
ghost use Rattle.lists.specs.Block.{blocks, block};
ghost use Rattle.address.specs.Role.{role_of};
ghost use Rattle.page.specs.declared.Pair.{Pair};
ghost use Rattle.model.specs.Index.{Index};
ghost use Rattle.model.specs.Pages.{cut};
ghost use Rattle.view.specs.Reads.{Reads};
ghost use Rattle.removal.specs.Freeing.{emptied, freed_at, Linkable, Linked, Freeable, Freeing};
ghost use Rattle.removal.specs.Cutting.{Cuttable, Findable, Sketches};

use address::{BlockRole, role_of};
use draft::Draft;
use draft::edit::{put_next, put_prev};
use draft::pages::{clear_block, remove_at};
use image::Meta;
use page::Pair;
use page::slots::count_entries;
use store::flags::NO_LINK;
use store::{block_at, next_at, prev_at};
use view::chains::find_in;

// Which bit is freed where an entry is taken out of block `k`: that of an overflow page of one entry.
fn freed_by(store: &[u8], m: Meta, k: u32) -> Option<u32>
    requires { (Reads store.now m) × (k < blocks store.now) }
    ensures { result ≡ emptied (role_of m.spares m.point k) (u16_at (block store.now k) 0) }
{
    let spares = m.spares;
    let role = role_of(spares, m.point, k);
    let BlockRole::Bit(bit) = role else {
        return None;
    };
    if count_entries(block_at(store, k as usize)) == 1 {
        Some(bit)
    } else {
        None
    }
}

// Writes the previous field of block `next`, if that is one.
fn link_back(draft: &mut Draft, store: &[u8], next: u32, prev: u32)
    requires { (d : List ℕ) × (n : ℕ) × Linkable store.now draft.old.change draft.old.images next d n }
    ensures { (d : List ℕ) (n : ℕ) → Linkable store.now draft.old.change draft.old.images next d n
        → Linked store.now draft.new.change draft.new.images next prev d n }
{
    if next == NO_LINK {
        return;
    }
    put_prev(draft, store, next, prev);
}

// Unlinks the overflow page in block `k` and makes the block unused.
fn free_page(draft: &mut Draft, store: &[u8], k: u32)
    requires { (d : List ℕ) × (n : ℕ) × Freeable store.now draft.old.change draft.old.images k d n }
    ensures { (d : List ℕ) (n : ℕ) → Freeable store.now draft.old.change draft.old.images k d n
        → Freeing store.now draft.new.change draft.new.images k d n }
{
    let page = block_at(store, k as usize);
    let prev = prev_at(page);
    let next = next_at(page);
    put_next(draft, store, prev, next);
    link_back(draft, store, next, prev);
    clear_block(draft, store, k);
}

// Takes the entry in slot `slot` of block `k` out of its page, and gives the bit that this frees.
pub fn cut_entry(draft: &mut Draft, store: &[u8], m: Meta, k: u32, slot: u32) -> Option<u32>
    requires { (n b : ℕ) × (p : Pair) × (x : Index)
        × Cuttable store.now m draft.old.change draft.old.images k slot n b p x }
    ensures { (n b : ℕ) (p : Pair) (x : Index)
        → Cuttable store.now m draft.old.change draft.old.images k slot n b p x
        → (result ≡ freed_at x b p)
        × Sketches store.now draft.new.change draft.new.images (n + 3) (cut p b x) }
{
    let freed = freed_by(store, m, k);
    match freed {
        Some(_) => free_page(draft, store, k),
        None => remove_at(draft, store, k, slot as usize),
    }
    freed
}

// Takes the pair out of bucket `b`'s chain, if it stands there, and gives the bit that this frees.
pub fn cut_in(draft: &mut Draft, store: &[u8], m: Meta, b: u32, pair: Pair) -> Option<u32>
    requires { (n : ℕ) × (x : Index) × Findable store.now m draft.old.change draft.old.images n b pair x }
    ensures { (n : ℕ) (x : Index) → Findable store.now m draft.old.change draft.old.images n b pair x
        → (result ≡ freed_at x b pair)
        × Sketches store.now draft.new.change draft.new.images (n + 3) (cut pair b x) }
{
    let found = find_in(store, m, b, pair)?;
    cut_entry(draft, store, m, found.block, found.slot)
}
