// The end of a cut: the bits of freed pages, the meta block, and the blocks that stay.
ghost use Rattle.std.specs.Prelude.{◌≡◌, List, ℕ};
ghost use Rattle.model.specs.Index.{Index};
ghost use Rattle.plan.specs.Plan.{Plans};
ghost use Rattle.removal.specs.Freeing.{clears, lowers, Below};
ghost use Rattle.removal.specs.Ending.{MapSketch, Cleared, Ending};

use address::bit_block;
use draft::Draft;
use draft::edit::{put_bit, put_fields};
use draft::trim::drop_unchanged;
use image::Meta;
use plan::with_fields;

// Sets the bit of a freed page to 0, in the bitmap in block `k`.
fn clear_bit(draft: &mut Draft, store: &[u8], k: u32, freed: Option<u32>)
    requires below { Below freed }
    requires by_index { (d : List ℕ) × (bit : ℕ → ℕ) × MapSketch store.now draft.old.change draft.old.images k bit d }
    ensures { (d : List ℕ) (bit : ℕ → ℕ) → MapSketch store.now draft.old.change draft.old.images k bit d
        → Cleared store.now draft.new.change draft.new.images k (clears freed bit) d }
{
    let Some(n) = freed else {
        return;
    };
    put_bit(draft, store, k, n, false);
}

// The lower one of the first free bit and a freed one.
fn lower_free(free: u32, freed: Option<u32>) -> u32
    ensures { result ≡ lowers freed free }
{
    match freed {
        Some(n) => n.min(free),
        None => free,
    }
}

// Ends a change that cut pairs out of pages: frees the bits, and writes the count of held pairs and the first free
// bit.
pub fn end_cut(
    draft: &mut Draft,
    store: &[u8],
    m: Meta,
    held: u32,
    first: Option<u32>,
    second: Option<u32>,
)
    requires { (y : Index) × Ending store.now m draft.old.change draft.old.images held first second y }
    ensures { (y : Index) → Ending store.now m draft.old.change draft.old.images held first second y
        → Plans store.now draft.new.change draft.new.images y }
{
    let map = bit_block(m.spares, m.point, 0);
    clear_bit(draft, store, map, first);
    clear_bit(draft, store, map, second);
    let free = lower_free(lower_free(m.free, first), second);
    put_fields(draft, store, with_fields(m, held, free, m.spares));
    drop_unchanged(draft, store);
}
