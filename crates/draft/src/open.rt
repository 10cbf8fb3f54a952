// Opens a block of a draft: lists its number and makes a copy of it, if it is not listed yet.
ghost use Rattle.std.specs.Prelude.{◌≡◌, List, ℕ, ◌+◌, ◌*◌, ◌≤◌, ◌<◌, length, get_or};
ghost use Rattle.lists.specs.Block.{block, set_block};
ghost use Rattle.store.specs.Change.{Fits};
ghost use Rattle.draft.specs.Draft.{Ready};
ghost use Rattle.draft.specs.Open.{PlaceOf, Shifted, Inserted, Opens};

use crate::Draft;
use store::{Change, block_at, put_block};

// Where a number stands in a change, or would stand.
fn find_image(change: Change, k: u32) -> Result<usize, usize>
    requires { (s : List ℕ) × Fits s change.numbers change.count }
    ensures { PlaceOf change.numbers change.count k result }
{
    let count = change.count;
    change.numbers[..count].binary_search(&k)
}

// Lists `k` at place `at`.
fn list_number(change: &mut Change, at: usize, k: u32)
    requires { (at ≤ change.old.count) × (change.old.count < 8) }
    ensures { (change.new.count ≡ change.old.count + 1) × Inserted at change.old.count k
        (λ j. get_or change.old.numbers j 0) (λ j. get_or change.new.numbers j 0) }
{
    let count = change.count;
    change.numbers.copy_within(at..count, at + 1);
    change.numbers[at] = k;
    change.count = count + 1;
}

// Copies image `from` over image `to`.
pub fn copy_image(images: &mut [u8], from: usize, to: usize)
    requires { (512 * from + 512 ≤ length images.old) × (512 * to + 512 ≤ length images.old) }
    ensures { images.new ≡ set_block images.old to (block images.old from) }
{
    let start = 512 * from;
    images.copy_within(start..start + 512, 512 * to);
}

// Moves the images from place `at` up to `count` one place up.
fn shift_images(images: &mut [u8], at: usize, count: usize)
    requires { (at ≤ count) × (count < 8) × (length images.old ≡ 4096) }
    ensures { Shifted at count (block images.old) (block images.new) }
{
    let start = 512 * at;
    images.copy_within(start..512 * count, start + 512);
}

// Opens block `k`, and gives its place.
pub fn open_block(draft: &mut Draft, store: &[u8], k: u32) -> usize
    requires { (d : List ℕ) × Ready store.now draft.old.change draft.old.images d k }
    ensures { Opens store.now draft.old.change draft.old.images k result draft.new.change draft.new.images }
{
    let count = draft.change.count;
    let place = find_image(draft.change, k);
    match place {
        Ok(at) => at,
        Err(at) => {
            shift_images(&mut draft.images, at, count);
            put_block(&mut draft.images, at, block_at(store, k as usize));
            list_number(&mut draft.change, at, k);
            at
        }
    }
}
