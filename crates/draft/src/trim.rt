// Takes out of a draft the blocks that stand in the store already: a change lists exactly the blocks that it alters.
ghost use Rattle.std.specs.Prelude.{◌≡◌, List, ℕ, ◌+◌, ◌≤◌, ◌<◌, length};
ghost use Rattle.lists.specs.Block.{block, set_block};
ghost use Rattle.store.specs.Store.{covered};
ghost use Rattle.store.specs.Change.{Fits};
ghost use Rattle.draft.specs.Draft.{Draft as Drafts};
ghost use Rattle.draft.specs.Trim.{alike, Kept, Trimmed};

use crate::open::copy_image;
use crate::{Draft, clear};
use store::block_at;

// Whether two blocks are the same but for their checks. Without an early return, so that the compiler vectorises it.
fn same_bytes(a: &[u8], b: &[u8]) -> bool
    requires { (length a.now ≡ 512) × (length b.now ≡ 512) }
    ensures { result ≡ alike (covered a.now) (covered b.now) }
{
    let mut same = true;
    for i in 0..508 {
        if a[i] != b[i] {
            same = false;
        }
    }
    same
}

// Lists `k` after the blocks that are kept, with image `i`.
fn keep_image(draft: &mut Draft, i: usize, k: u32)
    requires { (draft.old.change.count ≤ i) × (i < 8) }
    ensures kept { Kept draft.old.change k draft.new.change }
    ensures images_after { draft.new.images
        ≡ set_block draft.old.images draft.old.change.count (block draft.old.images i) }
{
    let count = draft.change.count;
    copy_image(&mut draft.images, i, count);
    draft.change.numbers[count] = k;
    draft.change.count = count + 1;
}

// Leaves out of the draft the blocks that it leaves as they are.
pub fn drop_unchanged(draft: &mut Draft, store: &[u8])
    requires { Fits store.now draft.old.change.numbers draft.old.change.count }
    ensures { (d : List ℕ) → Drafts store.now draft.old.change draft.old.images d
        → Trimmed store.now d draft.new.change draft.new.images }
{
    let count = draft.change.count;
    let numbers = draft.change.numbers;
    clear(draft);
    for i in 0..count {
        let k = numbers[i];
        if !same_bytes(block_at(store, k as usize), block_at(&draft.images, i)) {
            keep_image(draft, i, k);
        }
    }
}
