// The ends of copying and clearing: flags of the job's two bucket pages.
ghost use Rattle.std.specs.Prelude.{◌≡◌, List, ℕ, ◌≤◌};
ghost use Rattle.std.proofs.Math.Option.{none};
ghost use Rattle.std.proofs.lemmas.List.Edits.{sets};
ghost use Rattle.lists.specs.Lists.{find};
ghost use Rattle.endian.specs.Endian.{le16};
ghost use Rattle.address.specs.Address.{bucket_block};
ghost use Rattle.model.specs.Index.{idle, copying, clearing, entries_at, old_bucket, set_job};
ghost use Rattle.model.specs.Steps.{moves, to_copy};
ghost use Rattle.image.specs.Decode.{decode};
ghost use Rattle.draft.specs.Draft.{Ready, Edited};
ghost use Rattle.view.specs.Reads.{Reads};
ghost use Rattle.plan.specs.Plan.{Plans};

use address::parent_of;
use draft::edit::put_flags;
use draft::trim::drop_unchanged;
use draft::{Draft, clear};
use image::Meta;
use reader::roles::home_of;
use store::flags::{BUCKET, CLEANUP};

// Writes the flags of bucket `b`'s page.
pub fn mark_bucket(draft: &mut Draft, store: &[u8], m: Meta, b: u32, flags: u16)
    requires reads { (Reads store.now m) × (b ≤ m.max) }
    requires by_index { (d : List ℕ) × Ready store.now draft.old.change draft.old.images d
        (bucket_block (decode store.now).spares b) }
    ensures { Edited store.now draft.old.change draft.old.images
        (bucket_block (decode store.now).spares b) (λ l. sets l 504 (le16 flags))
        draft.new.change draft.new.images }
{
    put_flags(draft, store, home_of(m, b), flags);
}

// Nothing is left to copy: the new page is no longer populated, and the old one needs split cleanup.
pub fn plan_copied(draft: &mut Draft, store: &[u8], m: Meta)
    requires reads { Reads store.now m }
    requires store_value { ((decode store.now).job ≡ copying)
        × (find (to_copy (decode store.now)) (entries_at (decode store.now) (old_bucket (decode store.now)))
        ≡ none) }
    ensures { Plans store.now draft.new.change draft.new.images (set_job (decode store.now) clearing) }
{
    clear(draft);
    mark_bucket(draft, store, m, m.max, BUCKET);
    mark_bucket(draft, store, m, parent_of(m.max), CLEANUP);
    drop_unchanged(draft, store);
}

// Nothing is left to clear: the old page has no part in a job.
pub fn plan_cleared(draft: &mut Draft, store: &[u8], m: Meta)
    requires reads { Reads store.now m }
    requires store_value { ((decode store.now).job ≡ clearing)
        × (find (moves (decode store.now)) (entries_at (decode store.now) (old_bucket (decode store.now)))
        ≡ none) }
    ensures { Plans store.now draft.new.change draft.new.images (set_job (decode store.now) idle) }
{
    clear(draft);
    mark_bucket(draft, store, m, parent_of(m.max), BUCKET);
    drop_unchanged(draft, store);
}
