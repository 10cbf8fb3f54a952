// A change of some blocks that is being built: planning reads the store and edits copies of the blocks that change.
#![tactic(auto)]

pub mod open; // open.rt: a block's copy, at its place in the change
pub mod trim; // trim.rt: blocks that are not altered
pub mod pages; // pages.rt: pages and unused blocks
pub mod edit; // edit.rt: links, flags, bits and fields of a block

ghost use Rattle.std.specs.Prelude.{◌≡◌, List, ℕ, ◌*◌, length};
ghost use Rattle.lists.specs.Block.{blocks};
ghost use Rattle.draft.specs.Draft.{Draft as Drafts};

use store::Change;

// A change, and the copies of its blocks, in the same order. Who plans is lent one, and says nothing of the images past
// the change's count.
#[derive(Drop)]
pub struct Draft {
    pub change: Change,
    pub images: [u8; 4096],
}

// A change of no block.
pub fn no_change() -> Change
    ensures { result.count ≡ 0 }
{
    Change {
        count: 0,
        numbers: [0; 8],
    }
}

// Makes a draft one of no block.
pub fn clear(draft: &mut Draft)
    ensures count_value { draft.new.change.count ≡ 0 }
    ensures images_value { draft.new.images ≡ draft.old.images }
    ensures by_index { (s : List ℕ) → length s ≡ 512 * blocks s
        → Drafts s draft.new.change draft.new.images s }
{
    draft.change.count = 0;
}
