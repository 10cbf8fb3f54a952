// Edits of one block of a draft: entries of a page, a page anew, an unused block.
ghost use Rattle.std.specs.Prelude.{◌≡◌, List, [], ◌∷◌, ◌++◌, ℕ, length, drop, replicate};
ghost use Rattle.lists.specs.Block.{block};
ghost use Rattle.page.specs.Entries.{encode_page};
ghost use Rattle.page.specs.Places.{remove_at, insert_at};
ghost use Rattle.page.specs.Gap.{Room, Held};
ghost use Rattle.store.specs.Store.{trailer};
ghost use Rattle.draft.specs.Draft.{Ready, Edited, PageEdited};

use crate::Draft;
use crate::open::open_block;
use page::Entry;
use page::edit::{insert_entry, remove_entry};
use store::{Trailer, put_trailer};

// Puts `e` into slot `slot` of the page in block `k`.
pub fn insert_at(draft: &mut Draft, store: &[u8], k: u32, slot: usize, e: Entry)
    requires { (d : List ℕ) × Ready store.now draft.old.change draft.old.images d k × Room (block d k) slot }
    ensures { PageEdited store.now draft.old.change draft.old.images k (insert_at slot e)
        draft.new.change draft.new.images }
{
    let at = open_block(draft, store, k);
    let from = 512 * at;
    insert_entry(&mut draft.images[from..from + 512], slot, e);
}

// Takes the entry out of slot `slot` of the page in block `k`.
pub fn remove_at(draft: &mut Draft, store: &[u8], k: u32, slot: usize)
    requires { (d : List ℕ) × Ready store.now draft.old.change draft.old.images d k × Held (block d k) slot }
    ensures { PageEdited store.now draft.old.change draft.old.images k (remove_at slot)
        draft.new.change draft.new.images }
{
    let at = open_block(draft, store, k);
    let from = 512 * at;
    remove_entry(&mut draft.images[from..from + 512], slot);
}

// Makes a block's bytes zero but for its check.
fn zero_block(part: &mut [u8])
    requires { length part.old ≡ 512 }
    ensures { part.new ≡ replicate 508 0 ++ drop 508 part.old }
{
    part[..508].fill(0);
}

// Makes block `k` unused: bytes 0..507 are zero.
pub fn clear_block(draft: &mut Draft, store: &[u8], k: u32)
    requires { (d : List ℕ) × Ready store.now draft.old.change draft.old.images d k }
    ensures { Edited store.now draft.old.change draft.old.images k (λ b. replicate 508 0 ++ drop 508 b)
        draft.new.change draft.new.images }
{
    let at = open_block(draft, store, k);
    let from = 512 * at;
    zero_block(&mut draft.images[from..from + 512]);
}

// Makes a page of no entry.
fn clear_page(part: &mut [u8], t: Trailer)
    requires { length part.old ≡ 512 }
    ensures { part.new
        ≡ encode_page [] (trailer t.prev t.next t.bucket t.flags ++ drop 508 part.old) }
{
    part[..492].fill(0);
    put_trailer(part, t);
}

// Makes block `k` a page of no entry.
pub fn write_empty(draft: &mut Draft, store: &[u8], k: u32, t: Trailer)
    requires { (d : List ℕ) × Ready store.now draft.old.change draft.old.images d k }
    ensures { Edited store.now draft.old.change draft.old.images k
        (λ b. encode_page [] (trailer t.prev t.next t.bucket t.flags ++ drop 508 b)) draft.new.change draft.new.images }
{
    let at = open_block(draft, store, k);
    let from = 512 * at;
    clear_page(&mut draft.images[from..from + 512], t);
}

// Makes block `k` a page of the one entry `e`.
pub fn write_page(draft: &mut Draft, store: &[u8], k: u32, e: Entry, t: Trailer)
    requires { (d : List ℕ) × Ready store.now draft.old.change draft.old.images d k }
    ensures { Edited store.now draft.old.change draft.old.images k
        (λ b. encode_page (e ∷ []) (trailer t.prev t.next t.bucket t.flags ++ drop 508 b)) draft.new.change draft.new.images }
{
    write_empty(draft, store, k, t);
    insert_at(draft, store, k, 0, e);
}
