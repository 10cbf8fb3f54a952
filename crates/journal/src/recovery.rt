// Recovery, and a look before it.
ghost use Rattle.std.specs.Prelude.{◌≡◌, ◌+◌, ◌*◌, ◌≤◌, ◌<◌, eqb, length, MatchOption};
ghost use Rattle.std.proofs.Math.Option.{none, some};
ghost use Rattle.lists.specs.Lists.{find, up_from};
ghost use Rattle.lists.specs.Block.{blocks, set_block};
ghost use Rattle.store.specs.Change.{copies};
ghost use Rattle.store.specs.CopyLaws.{Copying};
ghost use Rattle.journal.specs.Journal.{disk, count_in, name_in, image_in, wiped, holds, recover, image_for, look};

use crate::holds::{count_of, journal_holds, name_of, wiped_head};
use store::{block_at, put_block};

// Copies the images of a change to the store.
fn copy_images(store: &mut [u8], journal: &[u8; 8192])
    requires few { count_in journal.now ≤ 14 }
    requires copying { Copying store.old (name_in journal.now) (image_in journal.now) (count_in journal.now) }
    ensures { store.new
        ≡ copies store.old (name_in journal.now) (image_in journal.now)
        (count_in journal.now) }
{
    for i in 0..count_of(journal) as usize {
        let name = name_of(journal, i) as usize;
        put_block(store, name, block_at(journal, 1 + i));
    }
}

// Wipes a journal's head.
pub fn wipe_head(journal: &mut [u8])
    requires { length journal.old ≡ 8192 }
    ensures { journal.new ≡ set_block journal.old 0 wiped }
{
    put_block(journal, 0, &wiped_head());
}

// Finishes the change that the journal holds, if it holds one, and wipes the head.
pub fn recover_store(store: &mut [u8], journal: &mut [u8])
    requires { (length journal.old ≡ 8192) × (length store.old ≡ 512 * blocks store.old) }
    ensures { recover (disk store.old journal.old) ≡ disk store.new journal.new }
{
    let Some(journal) = journal.as_mut_array() else {
        unreachable!()
    };
    if journal_holds(store, journal) {
        copy_images(store, journal);
    }
    wipe_head(journal);
}

// The first image of block `k`, of the images that the head names.
fn find_image(journal: &[u8; 8192], k: usize) -> Option<usize>
    requires { count_in journal.now ≤ 14 }
    ensures { MatchOption result
        (find (λ i. eqb (name_in journal.now i) k) (up_from 0 (count_in journal.now)) ≡ none)
        (λ n. (n < 14)
        × (find (λ i. eqb (name_in journal.now i) k) (up_from 0 (count_in journal.now)) ≡ some n)) }
{
    (0..count_of(journal) as usize).find(|i| name_of(journal, *i) as usize == k)
}

// Which image of the change that the journal holds is of block `k`.
pub fn image_for(store: &[u8], journal: &[u8], k: usize) -> Option<usize>
    requires { length journal.now ≡ 8192 }
    ensures { MatchOption result
        (image_for (holds (disk store.now journal.now)) journal.now k ≡ none)
        (λ n. (n < 14) × (image_for (holds (disk store.now journal.now)) journal.now k ≡ some n)) }
{
    let Some(journal) = journal.as_array() else {
        unreachable!()
    };
    if !journal_holds(store, journal) {
        return None;
    }
    find_image(journal, k)
}

// Block `k` as it will stand: a part of the journal where it holds that block, and else a part of the store.
pub fn look_part<'a>(store: &'a [u8], journal: &'a [u8], k: usize) -> &'a [u8]
    requires { (length journal.now ≡ 8192) × (512 * k + 512 ≤ length store.now) }
    ensures { result.now ≡ look (disk store.now journal.now) k }
{
    match image_for(store, journal, k) {
        Some(i) => block_at(journal, 1 + i),
        None => block_at(store, k),
    }
}
