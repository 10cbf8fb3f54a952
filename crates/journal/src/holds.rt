// Whether a journal holds a change, recovery's condition; and whether its head is wiped.
#![tactic(auto, using(crate::proofs::Parts::lengths))]

ghost use Rattle.std.specs.Prelude.{◌≡◌, not, ◌&&◌, ◌≤◌, ◌<◌, eqb, ltb, length};
ghost use Rattle.lists.specs.Lists.{all, up_from};
ghost use Rattle.store.specs.Store.{checks};
ghost use Rattle.journal.specs.Journal.{disk, number_in, count_in, name_in, image_in, wiped, head_wiped};
ghost use Rattle.journal.specs.Journal.{end_copies, images_good, names_below, names_differ, holds};

use endian::{get_u32, put_u32};
use store::{block_at, check_block};

// The block that image `i` is of.
pub fn name_of(journal: &[u8], i: usize) -> u32
    requires { (length journal.now ≡ 8192) × (i < 14) }
    ensures { result ≡ name_in journal.now i }
{
    get_u32(block_at(journal, 0), 8 + 4 * i)
}

// How many images the head names.
pub fn count_of(journal: &[u8]) -> u32
    requires { length journal.now ≡ 8192 }
    ensures { result ≡ count_in journal.now }
{
    get_u32(block_at(journal, 0), 4)
}

// The store number in the head.
fn number_of(journal: &[u8; 8192]) -> u32
    ensures { result ≡ number_in journal.now }
{
    get_u32(block_at(journal, 0), 0)
}

// Whether image `i` has a right check.
fn image_good(journal: &[u8; 8192], number: u32, i: usize) -> bool
    requires { i < 14 }
    ensures { result ≡ checks number (name_in journal.now i) (image_in journal.now i) }
{
    check_block(block_at(journal, 1 + i), number, name_of(journal, i))
}

// Whether the images have right checks.
fn images_good(journal: &[u8; 8192], number: u32, count: usize) -> bool
    requires { count ≤ 14 }
    ensures { result
        ≡ all (λ i. checks number (name_in journal.now i) (image_in journal.now i))
        (up_from 0 count) }
{
    (0..count).all(|i| image_good(journal, number, i))
}

// Whether the blocks named are below `size`.
fn names_below(journal: &[u8; 8192], size: usize, count: usize) -> bool
    requires { count ≤ 14 }
    ensures { result ≡ all (λ i. ltb (name_in journal.now i) size) (up_from 0 count) }
{
    (0..count).all(|i| (name_of(journal, i) as usize) < size)
}

// Whether the block that image `j` is of differs from those of the images before it.
fn name_differs(journal: &[u8; 8192], j: usize) -> bool
    requires { j < 14 }
    ensures { result
        ≡ all (λ i. not (eqb (name_in journal.now i) (name_in journal.now j))) (up_from 0 j) }
{
    (0..j).all(|i| name_of(journal, i) != name_of(journal, j))
}

// Whether no two images are of one block.
fn names_differ(journal: &[u8; 8192], count: usize) -> bool
    requires { count ≤ 14 }
    ensures { result
        ≡ all
        (λ j. all (λ i. not (eqb (name_in journal.now i) (name_in journal.now j))) (up_from 0 j))
        (up_from 0 count) }
{
    (0..count).all(|j| name_differs(journal, j))
}

// Whether the end copies the head's bytes 0..507.
fn end_copies(journal: &[u8; 8192]) -> bool
    ensures { result ≡ end_copies journal.now }
{
    block_at(journal, 15)[..508] == block_at(journal, 0)[..508]
}

// Whether the journal holds a change of the store.
pub fn journal_holds(store: &[u8], journal: &[u8]) -> bool
    requires { length journal.now ≡ 8192 }
    ensures { result ≡ holds (disk store.now journal.now) }
{
    let Some(journal) = journal.as_array() else {
        unreachable!()
    };
    let count = count_of(journal) as usize;
    if count == 0 || count > 14 {
        return false;
    }
    let number = number_of(journal);
    check_block(block_at(journal, 0), number, 0)
        && check_block(block_at(journal, 15), number, 15)
        && end_copies(journal)
        && images_good(journal, number, count)
        && names_below(journal, store.len() / 512, count)
        && names_differ(journal, count)
}

// The check of a wiped head.
const WIPED_CHECK: u32 = 0xB84E_1C9B;

// The wiped head.
pub fn wiped_head() -> [u8; 512]
    ensures { result ≡ wiped }
{
    let mut head = [0u8; 512];
    put_u32(&mut head, 508, WIPED_CHECK);
    head
}

// Whether a journal's head is wiped: all its bytes are compared.
pub fn head_wiped(journal: &[u8]) -> bool
    requires { length journal.now ≡ 8192 }
    ensures { result ≡ head_wiped journal.now }
{
    block_at(journal, 0) == &wiped_head()[..]
}
