// Edits of one block of a draft: links, flags, bits and fields.
ghost use Rattle.std.specs.Prelude.{◌≡◌, List, ◌++◌, ℕ, ◌+◌, ◌≤◌, ◌<◌, drop};
ghost use Rattle.std.proofs.lemmas.List.Edits.{sets};
ghost use Rattle.endian.specs.Endian.{le16, le32};
ghost use Rattle.image.specs.Layout.{meta_front};
ghost use Rattle.draft.specs.Draft.{Ready, Edited};
ghost use Rattle.draft.specs.Bits.{with_bit, put_bit};

use crate::Draft;
use crate::open::open_block;
use endian::{put_u16, put_u32};
use image::Meta;
use meta::put_meta;

// Writes a 32-bit number at place `i` of block `k`.
fn put_word(draft: &mut Draft, store: &[u8], k: u32, i: usize, value: u32)
    requires by_index { (d : List ℕ) × Ready store.now draft.old.change draft.old.images d k }
    requires i_bound { i + 4 ≤ 512 }
    ensures { Edited store.now draft.old.change draft.old.images k (λ b. sets b i (le32 value))
        draft.new.change draft.new.images }
{
    let at = open_block(draft, store, k);
    let from = 512 * at;
    put_u32(&mut draft.images[from..from + 512], i, value);
}

// Writes the previous field.
pub fn put_prev(draft: &mut Draft, store: &[u8], k: u32, prev: u32)
    requires { (d : List ℕ) × Ready store.now draft.old.change draft.old.images d k }
    ensures { Edited store.now draft.old.change draft.old.images k (λ b. sets b 492 (le32 prev))
        draft.new.change draft.new.images }
{
    put_word(draft, store, k, 492, prev);
}

// Writes the next field.
pub fn put_next(draft: &mut Draft, store: &[u8], k: u32, next: u32)
    requires { (d : List ℕ) × Ready store.now draft.old.change draft.old.images d k }
    ensures { Edited store.now draft.old.change draft.old.images k (λ b. sets b 496 (le32 next))
        draft.new.change draft.new.images }
{
    put_word(draft, store, k, 496, next);
}

// Writes the flags.
pub fn put_flags(draft: &mut Draft, store: &[u8], k: u32, flags: u16)
    requires { (d : List ℕ) × Ready store.now draft.old.change draft.old.images d k }
    ensures { Edited store.now draft.old.change draft.old.images k (λ b. sets b 504 (le16 flags))
        draft.new.change draft.new.images }
{
    let at = open_block(draft, store, k);
    let from = 512 * at;
    put_u16(&mut draft.images[from..from + 512], 504, flags);
}

// The byte with bit `j` set or cleared.
fn with_bit(x: u8, j: u32, value: bool) -> u8
    requires { j < 8 }
    ensures { result ≡ with_bit x j value }
{
    let bit = 1u8 << j;
    if value { x | bit } else { x & !bit }
}

// Sets or clears bit `n` of the bitmap in block `k`.
pub fn put_bit(draft: &mut Draft, store: &[u8], k: u32, n: u32, value: bool)
    requires by_index { (d : List ℕ) × Ready store.now draft.old.change draft.old.images d k }
    requires n_bound { n < 2048 }
    ensures { Edited store.now draft.old.change draft.old.images k (λ b. put_bit b n value)
        draft.new.change draft.new.images }
{
    let at = open_block(draft, store, k);
    let byte = 512 * at + (n / 8) as usize;
    draft.images[byte] = with_bit(draft.images[byte], n % 8, value);
}

// Writes the fields of the meta block.
pub fn put_fields(draft: &mut Draft, store: &[u8], m: Meta)
    requires { (d : List ℕ) × Ready store.now draft.old.change draft.old.images d 0 }
    ensures { Edited store.now draft.old.change draft.old.images 0 (λ b. meta_front m ++ drop 492 b)
        draft.new.change draft.new.images }
{
    let at = open_block(draft, store, 0);
    let from = 512 * at;
    put_meta(&mut draft.images[from..from + 512], m);
}
