// Blocks of a store: their trailers and checks, and a change of some of them.
#![tactic(auto)]

pub mod flags; // flags.rt: the flags, the page id and "none" by name

ghost use Rattle.std.specs.Prelude.{◌≡◌, ◌+◌, ◌*◌, ◌≤◌, ◌<◌, length, get_or};
ghost use Rattle.std.proofs.lemmas.List.Edits.{sets};
ghost use Rattle.lists.specs.Block.{block, set_block};
ghost use Rattle.store.specs.Store.{prev_at, next_at, bucket_at, flags_at, id_at, trailer};
ghost use Rattle.store.specs.Store.{check_of, sealed, checks, number_at};
ghost use Rattle.store.specs.Change.{Fits, commits, stored, seals};
ghost use Rattle.store.specs.Finish.{finished_as, finished};

use crate::flags::PAGE_ID;
use crc32c::crc32c_after;
use endian::{get_u16, get_u32, put_u16, put_u32};

// Block `k`, as a part of the store.
pub fn block_at(store: &[u8], k: usize) -> &[u8]
    requires { 512 * k + 512 ≤ length store.now }
    ensures { result.now ≡ block store.now k }
{
    let from = 512 * k;
    &store[from..from + 512]
}

// Replaces block `k`.
pub fn put_block(store: &mut [u8], k: usize, image: &[u8])
    requires { (512 * k + 512 ≤ length store.old) × (length image.now ≡ 512) }
    ensures { store.new ≡ set_block store.old k image.now }
{
    let from = 512 * k;
    store[from..from + 512].copy_from_slice(image);
}

// The fields of a block's trailer.

pub fn prev_at(part: &[u8]) -> u32
    requires { length part.now ≡ 512 }
    ensures { result ≡ prev_at part.now }
{
    get_u32(part, 492)
}

pub fn next_at(part: &[u8]) -> u32
    requires { length part.now ≡ 512 }
    ensures { result ≡ next_at part.now }
{
    get_u32(part, 496)
}

pub fn bucket_at(part: &[u8]) -> u32
    requires { length part.now ≡ 512 }
    ensures { result ≡ bucket_at part.now }
{
    get_u32(part, 500)
}

pub fn flags_at(part: &[u8]) -> u16
    requires { length part.now ≡ 512 }
    ensures { result ≡ flags_at part.now }
{
    get_u16(part, 504)
}

pub fn id_at(part: &[u8]) -> u16
    requires { length part.now ≡ 512 }
    ensures { result ≡ id_at part.now }
{
    get_u16(part, 506)
}

// The fields of a block's trailer but for the page id, which is the same in all.
#[derive(Clone, Copy)]
pub struct Trailer {
    pub prev: u32,
    pub next: u32,
    pub bucket: u32,
    pub flags: u16,
}

// Writes a block's trailer, with the page id.
pub fn put_trailer(image: &mut [u8], t: Trailer)
    requires { length image.old ≡ 512 }
    ensures { image.new ≡ sets image.old 492 (trailer t.prev t.next t.bucket t.flags) }
{
    put_u32(image, 492, t.prev);
    put_u32(image, 496, t.next);
    put_u32(image, 500, t.bucket);
    put_u16(image, 504, t.flags);
    put_u16(image, 506, PAGE_ID);
}

// The number of a store.
pub fn number_at(store: &[u8]) -> u32
    requires { 512 ≤ length store.now }
    ensures { result ≡ number_at store.now }
{
    get_u32(block_at(store, 0), 104)
}

// The check that block `k` of the store with this number should have.
fn check_of(part: &[u8], number: u32, k: u32) -> u32
    requires { length part.now ≡ 512 }
    ensures { result ≡ check_of number k part.now }
{
    crc32c_after(number, k, &part[..508])
}

// Whether a block's check is right.
pub fn check_block(part: &[u8], number: u32, k: u32) -> bool
    requires { length part.now ≡ 512 }
    ensures { result ≡ checks number k part.now }
{
    get_u32(part, 508) == check_of(part, number, k)
}

// Writes a block's check.
pub fn seal_block(image: &mut [u8], number: u32, k: u32)
    requires { length image.old ≡ 512 }
    ensures { image.new ≡ sealed number k image.old }
{
    let check = check_of(image, number, k);
    put_u32(image, 508, check);
}

// Blocks to be replaced: the first `count` of `numbers`, in ascending order. The new bodies are the blocks of a slice
// of images, in the same order.
#[derive(Clone, Copy)]
pub struct Change {
    pub count: usize,
    pub numbers: [u32; 8],
}

// Writes the check of image `n`, which becomes block `k`.
fn seal_one(images: &mut [u8], n: usize, number: u32, k: u32)
    requires { 512 * n + 512 ≤ length images.old }
    ensures { images.new
        ≡ set_block images.old n (sealed number k (block images.old n)) }
{
    let from = 512 * n;
    seal_block(&mut images[from..from + 512], number, k);
}

// Writes the checks of a change's images.
pub fn seal_change(change: Change, images: &mut [u8], number: u32)
    requires { (change.count ≤ 8) × (length images.old ≡ 4096) }
    ensures { images.new ≡ seals number change.numbers images.old change.count }
{
    for n in 0..change.count {
        seal_one(images, n, number, change.numbers[n]);
    }
}

// Does the `n`-th block store of a change.
pub fn commit_one(store: &mut [u8], change: Change, images: &[u8], n: usize)
    requires n_bound { (n < 8) × (512 * get_or change.numbers n 0 + 512 ≤ length store.old) }
    requires images_len { length images.now ≡ 4096 }
    ensures { store.new ≡ stored store.old change.numbers images.now n }
{
    put_block(store, change.numbers[n] as usize, block_at(images, n));
}

// Does all block stores of a change.
fn commit(store: &mut [u8], change: Change, images: &[u8])
    requires fits { Fits store.old change.numbers change.count }
    requires images_len { length images.now ≡ 4096 }
    ensures { store.new
        ≡ commits store.old change.numbers images.now change.count }
{
    for done in 0..change.count {
        commit_one(store, change, images, done);
    }
}

// Writes the checks of a change's images, as of the store with this number, and the images to the store.
pub fn finish_as(store: &mut [u8], change: Change, images: &mut [u8], number: u32)
    requires fits { Fits store.old change.numbers change.count }
    requires images_len { length images.old ≡ 4096 }
    ensures { store.new ≡ finished_as number store.old change images.old }
{
    seal_change(change, images, number);
    commit(store, change, images);
}

// The same with the number that the store has.
pub fn finish(store: &mut [u8], change: Change, images: &mut [u8])
    requires fits { Fits store.old change.numbers change.count }
    requires in_bounds { (512 ≤ length store.old) × (length images.old ≡ 4096) }
    ensures { store.new ≡ finished store.old change images.old }
{
    let number = number_at(store);
    finish_as(store, change, images, number);
}
