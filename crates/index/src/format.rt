// Format: a store made new, with no entries.
ghost use Rattle.std.specs.Prelude.{◌≡◌, ◌++◌, ◌+◌, ◌*◌, ◌≤◌, length, replicate};
ghost use Rattle.lists.specs.Lists.{bind, up_from};
ghost use Rattle.lists.specs.Block.{blocks, set_block};
ghost use Rattle.store.specs.Flags.{bucket_flags, bitmap_flags, meta_flags};
ghost use Rattle.store.specs.Store.{covered, sealed};
ghost use Rattle.model.specs.Calls.{format_ok};
ghost use Rattle.image.specs.Layout.{paged};
ghost use Rattle.store.specs.Flags.{no_link};
ghost use Rattle.outcomes.specs.Format.{format_meta, format_block};
ghost use Rattle.outcomes.specs.Outcomes.{format_outcome};
ghost use Rattle.chain.specs.Walk.{Sized};

use crate::in_use::is_protected;
use image::Meta;
use meta::{check_fill, put_meta};
use model::{Answer, Order, Refusal};
use store::flags::{BITMAP, BUCKET, META, NO_LINK};
use store::{Change, Trailer, finish_as, put_block, put_trailer};
use verify::check_length;

// The trailer of a block that is no page of a chain.
fn no_links(flags: u16) -> Trailer
    ensures { result ≡ record { prev = no_link; next = no_link; bucket = no_link; flags = flags } }
{
    Trailer {
        prev: NO_LINK,
        next: NO_LINK,
        bucket: NO_LINK,
        flags,
    }
}

// The blocks of a new store, without their checks.

fn build_meta(size: u32, order: Order) -> [u8; 512]
    requires { order.fill ≤ 40 }
    ensures { covered result ≡ paged (format_meta size order) no_link no_link no_link meta_flags }
{
    let fill = order.fill as u16;
    let mut spares = [0u32; 16];
    spares[1] = 1;
    let mut body = [0u8; 512];
    put_meta(
        &mut body,
        Meta {
            count: 0,
            fill,
            max: 1,
            high: 3,
            low: 1,
            point: 1,
            free: 1,
            size,
            spares,
            number: order.number,
        },
    );
    put_trailer(&mut body, no_links(META));
    body
}

// The page of a bucket without entries, from which none has split off.
fn build_bucket(bucket: u32) -> [u8; 512]
    ensures { covered result ≡ paged (replicate 492 0) 1 no_link bucket bucket_flags }
{
    let mut body = [0u8; 512];
    let trailer = Trailer {
        prev: 1,
        next: NO_LINK,
        bucket,
        flags: BUCKET,
    };
    put_trailer(&mut body, trailer);
    body
}

// A bitmap whose bits are all 1.
fn build_bitmap() -> [u8; 512]
    ensures { covered result ≡ paged (replicate 256 255 ++ replicate 236 0) no_link no_link no_link bitmap_flags }
{
    let mut body = [0u8; 512];
    body[..256].copy_from_slice(&[255; 256]);
    put_trailer(&mut body, no_links(BITMAP));
    body
}

// Block `k` of `size`.
fn build_body(k: u32, size: u32, order: Order) -> [u8; 512]
    requires { order.fill ≤ 40 }
    ensures { covered result ≡ format_block size order k }
{
    match k {
        0 => build_meta(size, order),
        1 => build_bucket(0),
        2 => build_bucket(1),
        3 => build_bitmap(),
        _ => [0u8; 512],
    }
}

// Writes block `k` of a new store, with its check.
fn format_block(store: &mut [u8], k: u32, size: u32, order: Order)
    requires { (512 * k + 512 ≤ length store.old) × (order.fill ≤ 40) }
    ensures { store.new
        ≡ set_block store.old k (sealed order.number k (format_block size order k)) }
{
    let change = Change {
        count: 1,
        numbers: [k, 0, 0, 0, 0, 0, 0, 0],
    };
    let body = build_body(k, size, order);
    let mut images = [0u8; 4096];
    put_block(&mut images, 0, &body);
    finish_as(store, change, &mut images, order.number);
}

// Writes every block of a new store.
fn format_blocks(store: &mut [u8], order: Order)
    requires { Sized store.old × (order.fill ≤ 40) }
    ensures { store.new
        ≡ bind (up_from 0 (blocks store.old))
        (λ k. sealed order.number k (format_block (blocks store.old) order k)) }
{
    let size = (store.len() / 512) as u32;
    for k in 0..size {
        format_block(store, k, size, order);
    }
}

// Refusal 2 of a format.
pub fn check_format(order: Order) -> bool
    ensures { result ≡ format_ok order }
{
    check_fill(order.fill) && order.overwrite <= 1
}

// Makes a store new: two empty buckets, the bitmap, and all other blocks unused. A store in use is left, unless the
// order overwrites.
pub fn format(store: &mut [u8], order: Order) -> Answer
    ensures value { result ≡ (format_outcome store.old order).answer }
    ensures store_after { store.new ≡ (format_outcome store.old order).store }
{
    if !check_length(store) {
        return Err(Refusal::Length);
    }
    if !check_format(order) {
        return Err(Refusal::Number);
    }
    if is_protected(store, order) {
        return Err(Refusal::InUse);
    }
    format_blocks(store, order);
    Ok(())
}
