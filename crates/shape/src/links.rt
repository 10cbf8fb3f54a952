// Rule 4: chains link by link, and each overflow page in one of them.
ghost use Rattle.std.specs.Prelude.{◌≡◌};
ghost use Rattle.lists.specs.Lists.{tally, up_from};
ghost use Rattle.lists.specs.Block.{blocks};
ghost use Rattle.image.specs.Decode.{block_of};
ghost use Rattle.image.specs.Rules.{is_overflow, link_ok, rule4};
ghost use Rattle.chain.specs.Walk.{walk};
ghost use Rattle.reader.specs.Known.{Known2};
ghost use Rattle.shape.specs.ChainedLaws.{chained};

use chain::links::{next_block, zero_walk};
use image::Meta;
use page::slots::count_entries;
use reader::buckets::walk_bucket;
use reader::roles::is_overflow;
use store::flags::NO_LINK;
use store::{block_at, bucket_at, prev_at};

// Whether the chain of bucket `b` may go on from block `k` to block `j`.
fn check_link(store: &[u8], m: Meta, b: u32, k: u32, j: u32) -> bool
    requires { Known2 store.now m }
    ensures { result ≡ link_ok store.now b k j }
{
    if !is_overflow(store, m, j) {
        return false;
    }
    let part = block_at(store, j as usize);
    if prev_at(part) != k {
        return false;
    }
    if bucket_at(part) != b {
        return false;
    }
    0 < count_entries(part)
}

// Whether the walk of bucket `b`, of these blocks, is linked, and ends.
fn check_chain(store: &[u8], blocks: &[u32], m: Meta, b: u32) -> bool
    requires known2 { Known2 store.now m }
    requires walked { blocks.now ≡ walk store.now (block_of store.now b) }
    ensures { result ≡ chained store.now b }
{
    let mut last = blocks[0];
    for next in &blocks[1..] {
        if !check_link(store, m, b, last, *next) {
            return false;
        }
        last = *next;
    }
    next_block(store, last) == NO_LINK
}

// The number of overflow pages.
fn count_overflow(store: &[u8], m: Meta) -> usize
    requires { Known2 store.now m }
    ensures { result ≡ tally (is_overflow store.now) (up_from 0 (blocks store.now)) }
{
    let size = store.len() / 512;
    let mut n = 0;
    for k in 0..size {
        if is_overflow(store, m, k as u32) {
            n += 1;
        }
    }
    n
}

// Rule 4. A link names the page's bucket and the page before it, so that no page stands in two places: each stands in
// one chain if there are as many pages as links.
pub fn check_links(store: &[u8], m: Meta) -> bool
    requires { Known2 store.now m }
    ensures { result ≡ rule4 store.now }
{
    let mut blocks = zero_walk();
    let mut links = 0;
    for b in 0..m.max + 1 {
        let count = walk_bucket(store, &mut blocks, m, b);
        if !check_chain(store, &blocks[..count], m, b) {
            return false;
        }
        links += count - 1;
    }
    links == count_overflow(store, m)
}
