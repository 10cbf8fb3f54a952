// The page of a bucket, its flags and its chain.
ghost use Rattle.std.specs.Prelude.{◌≡◌, suc, ◌≤◌, length};
ghost use Rattle.lists.specs.Block.{block};
ghost use Rattle.address.specs.Limits.{max_blocks};
ghost use Rattle.store.specs.Store.{flags_at};
ghost use Rattle.image.specs.Decode.{block_of};
ghost use Rattle.chain.specs.Walk.{Walked};
ghost use Rattle.reader.specs.Known.{Known2};

use crate::roles::home_of;
use address::limits::MAX_BLOCKS;
use chain::links::walk_chain;
use image::Meta;
use store::{block_at, flags_at};

// The page of bucket `b`.
pub fn bucket_page(store: &[u8], m: Meta, b: u32) -> &[u8]
    requires { (Known2 store.now m) × (b ≤ m.max) }
    ensures { result.now ≡ block store.now (block_of store.now b) }
{
    block_at(store, home_of(m, b) as usize)
}

pub fn bucket_flags(store: &[u8], m: Meta, b: u32) -> u16
    requires { (Known2 store.now m) × (b ≤ m.max) }
    ensures { result ≡ flags_at (block store.now (block_of store.now b)) }
{
    flags_at(bucket_page(store, m, b))
}

// Puts the blocks of bucket `b`'s chain, as the next fields lead, into `blocks`, and gives their number.
pub fn walk_bucket(store: &[u8], blocks: &mut [u32; MAX_BLOCKS + 1], m: Meta, b: u32) -> usize
    requires { (Known2 store.now m) × (b ≤ m.max) × (length blocks.old ≡ suc max_blocks) }
    ensures { Walked store.now (block_of store.now b) blocks.new result }
{
    walk_chain(store, blocks, home_of(m, b))
}
