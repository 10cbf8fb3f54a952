// The blocks of a chain, as the next fields lead.
ghost use Rattle.std.specs.Prelude.{◌≡◌, suc, length, replicate};
ghost use Rattle.lists.specs.Block.{block};
ghost use Rattle.address.specs.Limits.{max_blocks};
ghost use Rattle.store.specs.Store.{next_at};
ghost use Rattle.chain.specs.Walk.{Sized, walk, Bounded, last_of, Walked};

use address::limits::MAX_BLOCKS;
use store::flags::NO_LINK;
use store::{block_at, next_at};

// The next field of block `k`; 0 past the store's end.
pub fn next_block(store: &[u8], k: u32) -> u32
    requires { Sized store.now }
    ensures { result ≡ next_at (block store.now k) }
{
    let at = k as usize;
    if at < store.len() / 512 {
        next_at(block_at(store, at))
    } else {
        0
    }
}

// The last block of the chain from `first` on.
pub fn last_block(store: &[u8], first: u32) -> u32
    requires { Bounded store.now first }
    ensures { result ≡ last_of (walk store.now first) }
{
    let mut block = first;
    loop {
        let next = next_at(block_at(store, block as usize));
        if next == NO_LINK {
            return block;
        }
        block = next;
    }
}

// Room for a walk.
pub fn zero_walk() -> [u32; MAX_BLOCKS + 1]
    ensures { result ≡ replicate (suc max_blocks) 0 }
{
    [0u32; MAX_BLOCKS + 1]
}

// Puts the blocks from `first` on, as the next fields lead, into `blocks`, and gives their number. A ring is walked
// until N steps are done.
pub fn walk_chain(store: &[u8], blocks: &mut [u32; MAX_BLOCKS + 1], first: u32) -> usize
    requires { (Sized store.now) × (length blocks.old ≡ suc max_blocks) }
    ensures { Walked store.now first blocks.new result }
{
    let n = store.len() / 512;
    blocks[0] = first;
    let mut last = first;
    for count in 1..n + 1 {
        let next = next_block(store, last);
        if next == NO_LINK {
            return count;
        }
        blocks[count] = next;
        last = next;
    }
    n + 1
}
