// The chain of a bucket: a pair in it, the first page with room.
ghost use Rattle.std.specs.Prelude.{◌≡◌, ◌≤◌};
ghost use Rattle.image.specs.Decode.{decode};
ghost use Rattle.view.specs.Reads.{Reads};
ghost use Rattle.view.specs.Places.{find_at, room_at};

use chain::links::zero_walk;
use chain::search::{find_pair, first_room};
use chain::{Found, Room};
use image::Meta;
use page::Pair;
use reader::buckets::walk_bucket;
use reader::roles::home_of;

// The block and slot of a pair in bucket `b`'s chain.
pub fn find_in(store: &[u8], m: Meta, b: u32, pair: Pair) -> Option<Found>
    requires { (Reads store.now m) × (b ≤ m.max) }
    ensures { result ≡ find_at (decode store.now) b pair }
{
    let mut blocks = zero_walk();
    let count = walk_bucket(store, &mut blocks, m, b);
    find_pair(store, &blocks[..count], pair)
}

// The first page with room in bucket `b`'s chain, else the chain's last block.
pub fn room_in(store: &[u8], m: Meta, b: u32) -> Room
    requires { (Reads store.now m) × (b ≤ m.max) }
    ensures { result ≡ room_at (decode store.now) b }
{
    first_room(store, home_of(m, b))
}
