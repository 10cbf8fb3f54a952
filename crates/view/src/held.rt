// Where pairs are held.
ghost use Rattle.std.specs.Prelude.{◌≡◌, suc, length};
ghost use Rattle.address.specs.Limits.{max_blocks};
ghost use Rattle.image.specs.Decode.{decode};
ghost use Rattle.model.specs.Held.{held};
ghost use Rattle.view.specs.Reads.{Reads};
ghost use Rattle.view.specs.Places.{sources_of, held_at, Sourced};

use crate::{SourceCounts, Sources};
use address::limits::MAX_BLOCKS;
use address::{bucket_of, parent_of};
use chain::Found;
use chain::along::find_along;
use chain::links::zero_walk;
use image::Meta;
use page::Pair;
use reader::buckets::{bucket_flags, walk_bucket};
use store::flags::POPULATED;

// The buckets in whose chains the pairs of a hash code are held.
pub fn sources_of(store: &[u8], m: Meta, hash: u32) -> Sources
    requires { Reads store.now m }
    ensures { result ≡ sources_of (decode store.now) hash }
{
    let home = bucket_of(hash, m.max);
    if home != m.max {
        return Sources::Home { home };
    }
    if bucket_flags(store, m, home) != POPULATED {
        return Sources::Home { home };
    }
    let old = parent_of(home);
    Sources::Both { new: home, old }
}

// Puts the blocks of these buckets' chains into `own` and `old`. Without an old chain, `old` stays as it is.
pub fn walk_sources(
    store: &[u8],
    own: &mut [u32; MAX_BLOCKS + 1],
    old: &mut [u32; MAX_BLOCKS + 1],
    m: Meta,
    hash: u32,
) -> SourceCounts
    requires { (Reads store.now m) × (length own.old ≡ suc max_blocks) × (length old.old ≡ suc max_blocks) }
    ensures { Sourced (decode store.now) hash own.new result.own
        old.new result.old result.fresh }
{
    let sources = sources_of(store, m, hash);
    match sources {
        Sources::Home { home } => SourceCounts {
            own: walk_bucket(store, own, m, home),
            old: 0,
            fresh: false,
        },
        Sources::Both { new, old: from } => SourceCounts {
            own: walk_bucket(store, own, m, new),
            old: walk_bucket(store, old, m, from),
            fresh: true,
        },
    }
}

// The block and slot of the pair's held entry.
pub fn find_held(store: &[u8], m: Meta, pair: Pair) -> Option<Found>
    requires { Reads store.now m }
    ensures { result ≡ held_at (decode store.now) pair }
{
    let mut own = zero_walk();
    let mut old = zero_walk();
    let walks = walk_sources(store, &mut own, &mut old, m, pair.hash);
    find_along(store, &own[..walks.own], &old[..walks.old], pair)
}

pub fn is_held(store: &[u8], m: Meta, pair: Pair) -> bool
    requires { Reads store.now m }
    ensures { result ≡ held (decode store.now) pair }
{
    find_held(store, m, pair).is_some()
}
