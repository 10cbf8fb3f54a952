// What a block is, and where a bucket stands.
ghost use Rattle.std.specs.Prelude.{◌≡◌, ◌≤◌};
ghost use Rattle.address.specs.Address.{bucket_block};
ghost use Rattle.address.specs.Role.{role_of};
ghost use Rattle.address.specs.BlockRole.{role_case};
ghost use Rattle.address.specs.Limits.{max_blocks};
ghost use Rattle.image.specs.Rules.{is_overflow};
ghost use Rattle.meta.specs.Addressed.{Addressed};
ghost use Rattle.reader.specs.Known.{Known2};

use address::{BlockRole, bucket_block, role_of};
use image::Meta;
use store::flags::OVERFLOW;
use store::{block_at, flags_at};

// The role of block `k`, which need not be a block of the store.
pub fn role_at(m: Meta, k: u32) -> BlockRole
    requires { Addressed max_blocks m }
    ensures { result ≡ role_case (role_of m.spares m.point k) }
{
    let spares = m.spares;
    role_of(spares, m.point, k)
}

// The block of bucket `b`.
pub fn home_of(m: Meta, b: u32) -> u32
    requires { (Addressed max_blocks m) × (b ≤ m.max) }
    ensures { result ≡ bucket_block m.spares b }
{
    let spares = m.spares;
    bucket_block(spares, b)
}

// Whether block `k` is an overflow page: no other role, and no block past the store's end, is one.
pub fn is_overflow(store: &[u8], m: Meta, k: u32) -> bool
    requires { Known2 store.now m }
    ensures { result ≡ is_overflow store.now k }
{
    match role_at(m, k) {
        BlockRole::Meta => false,
        BlockRole::Bucket(_) => false,
        BlockRole::Bit(n) => n != 0 && flags_at(block_at(store, k as usize)) == OVERFLOW,
        BlockRole::Unmade => false,
    }
}
