// Overflow bits and the bitmap.
ghost use Rattle.std.specs.Prelude.{◌≡◌, ◌<◌, get_or};
ghost use Rattle.address.specs.Address.{bit_block};
ghost use Rattle.address.specs.Limits.{max_blocks};
ghost use Rattle.image.specs.Rules.{map_at};
ghost use Rattle.meta.specs.Addressed.{Addressed};
ghost use Rattle.reader.specs.Known.{Known2};

use address::bit_block;
use image::Meta;
use store::block_at;

// The number of overflow bits that are made: spares[s].
pub fn top_of(m: Meta) -> u32
    requires { Addressed max_blocks m }
    ensures { result ≡ get_or m.spares m.point 0 }
{
    let spares = m.spares;
    let point = m.point;
    spares[point as usize]
}

// The block of overflow bit `n`.
pub fn home_of_bit(m: Meta, n: u32) -> u32
    requires { (Addressed max_blocks m) × (n < get_or m.spares m.point 0) }
    ensures { result ≡ bit_block m.spares m.point n }
{
    let spares = m.spares;
    bit_block(spares, m.point, n)
}

// The bitmap's page.
pub fn map_of(store: &[u8], m: Meta) -> &[u8]
    requires { Known2 store.now m }
    ensures { result.now ≡ map_at store.now }
{
    block_at(store, home_of_bit(m, 0) as usize)
}
