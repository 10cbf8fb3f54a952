// The pages that stand in chains, by the meta block's fields and the bitmap: each bucket has its own, and each overflow
// bit that is made and 1 has one, but the bitmap's bit 0.
ghost use Rattle.std.specs.Prelude.{◌≡◌, ◌≤◌, length};
ghost use Rattle.image.specs.Decode.{decode};
ghost use Rattle.view.specs.Reads.{Reads};
ghost use Rattle.gauge.specs.Gauge.{pages};
ghost use Rattle.gauge.specs.Ones.{ones_in};

use chain::bitmap::bit_of;
use image::Meta;
use reader::bits::{map_of, top_of};

// How many of the first `top` bits are 1.
fn count_ones(map: &[u8], top: u32) -> u32
    requires { (length map.now ≡ 512) × (top ≤ 2048) }
    ensures { result ≡ ones_in map.now top }
{
    let mut ones: u32 = 0;
    for n in 0..top {
        ones += bit_of(map, n) as u32;
    }
    ones
}

// The number of pages that stand in chains.
pub fn count_pages(store: &[u8], m: Meta) -> u32
    requires { Reads store.now m }
    ensures { result ≡ pages (decode store.now) }
{
    let ones = count_ones(map_of(store, m), top_of(m));
    m.max + ones
}
