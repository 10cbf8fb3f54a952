// Rule 6: the bits and zero bytes of the bitmap, and first free.
ghost use Rattle.std.specs.Prelude.{◌≡◌, ◌<◌};
ghost use Rattle.lists.specs.Lists.{all, up_from};
ghost use Rattle.image.specs.Rules.{map_at, top_at, free_at, bit_ok, first_free_ok, rule6};
ghost use Rattle.reader.specs.Known.{Known2};

use chain::bitmap::{all_ones, bit_of, lowest_free};
use endian::raw::is_zero;
use image::Meta;
use reader::bits::{home_of_bit, map_of, top_of};
use reader::roles::is_overflow;

// Whether overflow bit `n`, a made one, is free: not the bitmap's, and no overflow page's.
fn is_free(store: &[u8], m: Meta, n: u32) -> bool
    requires { (Known2 store.now m) × (n < top_at store.now) }
    ensures { result ≡ free_at store.now n }
{
    if n == 0 {
        return false;
    }
    !is_overflow(store, m, home_of_bit(m, n))
}

// Whether bit `n` of the bitmap, a made one, is 0 exactly if it is free.
fn check_bit(store: &[u8], map: &[u8], m: Meta, n: u32) -> bool
    requires known2 { (Known2 store.now m) × (map.now ≡ map_at store.now) }
    requires n_bound { n < top_at store.now }
    ensures { result ≡ bit_ok store.now n }
{
    let clear = bit_of(map, n) == 0;
    clear == is_free(store, m, n)
}

// Whether every made bit of the bitmap is right.
fn check_made(store: &[u8], map: &[u8], m: Meta) -> bool
    requires { (Known2 store.now m) × (map.now ≡ map_at store.now) }
    ensures { result ≡ all (bit_ok store.now) (up_from 0 (top_at store.now)) }
{
    let top = top_of(m);
    for n in 0..top {
        if !check_bit(store, map, m, n) {
            return false;
        }
    }
    true
}

// Whether every bit of the bitmap is right. No bit past the made ones is free.
fn check_map(store: &[u8], m: Meta) -> bool
    requires { Known2 store.now m }
    ensures { result ≡ all (bit_ok store.now) (up_from 0 2048) }
{
    let map = map_of(store, m);
    if !check_made(store, map, m) {
        return false;
    }
    all_ones(map, top_of(m))
}

// Whether first free is the lowest 0 bit or, without one, the number of bits that are made.
fn check_first(store: &[u8], m: Meta) -> bool
    requires { Known2 store.now m }
    ensures { result ≡ first_free_ok store.now }
{
    match lowest_free(map_of(store, m)) {
        Some(n) => m.free == n,
        None => m.free == top_of(m),
    }
}

// Rule 6.
pub fn check_bits(store: &[u8], m: Meta) -> bool
    requires { Known2 store.now m }
    ensures { result ≡ rule6 store.now }
{
    if !check_map(store, m) {
        return false;
    }
    if !is_zero(map_of(store, m), 256, 492) {
        return false;
    }
    check_first(store, m)
}
