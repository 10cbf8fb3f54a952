// The meta block: its fields read and written, and rules 1 and 2 as tests on 512 bytes and on the fields.
#![tactic(auto)]

ghost use Rattle.std.specs.Prelude.{◌≡◌, ◌++◌, suc, ◌+◌, ◌-◌, ◌*◌, ◌≤◌, length, drop};
ghost use Rattle.std.proofs.lemmas.List.Edits.{sets};
ghost use Rattle.lists.specs.Lists.{all, bind, up_from};
ghost use Rattle.lists.specs.Bytes.{all_zero};
ghost use Rattle.endian.specs.Endian.{le32};
ghost use Rattle.model.specs.Calls.{fill_ok};
ghost use Rattle.image.specs.Layout.{meta_front};
ghost use Rattle.image.specs.Decode.{words_at, read_meta};
ghost use Rattle.image.specs.Rules.{front_ok, spares_ok, meta_ok};
ghost use Rattle.meta.specs.Spares.{rises};

use address::{high_mask, low_mask, made_blocks, point_of};
use endian::raw::is_zero;
use endian::{get_u16, get_u32, put_u32};
use image::Meta;

// The sixteen spares of a meta block.
fn read_spares(part: &[u8]) -> [u32; 16]
    requires { length part.now ≡ 512 }
    ensures { result ≡ words_at part.now 40 16 }
{
    let mut spares = [0u32; 16];
    for i in 0..16 {
        spares[i] = get_u32(part, 40 + 4 * i);
    }
    spares
}

// The fields of a meta block.
pub fn read_meta(part: &[u8]) -> Meta
    requires { length part.now ≡ 512 }
    ensures { result ≡ read_meta part.now }
{
    let spares = read_spares(part);
    Meta {
        count: get_u32(part, 8),
        fill: get_u16(part, 12),
        max: get_u32(part, 16),
        high: get_u32(part, 20),
        low: get_u32(part, 24),
        point: get_u32(part, 28),
        free: get_u32(part, 32),
        size: get_u32(part, 36),
        spares,
        number: get_u32(part, 104),
    }
}

// Writes numbers of four bytes each, from place `at` on.
fn put_words(part: &mut [u8], at: usize, words: &[u32])
    requires { at + 4 * length words.now ≤ length part.old }
    ensures { part.new ≡ sets part.old at (bind words.now le32) }
{
    for (i, word) in words.iter().enumerate() {
        put_u32(part, at + 4 * i, *word);
    }
}

// Writes bytes 0..491 of a meta block.
pub fn put_meta(part: &mut [u8], m: Meta)
    requires { length part.old ≡ 512 }
    ensures { part.new ≡ meta_front m ++ drop 492 part.old }
{
    let head = [
        0x0644_0640,
        512,
        m.count,
        u32::from(m.fill),
        m.max,
        m.high,
        m.low,
        m.point,
        m.free,
        m.size,
    ];
    put_words(part, 0, &head);
    put_words(part, 40, &m.spares);
    put_u32(part, 104, m.number);
    part[108..492].fill(0);
}

// Rule 1, of the bytes of a meta block in a store of `size` blocks.
pub fn check_front(part: &[u8], size: u32) -> bool
    requires { length part.now ≡ 512 }
    ensures { result ≡ front_ok size part.now }
{
    get_u32(part, 0) == 0x0644_0640
        && get_u32(part, 4) == 512
        && get_u32(part, 36) == size
        && is_zero(part, 14, 16)
        && is_zero(part, 108, 492)
}

// Whether the spares from 1 to `s` do not fall.
fn check_rising(spares: [u32; 16], s: u32) -> bool
    requires { s ≤ 15 }
    ensures { result ≡ all (rises spares) (up_from 1 (s - 1)) }
{
    for i in 1..s as usize {
        if spares[i + 1] < spares[i] {
            return false;
        }
    }
    true
}

// Whether the spares above `s` are zero.
fn check_above(spares: [u32; 16], s: u32) -> bool
    requires { s ≤ 15 }
    ensures { result ≡ all_zero (drop (suc s) spares) }
{
    spares[s as usize + 1..].iter().all(|x| *x == 0)
}

// The spares of rule 2, at overflow point `s`.
fn check_spares(spares: [u32; 16], s: u32) -> bool
    requires { s ≤ 15 }
    ensures { result ≡ spares_ok s spares }
{
    spares[0] == 0 && 1 <= spares[1] && check_rising(spares, s) && check_above(spares, s)
}

// Whether a format's or a meta block's fill is good.
pub fn check_fill(fill: u32) -> bool
    ensures { result ≡ fill_ok fill }
{
    1 <= fill && fill <= 40
}

// Rule 2, of the fields of a meta block in a store of `size` blocks. Sixteen spares cannot pass it at a point above 15.
pub fn check_meta(m: Meta, size: u32) -> bool
    ensures { result ≡ meta_ok size m }
{
    let s = point_of(m.max);
    check_fill(u32::from(m.fill))
        && 1 <= m.max
        && m.high == high_mask(m.max)
        && m.low == low_mask(m.max)
        && m.point == s
        && s <= 15
        && check_spares(m.spares, s)
        && made_blocks(m.spares, s) <= u64::from(size)
}
