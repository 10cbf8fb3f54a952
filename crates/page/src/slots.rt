// The entries of a page, one at a time.
ghost use Rattle.std.specs.Prelude.{◌≡◌, ◌+◌, ◌*◌, ◌≤◌, ◌<◌, length};
ghost use Rattle.std.proofs.lemmas.List.Edits.{sets};
ghost use Rattle.endian.specs.Endian.{u16_at};
ghost use Rattle.page.specs.Entries.{entry_flags, encode_entry, read_entry, entry_at};

use crate::{Entry, Pair};
use endian::{get_u16, get_u32, put_u16, put_u32};

// The number of entries that `p` says it has.
pub fn count_entries(p: &[u8]) -> usize
    requires { length p.now ≡ 512 }
    ensures { result ≡ u16_at p.now 0 }
{
    usize::from(get_u16(p, 0))
}

// The entry whose twelve bytes begin at place `at`.
pub fn read_entry(l: &[u8], at: usize) -> Entry
    requires { at + 12 ≤ length l.now }
    ensures { result ≡ read_entry l.now at }
{
    Entry {
        pair: Pair {
            hash: get_u32(l, at),
            block: get_u32(l, at + 4),
            offset: get_u16(l, at + 8),
        },
        moved: get_u16(l, at + 10) == 0x2000,
    }
}

// The entry in slot `k`.
pub fn get_entry(p: &[u8], k: usize) -> Entry
    requires { (k < 40) × (length p.now ≡ 512) }
    ensures { result ≡ entry_at p.now k }
{
    read_entry(p, 4 + 12 * k)
}

// The hash code of the entry in slot `k`.
pub fn get_code(p: &[u8], k: usize) -> u32
    requires { (k < 40) × (length p.now ≡ 512) }
    ensures { result ≡ (entry_at p.now k).pair.hash }
{
    get_u32(p, 4 + 12 * k)
}

fn entry_flags(moved: bool) -> u16
    ensures { result ≡ entry_flags moved }
{
    if moved { 0x2000 } else { 0 }
}

// Writes `e` into slot `k`.
pub fn put_entry(p: &mut [u8], k: usize, e: Entry)
    requires { (k < 40) × (length p.old ≡ 512) }
    ensures { p.new ≡ sets p.old (4 + 12 * k) (encode_entry e) }
{
    let at = 4 + 12 * k;
    put_u32(p, at, e.pair.hash);
    put_u32(p, at + 4, e.pair.block);
    put_u16(p, at + 8, e.pair.offset);
    put_u16(p, at + 10, entry_flags(e.moved));
}
