// Puts an entry into a page, or takes one out: the later entries move by one slot.
ghost use Rattle.std.specs.Prelude.{◌≡◌, List, ℕ, ◌+◌, ◌≤◌, length};
ghost use Rattle.page.specs.Entries.{encode_page};
ghost use Rattle.page.specs.Places.{remove_at, insert_at};
ghost use Rattle.page.specs.Gap.{opened, closed, Room, Held};

use crate::Entry;
use crate::slots::{count_entries, put_entry};
use endian::put_u16;

// Moves the bytes from `from` up to `to` twelve places up.
fn open_gap(p: &mut [u8], from: usize, to: usize)
    requires { (from ≤ to) × (to + 12 ≤ length p.old) }
    ensures { p.new ≡ opened p.old from to }
{
    p.copy_within(from..to, from + 12);
}

// Moves the bytes from `from + 12` up to `to` twelve places down.
fn close_gap(p: &mut [u8], from: usize, to: usize)
    requires { (from + 12 ≤ to) × (to ≤ length p.old) }
    ensures { p.new ≡ closed p.old from to }
{
    p.copy_within(from + 12..to, from);
}

// Puts `e` into slot `k`, and the entries from there on one slot up.
pub fn insert_entry(p: &mut [u8], k: usize, e: Entry)
    requires { Room p.old k }
    ensures { (es : List Entry) (tail : List ℕ) → p.old ≡ encode_page es tail
        → p.new ≡ encode_page (insert_at k e es) tail }
{
    let n = count_entries(p);
    open_gap(p, 4 + 12 * k, 4 + 12 * n);
    put_entry(p, k, e);
    put_u16(p, 0, (n + 1) as u16);
}

// Takes the entry out of slot `k`, and the entries after it one slot down.
pub fn remove_entry(p: &mut [u8], k: usize)
    requires { Held p.old k }
    ensures { (es : List Entry) (tail : List ℕ) → p.old ≡ encode_page es tail
        → p.new ≡ encode_page (remove_at k es) tail }
{
    let n = count_entries(p);
    let last = n - 1;
    close_gap(p, 4 + 12 * k, 4 + 12 * n);
    put_entry(p, last, Entry::default());
    put_u16(p, 0, last as u16);
}
