// The page rule as a test on 512 bytes, part by part.
ghost use Rattle.std.specs.Prelude.{◌≡◌, not, ◌&&◌, ◌<◌, length};
ghost use Rattle.page.specs.Pair.{bad_pair};
ghost use Rattle.page.specs.Entries.{entry_at};
ghost use Rattle.page.specs.Rule.{number_ok, flags_ok, numbers_ok, order_ok, rest_zero, page_ok};
ghost use Rattle.page.specs.Allowed.{Numbered};

use crate::order::{is_bad, is_before};
use crate::slots::{count_entries, get_entry};
use endian::get_u16;
use endian::raw::is_zero;

// Whether there are at most 40 entries.
fn check_number(p: &[u8]) -> bool
    requires { length p.now ≡ 512 }
    ensures { result ≡ number_ok p.now }
{
    count_entries(p) <= 40
}

// Whether the bytes of the page that no entry uses are zero.
fn check_rest(p: &[u8]) -> bool
    requires { Numbered p.now }
    ensures { result ≡ rest_zero p.now }
{
    get_u16(p, 2) == 0 && is_zero(p, 4 + 12 * count_entries(p), 492)
}

// Whether the entry in slot `k` may have its numbers and flags.
fn check_slot(p: &[u8], k: usize) -> bool
    requires { (k < 40) × (length p.now ≡ 512) }
    ensures { result ≡ not (bad_pair (entry_at p.now k).pair) && flags_ok p.now k }
{
    let flags = get_u16(p, 4 + 12 * k + 10);
    !is_bad(get_entry(p, k).pair) && (flags == 0 || flags == 0x2000)
}

// Whether every entry may have its numbers and flags.
fn check_numbers(p: &[u8]) -> bool
    requires { Numbered p.now }
    ensures { result ≡ numbers_ok p.now }
{
    for k in 0..count_entries(p) {
        if !check_slot(p, k) {
            return false;
        }
    }
    true
}

// Whether each entry stands before the next.
fn check_order(p: &[u8]) -> bool
    requires { Numbered p.now }
    ensures { result ≡ order_ok p.now }
{
    for k in 1..count_entries(p) {
        if !is_before(get_entry(p, k - 1).pair, get_entry(p, k).pair) {
            return false;
        }
    }
    true
}

// Whether the 512 bytes are a page.
pub fn check_page(p: &[u8]) -> bool
    requires { length p.now ≡ 512 }
    ensures { result ≡ page_ok p.now }
{
    check_number(p) && check_rest(p) && check_numbers(p) && check_order(p)
}
