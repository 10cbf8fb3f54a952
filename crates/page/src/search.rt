// The search in a page whose entries ascend: the run of a hash code, and the sorted place of a pair.
ghost use Rattle.std.specs.Prelude.{◌≡◌, true, ◌+◌, ◌≤◌};
ghost use Rattle.endian.specs.Endian.{u16_at};
ghost use Rattle.page.specs.Entries.{entries_of};
ghost use Rattle.page.specs.Places.{place_of};
ghost use Rattle.page.specs.Run.{run_length, run_start, run_of, bytes_with_code};
ghost use Rattle.page.specs.Rule.{page_ok};
ghost use Rattle.page.specs.Allowed.{Sorted};

use crate::Pair;
use crate::bisection::bisect;
use crate::run::place_in_run;
use crate::slots::{count_entries, get_code};

// The number of entries whose hash code is below `code`; the caller knows that it is `low` or more. The ends are tried
// first: runs of one entry, and of the whole page, need no bisection to find their end.
fn codes_below(p: &[u8], low: usize, code: u64) -> usize
    requires { (Sorted p.now) × (low ≤ run_start code (entries_of p.now)) × (code ≤ 4294967296) }
    ensures { result ≡ run_start code (entries_of p.now) }
{
    let high = count_entries(p);
    if high <= low {
        return high;
    }
    if code <= u64::from(get_code(p, low)) {
        return low;
    }
    if u64::from(get_code(p, high - 1)) < code {
        return high;
    }
    bisect(low, high, code, |k| u64::from(get_code(p, k)))
}

// The number of entries before the run of the hash code `h`, or before its sorted place if no entry has the code.
pub fn entries_before(p: &[u8], h: u32) -> usize
    requires { Sorted p.now }
    ensures { result ≡ run_start h (entries_of p.now) }
{
    codes_below(p, 0, u64::from(h))
}

// The slot after the run of the hash code `h`, which begins in slot `start`.
fn run_end(p: &[u8], start: usize, h: u32) -> usize
    requires { (Sorted p.now) × (start ≡ run_start h (entries_of p.now)) }
    ensures { result ≡ run_start h (entries_of p.now) + run_length h (entries_of p.now) }
{
    if start < count_entries(p) && get_code(p, start) == h {
        return codes_below(p, start + 1, u64::from(h) + 1);
    }
    start
}

// The run of the hash code `h`, which begins in slot `start`.
fn run_from(p: &[u8], start: usize, h: u32) -> &[u8]
    requires { (Sorted p.now) × (start ≡ run_start h (entries_of p.now)) }
    ensures { result.now ≡ run_of h p.now }
{
    let end = run_end(p, start, h);
    &p[4 + 12 * start..4 + 12 * end]
}

// The run of the hash code `h`: a part of the page, and where the page keeps the page rule, the bytes of the entries
// that have the code. It is empty if none has; `entries_before` tells where.
pub fn find_run(p: &[u8], h: u32) -> &[u8]
    requires { Sorted p.now }
    ensures { (result.now ≡ run_of h p.now)
        × (page_ok p.now ≡ true → result.now ≡ bytes_with_code h p.now) }
{
    let start = entries_before(p, h);
    run_from(p, start, h)
}

// The sorted place of `x`: the number of entries before it. It lies in the run of its hash code, or at its end.
pub fn find_place(p: &[u8], x: Pair) -> usize
    requires { Sorted p.now }
    ensures { result ≡ place_of x (entries_of p.now) }
{
    let start = entries_before(p, x.hash);
    start + place_in_run(run_from(p, start, x.hash), x)
}
