// What the run of a hash code tells: its entries, and the place of a pair among them.
ghost use Rattle.std.specs.Prelude.{◌≡◌, ◌+◌, ◌*◌, ◌^◌, ◌≤◌, ◌<◌, length};
ghost use Rattle.page.specs.Entries.{read_entry};
ghost use Rattle.page.specs.Places.{place_of, run_entries, reading_key};
ghost use Rattle.page.specs.Allowed.{OneCode};

use crate::bisection::bisect;
use crate::slots::read_entry;
use crate::{Entry, Pair};
use endian::{get_u16, get_u32};

// The number of entries.
pub fn count_run(run: &[u8]) -> usize
    ensures { result ≡ length (run_entries run.now) }
{
    run.len() / 12
}

// Entry `k`.
pub fn run_entry(run: &[u8], k: usize) -> Entry
    requires { 12 * k + 12 ≤ length run.now }
    ensures { result ≡ read_entry run.now (12 * k) }
{
    read_entry(run, 12 * k)
}

// Block and offset of entry `k` as one number, by which the entries of a run ascend.
fn reading_key(run: &[u8], k: usize) -> u64
    requires { 12 * k + 12 ≤ length run.now }
    ensures { (result ≡ reading_key (read_entry run.now (12 * k)).pair) × (result < 2 ^ 48) }
{
    u64::from(get_u32(run, 12 * k + 4)) * 65536 + u64::from(get_u16(run, 12 * k + 8))
}

// The number of entries before `x`.
pub fn place_in_run(run: &[u8], x: Pair) -> usize
    requires { OneCode x.hash run.now }
    ensures { result ≡ place_of x (run_entries run.now) }
{
    let key = u64::from(x.block) * 65536 + u64::from(x.offset);
    bisect(0, count_run(run), key, |k| reading_key(run, k))
}
