// What a store is: of bad length, damaged, not an index, or sound. The rules one by one stand in the crates `meta` (1
// and 2), `shape` (3, 4 and 6) and `entries` (5, 7 and 8).
#![tactic(auto)]

ghost use Rattle.std.specs.Prelude.{◌≡◌, true, cond, Ok, Err};
ghost use Rattle.image.specs.Rules.{rule1, lowest_broken, verdict};
ghost use Rattle.outcomes.specs.Outcomes.{verdict_of, verify_outcome};
ghost use Rattle.image.specs.Rules.{length_ok};
ghost use Rattle.reader.specs.Known.{Known2};
ghost use Rattle.verify.specs.Tests.{tested_as};

use address::limits::MAX_BLOCKS;
use entries::counts::check_counts;
use entries::pages::check_pages;
use entries::places::check_places;
use image::{Meta, Verdict};
use meta::{check_front, check_meta, read_meta};
use shape::bits::check_bits;
use shape::links::check_links;
use shape::roles::check_roles;
use store::{block_at, check_block, number_at};

// Whether a store has a legal length: refusal 1.
pub fn check_length(store: &[u8]) -> bool
    ensures { result ≡ length_ok store.now }
{
    if store.len() % 512 != 0 {
        return false;
    }
    let size = store.len() / 512;
    4 <= size && size <= MAX_BLOCKS
}

// Fails with the rule's number, unless it holds.
fn keeps(rule: u32, holds: bool) -> Result<(), u32>
    ensures { result ≡ cond holds (Ok tt) (Err rule) }
{
    if holds { Ok(()) } else { Err(rule) }
}

// Fails with the lowest broken rule; the first two are tested already.
fn judge_blocks(store: &[u8], m: Meta) -> Result<(), u32>
    requires { (rule1 store.now ≡ true) × (Known2 store.now m) }
    ensures { result ≡ tested_as (lowest_broken store.now) }
{
    keeps(3, check_roles(store, m))?;
    keeps(4, check_links(store, m))?;
    keeps(5, check_pages(store, m))?;
    keeps(6, check_bits(store, m))?;
    keeps(7, check_places(store, m))?;
    keeps(8, check_counts(store, m))
}

// Fails with the lowest broken rule.
fn judge_rules(store: &[u8]) -> Result<(), u32>
    requires { length_ok store.now ≡ true }
    ensures { result ≡ tested_as (lowest_broken store.now) }
{
    let part = block_at(store, 0);
    let size = (store.len() / 512) as u32;
    keeps(1, check_front(part, size))?;
    let m = read_meta(part);
    keeps(2, check_meta(m, size))?;
    judge_blocks(store, m)
}

// What a store of legal length is: damaged at its lowest such block, not an index by its lowest broken rule, or sound.
fn judge(store: &[u8]) -> Verdict
    requires { length_ok store.now ≡ true }
    ensures { result ≡ verdict_of (verdict store.now) }
{
    let number = number_at(store);
    for block in 0..(store.len() / 512) as u32 {
        if !check_block(block_at(store, block as usize), number, block) {
            return Verdict::Damaged { block };
        }
    }
    match judge_rules(store) {
        Ok(()) => Verdict::Sound,
        Err(rule) => Verdict::NotIndex { rule },
    }
}

// What a store is.
pub fn verify(store: &[u8]) -> Verdict
    ensures { result ≡ verify_outcome store.now }
{
    if !check_length(store) {
        return Verdict::BadLength;
    }
    judge(store)
}
