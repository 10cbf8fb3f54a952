// Lookup: the matches of a hash code written out. The pages of its chains are merged, from the first place of the hash
// code on.
ghost use Rattle.std.specs.Prelude.{◌≡◌, true, cond, suc, ◌+◌, ◌-◌, ◌%◌, ◌/◌, ◌≤◌, ◌<◌, length};
ghost use Rattle.std.proofs.lemmas.List.Edits.{sets};
ghost use Rattle.lists.specs.Block.{blocks};
ghost use Rattle.address.specs.Limits.{max_blocks};
ghost use Rattle.model.specs.Held.{sorted};
ghost use Rattle.model.specs.Calls.{place_bytes, lookup};
ghost use Rattle.image.specs.Decode.{decode};
ghost use Rattle.chain.specs.Within.{PagesOk, Within};
ghost use Rattle.chain.specs.Pairs.{counts};
ghost use Rattle.chain.specs.Along.{pairs_along};
ghost use Rattle.merge.specs.Heads.{pair_from, first_at, page_at, Pages, left_of, Underway};
ghost use Rattle.view.specs.Reads.{Reads};
ghost use Rattle.view.specs.Left.{pairs_left, fresh_at, NoLower, Told};
ghost use Rattle.view.specs.Lookup.{written, Listable};

use crate::held::walk_sources;
use chain::along::count_along;
use chain::links::zero_walk;
use endian::{put_u16, put_u32};
use image::Meta;
use merge::walks::join_walks;
use merge::{First, Merge};
use model::{LookupAnswer, Refusal};
use page::Pair;

// Writes a reading's place, six bytes.
fn put_place(output: &mut [u8], at: usize, p: Pair)
    requires { at + 6 ≤ length output.old }
    ensures { output.new ≡ sets output.old at (place_bytes p) }
{
    put_u32(output, at, p.block);
    put_u16(output, at + 4, p.offset);
}

// Whether only the unmoved entries of page `j` count: where `fresh`, those of the first `n`, the own ones.
fn is_fresh(fresh: bool, n: usize, j: usize) -> bool
    ensures { result ≡ fresh_at fresh n j }
{
    if j < n { fresh } else { false }
}

// Whether what comes first, on the page in block `block`, counts. The page is read only where a moved one does not.
fn is_counted(store: &[u8], first: First, block: u32, fresh: bool) -> bool
    requires { (block < blocks store.now) × (first.tail % 64 < 40) }
    ensures { result ≡ counts fresh (first_at store.now block first.tail) }
{
    if !fresh {
        return true;
    }
    !first.is_moved(store, block)
}

// Writes the place of what comes first, if it counts, and gives the place in the output of what comes next.
fn put_match(
    store: &[u8],
    output: &mut [u8],
    first: First,
    block: u32,
    fresh: bool,
    at: usize,
) -> usize
    requires told { Told store.now block first.key first.tail }
    requires at_in_bounds { counts fresh (first_at store.now block first.tail) ≡ true → at + 6 ≤ length output.old }
    ensures { (output.new ≡ cond (counts fresh (first_at store.now block first.tail))
        (sets output.old at (place_bytes (pair_from first.key (first.tail / 64)))) output.old)
        × (result ≡ cond (counts fresh (first_at store.now block first.tail)) (at + 6) at) }
{
    if !is_counted(store, first, block, fresh) {
        return at;
    }
    put_place(output, at, first.pair());
    at + 6
}

// Writes the places of the matches that are left in a merge, the first `own` of whose pages are own ones, for which
// there is room.
fn put_left(
    merge: &mut Merge,
    store: &[u8],
    pages: &[u32],
    own: usize,
    output: &mut [u8],
    hash: u32,
    fresh: bool,
)
    requires underway { (Underway store.now pages.now merge.old) × (1 ≤ length pages.now) × (own ≤ length pages.now) }
    requires no_lower { NoLower (left_of store.now pages.now merge.old.tails) (length pages.now) hash }
    requires room { Listable (pairs_left (left_of store.now pages.now merge.old.tails) own
        (length pages.now - own) hash fresh) output.old }
    ensures { output.new ≡ written (sorted (pairs_left (left_of store.now pages.now merge.old.tails) own
        (length pages.now - own) hash fresh)) output.old }
{
    let mut at = 0;
    while let Some(first) = merge.first() {
        if first.key / 4294967296 != hash as u64 {
            return;
        }
        let block = pages[first.page];
        merge.take_first(store, pages);
        let only = is_fresh(fresh, own, first.page);
        at = put_match(store, output, first, block, only, at);
    }
}

// Writes the places of the matches on pages, the first `own` of which are own ones, for which there is room. The merge
// is made here and in no caller, so that it stands on the stack while it runs alone.
fn put_pages(store: &[u8], pages: &[u32], own: usize, output: &mut [u8], hash: u32, fresh: bool)
    requires { (Pages store.now pages.now (length pages.now)) × (1 ≤ own) × (own ≤ length pages.now)
        × (Listable (pairs_left (page_at store.now pages.now) own (length pages.now - own) hash fresh) output.old) }
    ensures { output.new ≡ written (sorted (pairs_left
        (page_at store.now pages.now) own (length pages.now - own) hash fresh)) output.old }
{
    let mut merge = Merge::new();
    let from = Pair {
        hash,
        block: 0,
        offset: 0,
    };
    merge.start(store, pages, from);
    put_left(&mut merge, store, pages, own, output, hash, fresh);
}

// Writes the places of the matches along two walks, for which there is room. One walk alone is merged where it lies.
fn put_matches(store: &[u8], own: &[u32], old: &[u32], output: &mut [u8], hash: u32, fresh: bool)
    requires own_walk { (Within store.now own.now) × (PagesOk store.now own.now) }
    requires old_walk { (Within store.now old.now) × (PagesOk store.now old.now) }
    requires sizes { (1 ≤ length own.now) × (length own.now + length old.now ≤ suc max_blocks) }
    requires room { Listable (pairs_along store.now own.now old.now hash fresh) output.old }
    ensures { output.new ≡ written (sorted (pairs_along store.now own.now old.now hash fresh)) output.old }
{
    let n = own.len();
    if old.is_empty() {
        put_pages(store, own, n, output, hash, fresh);
        return;
    }
    let pages = join_walks(own, old);
    put_pages(store, &pages[..n + old.len()], n, output, hash, fresh);
}

pub fn lookup_in(store: &[u8], m: Meta, hash: u32, output: &mut [u8]) -> LookupAnswer
    requires { Reads store.now m }
    ensures { lookup (decode store.now) hash output.old
        ≡ record { answer = result; output = output.new } }
{
    let mut own = zero_walk();
    let mut old = zero_walk();
    let walks = walk_sources(store, &mut own, &mut old, m, hash);
    let n = walks.own;
    let k = walks.old;
    let matches = count_along(store, &own[..n], &old[..k], hash, walks.fresh);
    if output.len() / 6 < matches as usize {
        return Err(Refusal::OutputShort { matches });
    }
    put_matches(store, &own[..n], &old[..k], output, hash, walks.fresh);
    Ok(matches)
}
