// An entry put into a bucket's chain: into the first page with room, else into a page at the chain's end.
ghost use Rattle.std.specs.Prelude.{◌≡◌, true, false, ℕ, ◌*◌, ◌≤◌, ◌<◌, length, None};
ghost use Rattle.std.proofs.Math.Option.{some};
ghost use Rattle.lists.specs.Lists.{any};
ghost use Rattle.lists.specs.Block.{blocks, block};
ghost use Rattle.address.specs.Address.{point, made};
ghost use Rattle.page.specs.Pair.{is};
ghost use Rattle.model.specs.Index.{Index, chain, entries_at, top_bit};
ghost use Rattle.model.specs.Pages.{chain_room, put};
ghost use Rattle.model.specs.Held.{count};
ghost use Rattle.model.specs.WellFormed.{WF};
ghost use Rattle.image.specs.Decode.{decode};
ghost use Rattle.frame.specs.Frame.{map_block};
ghost use Rattle.frame.specs.ChainLaws.{Free as IsFree};
ghost use Rattle.frame.specs.FreshLaws.{more_spares};
ghost use Rattle.chain.specs.Bitmap.{free_or, lowest_free};
ghost use Rattle.draft.specs.Bits.{put_bit};
ghost use Rattle.view.specs.Reads.{Reads};
ghost use Rattle.plan.specs.Plan.{Plans, Places};
ghost use Rattle.insertion.specs.Put.{last_block, entered, extended, InRoom, AtEnd, Linked};

use address::{bit_block, made_blocks};
use chain::Room;
use chain::bitmap::lowest_free;
use draft::edit::{put_bit, put_fields, put_next};
use draft::pages::{insert_at, write_page};
use draft::trim::drop_unchanged;
use draft::{Draft, clear};
use image::Meta;
use page::Entry;
use page::search::find_place;
use plan::with_fields;
use store::flags::{NO_LINK, OVERFLOW};
use store::{Trailer, block_at};
use view::chains::room_in;

// Puts the entry into the page in block `k`, the first with room in a chain.
fn put_in_page(draft: &mut Draft, store: &[u8], m: Meta, k: u32, e: Entry, held: u32)
    requires { (b : ℕ) × InRoom store.now m k e held b }
    ensures { (b : ℕ) → InRoom store.now m k e held b
        → Plans store.now draft.new.change draft.new.images (entered (decode store.now) b e) }
{
    let slot = find_place(block_at(store, k as usize), e.pair);
    clear(draft);
    insert_at(draft, store, k, slot, e);
    put_fields(draft, store, with_fields(m, held, m.free, m.spares));
    drop_unchanged(draft, store);
}

// Makes block `k` a page of the one entry, after the page in block `last`.
fn link_page(draft: &mut Draft, store: &[u8], b: u32, last: u32, k: u32, e: Entry)
    requires store_len { length store.now ≡ 512 * blocks store.now }
    requires last_bound { (last < blocks store.now) × (k < blocks store.now) }
    ensures { Linked store.now b last k e draft.new.change draft.new.images }
{
    clear(draft);
    put_next(draft, store, last, k);
    let trailer = Trailer {
        prev: last,
        next: NO_LINK,
        bucket: b,
        flags: OVERFLOW,
    };
    write_page(draft, store, k, e, trailer);
}

// The lowest free bit of a bitmap after bit `n` is taken, `top` without one.
fn next_free(map: &[u8], n: u32, top: u32) -> u32
    requires { (length map.now ≡ 512) × (n < 2048) }
    ensures { result ≡ free_or top (lowest_free (put_bit map.now n true)) }
{
    let mut part = [0u8; 512];
    part.copy_from_slice(map);
    let at = (n / 8) as usize;
    part[at] = part[at] | (1u8 << (n % 8));
    lowest_free(&part).unwrap_or(top)
}

// Puts the entry into the free page of overflow bit `n`, after the page in block `last`.
fn put_in_free(
    draft: &mut Draft,
    store: &[u8],
    m: Meta,
    b: u32,
    last: u32,
    n: u32,
    e: Entry,
    held: u32,
)
    requires at_end { AtEnd store.now m b last e held (decode store.now).spares n }
    requires free { IsFree (decode store.now) n }
    ensures { Plans store.now draft.new.change draft.new.images
        (extended (decode store.now) (decode store.now).spares b n e) }
{
    let spares = m.spares;
    let s = m.point as usize;
    let top = spares[s];
    let map = bit_block(spares, m.point, 0);
    let k = bit_block(spares, m.point, n);
    link_page(draft, store, b, last, k, e);
    put_bit(draft, store, map, n, true);
    let free = next_free(block_at(store, map as usize), n, top);
    put_fields(draft, store, with_fields(m, held, free, spares));
    drop_unchanged(draft, store);
}

// Puts the entry into the next block past the made ones, after the page in block `last`.
fn put_in_fresh(draft: &mut Draft, store: &[u8], m: Meta, b: u32, last: u32, e: Entry, held: u32)
    requires at_end { AtEnd store.now m b last e held (more_spares (decode store.now)) (top_bit (decode store.now)) }
    requires store_bound { (made (decode store.now).spares (point (decode store.now).max_bucket) < (decode store.now).size)
        × (lowest_free (block store.now (map_block (decode store.now))) ≡ None) }
    ensures { Plans store.now draft.new.change draft.new.images
        (extended (decode store.now) (more_spares (decode store.now)) b
        (top_bit (decode store.now)) e) }
{
    let mut spares = m.spares;
    let s = m.point as usize;
    let k = made_blocks(spares, m.point) as u32;
    let top = spares[s] + 1;
    spares[s] = top;
    link_page(draft, store, b, last, k, e);
    put_fields(draft, store, with_fields(m, held, top, spares));
    drop_unchanged(draft, store);
}

// Puts the entry into a page at the end of bucket `b`'s chain, which has no room; its last page is in block `last`.
fn put_at_end(
    draft: &mut Draft,
    store: &[u8],
    m: Meta,
    b: u32,
    last: u32,
    e: Entry,
    held: u32,
) -> bool
    requires reads { (Reads store.now m) × (b ≤ m.max) }
    requires b_value { (chain_room (chain (decode store.now) b) ≡ false)
        × (last ≡ last_block (decode store.now) b) }
    requires wf { (y : Index) → put (decode store.now) b e ≡ some y → (WF y) × (count y ≡ held) }
    ensures { Places store.now draft.new.change draft.new.images (put (decode store.now) b e) result }
{
    let spares = m.spares;
    let map = bit_block(spares, m.point, 0);
    if let Some(n) = lowest_free(block_at(store, map as usize)) {
        put_in_free(draft, store, m, b, last, n, e, held);
        return true;
    }
    if made_blocks(spares, m.point) < m.size as u64 {
        put_in_fresh(draft, store, m, b, last, e, held);
        return true;
    }
    clear(draft);
    false
}

// Plans the entry into bucket `b`'s chain: the first page with room, else a page taken at the chain's end, else no
// room, which it tells. `held` is the count of held pairs afterwards.
pub fn plan_put(draft: &mut Draft, store: &[u8], m: Meta, b: u32, e: Entry, held: u32) -> bool
    requires reads { (Reads store.now m) × (b ≤ m.max) }
    requires b_value { any (is e.pair) (entries_at (decode store.now) b) ≡ false }
    requires wf { (y : Index) → put (decode store.now) b e ≡ some y → (WF y) × (count y ≡ held) }
    ensures { Places store.now draft.new.change draft.new.images (put (decode store.now) b e) result }
{
    let room = room_in(store, m, b);
    match room {
        Room::Page { block } => {
            put_in_page(draft, store, m, block, e, held);
            true
        }
        Room::Full { last } => put_at_end(draft, store, m, b, last, e, held),
    }
}
