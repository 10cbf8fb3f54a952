// The begin of a split: the new bucket is max bucket + 1, and the old one is its parent.
ghost use Rattle.std.specs.Prelude.{◌≡◌, true};
ghost use Rattle.std.proofs.Math.Option.{some};
ghost use Rattle.model.specs.Index.{Index, idle};
ghost use Rattle.model.specs.Held.{count, wanted};
ghost use Rattle.model.specs.Steps.{begin};
ghost use Rattle.model.specs.WellFormed.{Laid};
ghost use Rattle.image.specs.Layout.{meta_of};
ghost use Rattle.image.specs.Decode.{decode};
ghost use Rattle.chain.specs.FindLaws.{is_some};
ghost use Rattle.view.specs.Reads.{Reads};
ghost use Rattle.plan.specs.Plan.{Plans, Places};
ghost use Rattle.split.specs.Begin.{Begun};

use crate::job::mark_bucket;
use address::{bucket_block, buckets_at, high_mask, low_mask, parent_of, point_of};
use draft::edit::{put_fields, put_prev};
use draft::pages::write_empty;
use draft::trim::drop_unchanged;
use draft::{Draft, clear};
use image::Meta;
use reader::roles::home_of;
use store::Trailer;
use store::flags::{NO_LINK, POPULATED, SPLIT};

// Whether the new bucket's overflow point is made or has room to be: where it is made, the made blocks are at most N.
fn has_room(m: Meta) -> bool
    requires { (x : Index) × (Laid x) × (m ≡ meta_of x) }
    ensures { (x : Index) → Laid x → m ≡ meta_of x → result ≡ is_some (begin x) }
{
    let spares = m.spares;
    let top = spares[m.point as usize];
    buckets_at(point_of(m.max + 1)) + top + 1 <= m.size
}

// The fields of the meta block after the begin. A new overflow point begins with the last one's spares.
fn begin_fields(m: Meta) -> Meta
    requires { (x : Index) × (Laid x) × (m ≡ meta_of x) }
    ensures { (x y : Index) → Laid x → m ≡ meta_of x → begin x ≡ some y → count y ≡ count x → result ≡ meta_of y }
{
    let max = m.max + 1;
    let point = point_of(max);
    let mut spares = m.spares;
    let top = spares[m.point as usize];
    spares[point as usize] = top;
    let mut n = m;
    n.max = max;
    n.high = high_mask(max);
    n.low = low_mask(max);
    n.point = point;
    n.spares = spares;
    n
}

// The new bucket's page, without entries and being populated, and the old one's, being split.
fn begin_pages(draft: &mut Draft, store: &[u8], m: Meta)
    requires reads { Reads store.now m }
    requires store_value { (y : Index) × (begin (decode store.now) ≡ some y) }
    ensures { Begun store.now draft.new.change draft.new.images }
{
    let new = m.max + 1;
    let old = parent_of(new);
    let to = bucket_block(m.spares, new);
    let from = home_of(m, old);
    let trailer = Trailer {
        prev: new,
        next: NO_LINK,
        bucket: new,
        flags: POPULATED,
    };
    clear(draft);
    write_empty(draft, store, to, trailer);
    put_prev(draft, store, from, new);
    mark_bucket(draft, store, m, old, SPLIT);
}

fn begin_split(draft: &mut Draft, store: &[u8], m: Meta)
    requires reads { Reads store.now m }
    requires store_value { ((decode store.now).job ≡ idle) × (wanted (decode store.now) ≡ true) }
    requires store_value_2 { (y : Index) × (begin (decode store.now) ≡ some y) }
    ensures { (y : Index) → begin (decode store.now) ≡ some y
        → Plans store.now draft.new.change draft.new.images y }
{
    begin_pages(draft, store, m);
    put_fields(draft, store, begin_fields(m));
    drop_unchanged(draft, store);
}

// Begins the split that is wanted, if there is room for the new bucket, which it tells.
pub fn plan_begin(draft: &mut Draft, store: &[u8], m: Meta) -> bool
    requires reads { Reads store.now m }
    requires store_value { ((decode store.now).job ≡ idle) × (wanted (decode store.now) ≡ true) }
    ensures { Places store.now draft.new.change draft.new.images (begin (decode store.now)) result }
{
    if !has_room(m) {
        clear(draft);
        return false;
    }
    begin_split(draft, store, m);
    true
}
