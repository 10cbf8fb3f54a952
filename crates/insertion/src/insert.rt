// The insert of a pair.
ghost use Rattle.std.specs.Prelude.{◌≡◌, true, length};
ghost use Rattle.model.specs.Calls.{pair_ok, insert};
ghost use Rattle.image.specs.Decode.{decode};
ghost use Rattle.view.specs.Reads.{Reads};
ghost use Rattle.plan.specs.Plan.{Settles};

use crate::put::plan_put;
use address::bucket_of;
use draft::{Draft, clear};
use image::Meta;
use model::{Answer, Refusal};
use page::{Entry, Pair};
use view::held::is_held;

// Plans an insert.
pub fn plan_insert(draft: &mut Draft, store: &[u8], m: Meta, pair: Pair) -> Answer
    requires { (Reads store.now m) × (pair_ok pair ≡ true) }
    ensures { Settles store.now draft.new.change draft.new.images (insert (decode store.now) pair) result }
{
    if is_held(store, m, pair) {
        clear(draft);
        return Err(Refusal::HeldAlready);
    }
    let b = bucket_of(pair.hash, m.max);
    let e = Entry { pair, moved: false };
    if plan_put(draft, store, m, b, e, m.count + 1) {
        Ok(())
    } else {
        Err(Refusal::NoRoom)
    }
}
