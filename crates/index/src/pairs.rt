// The calls with a pair, as they are planned on a store that passed the tests.
ghost use Rattle.std.specs.Prelude.{◌≡◌, true};
ghost use Rattle.page.specs.declared.Pair.{Pair};
ghost use Rattle.model.specs.Index.{Index};
ghost use Rattle.model.specs.Calls.{Result, pair_ok, insert, remove};
ghost use Rattle.image.specs.Decode.{decode};
ghost use Rattle.view.specs.Reads.{Reads};
ghost use Rattle.plan.specs.Plan.{Settles};

use draft::Draft;
use image::Meta;
use insertion::insert::plan_insert;
use model::Answer;
use page::Pair;
use removal::plan_remove;

// What plans a call. What the draft held does not matter.
pub trait PairCall {
    ghost call: { Self → Index → Pair → Result };

    fn plan(&self, draft: &mut Draft, store: &[u8], m: Meta, pair: Pair) -> Answer
        requires reads { Reads store.now m }
        requires pair { pair_ok pair ≡ true }
        ensures { Settles store.now draft.new.change draft.new.images
            (call self.now (decode store.now) pair) result };
}

#[derive(Clone, Copy)]
pub struct Insert {}

impl PairCall for Insert {
    ghost call = { λ it. insert };

    fn plan(&self, draft: &mut Draft, store: &[u8], m: Meta, pair: Pair) -> Answer {
        plan_insert(draft, store, m, pair)
    }
}

#[derive(Clone, Copy)]
pub struct Remove {}

impl PairCall for Remove {
    ghost call = { λ it. remove };

    fn plan(&self, draft: &mut Draft, store: &[u8], m: Meta, pair: Pair) -> Answer {
        plan_remove(draft, store, m, pair)
    }
}
