// What the calls do to a store that passed the tests: the change is planned, and then written.
ghost use Rattle.std.specs.Prelude.{◌≡◌, true, length};
ghost use Rattle.model.specs.Calls.{pair_ok, insert};
ghost use Rattle.image.specs.Decode.{meta_at, decode};
ghost use Rattle.outcomes.specs.Outcomes.{changed};
ghost use Rattle.journal.specs.Journal.{disk};
ghost use Rattle.cuts.specs.Journalled.{journalled};
ghost use Rattle.index.specs.Sound.{Sound};

use crate::pairs::PairCall;
use crate::written::write_change;
use draft::{Draft, no_change};
use image::Meta;
use insertion::insert::plan_insert;
use meta::read_meta;
use model::Answer;
use page::Pair;
use store::{block_at, finish};

// The fields of the meta block.
pub fn read_fields(store: &[u8]) -> Meta
    requires { Sound store.now }
    ensures { result ≡ meta_at store.now }
{
    read_meta(block_at(store, 0))
}

pub fn insert_sound(store: &mut [u8], pair: Pair) -> Answer
    requires { (Sound store.old) × (pair_ok pair ≡ true) }
    ensures { changed store.old (insert (decode store.old) pair)
        ≡ record { answer = result; store = store.new } }
{
    let m = read_fields(store);
    let mut draft = Draft {
        change: no_change(),
        images: [0u8; 4096],
    };
    let answer = plan_insert(&mut draft, store, m, pair);
    finish(store, draft.change, &mut draft.images);
    answer
}

// A call with a pair, written with a journal.
pub fn call_written<C: PairCall>(
    call: &C,
    store: &mut [u8],
    journal: &mut [u8],
    pair: Pair,
) -> Answer
    requires { (Sound store.old) × (pair_ok pair ≡ true) × (length journal.old ≡ 8192) }
    ensures { journalled (disk store.old journal.old)
        (C.call call.now (decode store.old) pair)
        ≡ record { answer = result; disk = disk store.new journal.new } }
{
    let m = read_fields(store);
    let mut draft = Draft {
        change: no_change(),
        images: [0u8; 4096],
    };
    let answer = call.plan(&mut draft, store, m, pair);
    write_change(store, journal, &draft.images, draft.change);
    answer
}
