// Insert and remove with a journal.
ghost use Rattle.std.specs.Prelude.{◌≡◌};
ghost use Rattle.model.specs.Calls.{pair_ok};
ghost use Rattle.journal.specs.Journal.{disk};
ghost use Rattle.cuts.specs.Journalled.{tested_with, change_on, insert_journalled, remove_journalled};

use crate::pairs::{Insert, PairCall, Remove};
use crate::ready::test_pair_ready;
use crate::sound::call_written;
use model::Answer;

// Puts a pair in.
pub fn insert(store: &mut [u8], journal: &mut [u8], hash: u32, block: u32, offset: u32) -> Answer
    ensures { insert_journalled (disk store.old journal.old)
        (record { hash = hash; block = block; offset = offset })
        ≡ record { answer = result; disk = disk store.new journal.new } }
{
    call_with(&Insert {}, store, journal, hash, block, offset)
}

// Takes a pair out.
pub fn remove(store: &mut [u8], journal: &mut [u8], hash: u32, block: u32, offset: u32) -> Answer
    ensures { remove_journalled (disk store.old journal.old)
        (record { hash = hash; block = block; offset = offset })
        ≡ record { answer = result; disk = disk store.new journal.new } }
{
    call_with(&Remove {}, store, journal, hash, block, offset)
}

// A call with the pair of these numbers.
fn call_with<C: PairCall>(
    call: &C,
    store: &mut [u8],
    journal: &mut [u8],
    hash: u32,
    block: u32,
    offset: u32,
) -> Answer
    ensures { change_on
        (tested_with (pair_ok (record { hash = hash; block = block; offset = offset })) (disk store.old journal.old))
        (λ x. C.call call.now x (record { hash = hash; block = block; offset = offset }))
        (disk store.old journal.old)
        ≡ record { answer = result; disk = disk store.new journal.new } }
{
    let pair = test_pair_ready(store, journal, hash, block, offset)?;
    call_written(call, store, journal, pair)
}
