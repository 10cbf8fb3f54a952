// Squeeze: steps that pack a bucket's chain, one whole change each.
ghost use Rattle.std.specs.Prelude.{◌≡◌, ◌≤◌, length};
ghost use Rattle.model.specs.Steps.{iterate};
ghost use Rattle.model.specs.Squeeze.{bucket_test};
ghost use Rattle.model.specs.Machine.{of_squeeze};
ghost use Rattle.image.specs.Decode.{decode};
ghost use Rattle.outcomes.specs.Outcomes.{unless_refused, bucket_tested};
ghost use Rattle.journal.specs.Journal.{disk};
ghost use Rattle.cuts.specs.Journalled.{tested_with, step_journalled, worked_by, squeeze_journalled};
ghost use Rattle.index.specs.Tested.{test_of};
ghost use Rattle.index.specs.Sound.{Sound};

use crate::ready::test_ready;
use crate::sound::read_fields;
use crate::steps::{Squeezing, run_steps, whole_chain};
use model::{Refusal, WorkAnswer};
use squeeze::is_busy;

// The tests of the bucket, which come after those of the store.
fn test_bucket(store: &[u8], bucket: u32) -> Result<(), Refusal>
    requires { Sound store.now }
    ensures { result ≡ test_of (unless_refused (bucket_test (decode store.now) bucket)
        (decode store.now)) }
{
    let m = read_fields(store);
    if bucket > m.max {
        return Err(Refusal::Number);
    }
    if is_busy(store, m, bucket) {
        return Err(Refusal::Busy);
    }
    Ok(())
}

// All tests, in their order: the lengths, the numbers, the head, the store, the bucket.
pub fn test_squeeze(store: &[u8], journal: &[u8], bucket: u32, numbers: bool) -> Result<(), Refusal>
    ensures { result ≡ test_of (bucket_tested
        (tested_with numbers (disk store.now journal.now)) bucket) }
{
    test_ready(store, journal, numbers)?;
    test_bucket(store, bucket)
}

// Steps on a sound store.
fn squeeze_sound(store: &mut [u8], journal: &mut [u8], bucket: u32, budget: u32) -> WorkAnswer
    requires { (Sound store.old) × (bucket ≤ (decode store.old).max_bucket) × (length journal.old ≡ 8192) }
    ensures { worked_by (iterate (step_journalled (of_squeeze bucket)) budget
        (disk store.old journal.old))
        ≡ record { answer = result; disk = disk store.new journal.new } }
{
    let span = whole_chain(store, bucket);
    run_steps(&Squeezing { bucket }, store, journal, budget, span)
}

// Does up to `budget` steps that squeeze the bucket.
pub fn squeeze(store: &mut [u8], journal: &mut [u8], bucket: u32, budget: u32) -> WorkAnswer
    ensures { squeeze_journalled (disk store.old journal.old) bucket budget
        ≡ record { answer = result; disk = disk store.new journal.new } }
{
    test_squeeze(store, journal, bucket, budget <= 65535)?;
    squeeze_sound(store, journal, bucket, budget)
}
