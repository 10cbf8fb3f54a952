// The tests before a call, in the order of the refusals: length, the call's numbers, the verdict.
ghost use Rattle.std.specs.Prelude.{◌≡◌, true};
ghost use Rattle.outcomes.specs.Outcomes.{tested};
ghost use Rattle.index.specs.Tested.{test_of, test_from};

use image::Verdict;
use model::Refusal;
use verify::{check_length, verify};

// A verdict as what a call answers that tests the store and does nothing.
pub fn test_verdict(verdict: Verdict) -> Result<(), Refusal>
    ensures { result ≡ test_from verdict }
{
    match verdict {
        Verdict::BadLength => Err(Refusal::Length),
        Verdict::Damaged { block } => Err(Refusal::Damaged { block }),
        Verdict::NotIndex { rule } => Err(Refusal::NotIndex { rule }),
        Verdict::Sound => Ok(()),
    }
}

// Whether the store has a legal length and is sound.
pub fn test_store(store: &[u8]) -> Result<(), Refusal>
    ensures { result ≡ test_of (tested true store.now) }
{
    test_verdict(verify(store))
}

// The same for a call whose numbers are good or not.
pub fn test_call(store: &[u8], numbers: bool) -> Result<(), Refusal>
    ensures { result ≡ test_of (tested numbers store.now) }
{
    if numbers {
        return test_store(store);
    }
    if check_length(store) {
        Err(Refusal::Number)
    } else {
        Err(Refusal::Length)
    }
}
