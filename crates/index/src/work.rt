// Work: the steps of splits, one whole change each.
ghost use Rattle.std.specs.Prelude.{◌≡◌};
ghost use Rattle.journal.specs.Journal.{disk};
ghost use Rattle.cuts.specs.Journalled.{work_journalled};

use crate::ready::test_ready;
use crate::steps::{Splits, run_steps};
use model::WorkAnswer;
use split::step::start;

// Does up to `budget` steps.
pub fn work(store: &mut [u8], journal: &mut [u8], budget: u32) -> WorkAnswer
    ensures { work_journalled (disk store.old journal.old) budget
        ≡ record { answer = result; disk = disk store.new journal.new } }
{
    test_ready(store, journal, budget <= 65535)?;
    run_steps(&Splits {}, store, journal, budget, start())
}
