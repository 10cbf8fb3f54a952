// The calls that only read: the tests 1, 3 and 4, and then the answer.
ghost use Rattle.std.specs.Prelude.{◌≡◌};
ghost use Rattle.outcomes.specs.Outcomes.{lookup_outcome, standing_outcome};

use crate::tests::test_store;
use meta::read_meta;
use model::{LookupAnswer, StandingAnswer};
use store::block_at;
use view::job::standing_of;
use view::lookup::lookup_in;

// The places of the readings held under a hash code, six bytes each, ascending.
pub fn lookup(store: &[u8], hash: u32, output: &mut [u8]) -> LookupAnswer
    ensures { lookup_outcome store.now hash output.old
        ≡ record { answer = result; output = output.new } }
{
    test_store(store)?;
    let m = read_meta(block_at(store, 0));
    lookup_in(store, m, hash, output)
}

// Count, buckets, the job's phase with its two bucket numbers, and the slack.
pub fn standing(store: &[u8]) -> StandingAnswer
    ensures { result ≡ standing_outcome store.now }
{
    test_store(store)?;
    let m = read_meta(block_at(store, 0));
    Ok(standing_of(store, m))
}
