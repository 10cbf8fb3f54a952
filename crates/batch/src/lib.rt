// A list of calls, encoded as numbers, run one after the other through the public functions: what demand 3 says of
// lists of calls after an accepted format, it says of this function (specs/Demand3Theorem.antt).
#![tactic(auto)]

ghost use Rattle.std.specs.Prelude.{◌≡◌, ◌++◌, ◌+◌, ◌*◌, ◌/◌, ◌≤◌, min, length, take, drop};
ghost use Rattle.journal.specs.Journal.{disk};
ghost use Rattle.outcomes.specs.Outcomes.{lookup_outcome};
ghost use Rattle.amiqsovik.specs.Words.{lookup_word};
ghost use Rattle.amiqsovik.specs.Result.{standing_told};
ghost use Rattle.batch.specs.Batch.{call_of, call_at, lent_at, Batched, runs};

use amiqsovik::changes::{amiqsovik_insert, amiqsovik_remove, amiqsovik_squeeze, amiqsovik_work};
use amiqsovik::{amiqsovik_format, amiqsovik_lookup, amiqsovik_standing};

// Looks a hash code up, and lends the first `lent` bytes of the output.
fn run_lookup(store: &[u8], hash: u32, lent: u32, output: &mut [u8]) -> u64
    ensures value { result ≡ lookup_word
        (lookup_outcome store.now hash (take lent output.old)).answer }
    ensures output_after { output.new
        ≡ (lookup_outcome store.now hash (take lent output.old)).output
        ++ drop lent output.old }
{
    let n = (lent as usize).min(output.len());
    amiqsovik_lookup(store, hash, &mut output[..n])
}

// Asks what stands, and lends the first `lent` bytes of the output.
fn run_standing(store: &[u8], lent: u32, output: &mut [u8]) -> u64
    ensures value { result ≡ (standing_told store.now (take lent output.old)).word }
    ensures output_after { output.new
        ≡ (standing_told store.now (take lent output.old)).result
        ++ drop lent output.old }
{
    let n = (lent as usize).min(output.len());
    amiqsovik_standing(store, &mut output[..n])
}

// Runs one call, and gives its word.
fn run_call(
    store: &mut [u8],
    journal: &mut [u8],
    kind: u32,
    a: u32,
    b: u32,
    c: u32,
    output: &mut [u8],
) -> u64
    ensures { Batched (call_of kind a b c output.old) b
        (disk store.old journal.old) output.old
        result (disk store.new journal.new) output.new }
{
    match kind {
        0 => amiqsovik_format(store, a, b, c),
        1 => amiqsovik_insert(store, journal, a, b, c),
        2 => amiqsovik_remove(store, journal, a, b, c),
        3 => run_lookup(store, a, b, output),
        4 => amiqsovik_work(store, journal, a),
        5 => amiqsovik_squeeze(store, journal, a, b),
        _ => run_standing(store, b, output),
    }
}

// Runs call `i`.
fn run_at(store: &mut [u8], journal: &mut [u8], calls: &[u32], i: usize, output: &mut [u8]) -> u64
    requires { 4 * i + 4 ≤ length calls.now }
    ensures { Batched (call_at calls.now i output.old) (lent_at calls.now i)
        (disk store.old journal.old) output.old
        result (disk store.new journal.new) output.new }
{
    let at = 4 * i;
    run_call(
        store,
        journal,
        calls[at],
        calls[at + 1],
        calls[at + 2],
        calls[at + 3],
        output,
    )
}

// Runs the calls, four numbers each, for which there is a word; gives their number.
pub fn run_batch(
    store: &mut [u8],
    journal: &mut [u8],
    calls: &[u32],
    output: &mut [u8],
    words: &mut [u64],
) -> usize
    ensures value { result ≡ min (length calls.now / 4) (length words.old) }
    ensures words_after { record {
      disk = disk store.new journal.new;
      output = output.new;
      words = words.new;
    }
        ≡ runs calls.now result 0 (record {
          disk = disk store.old journal.old;
          output = output.old;
          words = words.old;
        }) }
{
    let n = (calls.len() / 4).min(words.len());
    for i in 0..n {
        words[i] = run_at(store, journal, calls, i, output);
    }
    n
}
