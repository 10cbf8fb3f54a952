// The calls for C and Rust. Each answers one word (specs/Words.antt). Crate `amiqsovik_c` exports them, and
// include/amiqsovik.h declares them for C.
#![tactic(auto)]

mod words; // words.rt: the word of each answer
mod result; // result.rt: what standing writes
pub mod changes; // changes.rt: the calls that change a store, with its journal
pub mod recovery; // recovery.rt: the calls on a journal
pub mod halves; // halves.rt: a change in two halves
pub mod fill; // fill.rt: the fill gauge

ghost use Rattle.std.specs.Prelude.{◌≡◌};
ghost use Rattle.model.specs.Calls.{order_of};
ghost use Rattle.outcomes.specs.Outcomes.{verify_outcome, in_use_outcome, format_outcome, lookup_outcome};
ghost use Rattle.amiqsovik.specs.Words.{answer_word, lookup_word, verdict_word};
ghost use Rattle.amiqsovik.specs.Result.{standing_told};

use index::format::format;
use index::in_use::in_use;
use index::read::{lookup, standing};
use model::Order;
use result::show;
use verify::verify;
use words::{RESULT_SHORT, answer_word, lookup_word, pack, standing_word, verdict_word};

// What a store is: 0 sound, 1, 3 with the block, 4 with the rule.
pub fn amiqsovik_verify(store: &[u8]) -> u64
    ensures { result ≡ verdict_word (verify_outcome store.now) }
{
    verdict_word(verify(store))
}

// Whether a store is in use: 1; 12 if it is sound and its count is not 0; else 0, also if it is not sound, whatever it
// holds. It is what a format with good numbers answers that does not overwrite.
pub fn amiqsovik_in_use(store: &[u8]) -> u64
    ensures { result ≡ answer_word (in_use_outcome store.now) }
{
    answer_word(in_use(store))
}

pub fn amiqsovik_format(store: &mut [u8], fill: u32, number: u32, overwrite: u32) -> u64
    ensures value { result ≡ answer_word (format_outcome store.old (order_of fill number overwrite)).answer }
    ensures store_after { store.new ≡ (format_outcome store.old (order_of fill number overwrite)).store }
{
    answer_word(format(
        store,
        Order {
            fill,
            number,
            overwrite,
        },
    ))
}

pub fn amiqsovik_lookup(store: &[u8], hash: u32, output: &mut [u8]) -> u64
    ensures value { result ≡ lookup_word (lookup_outcome store.now hash output.old).answer }
    ensures output_after { output.new ≡ (lookup_outcome store.now hash output.old).output }
{
    lookup_word(lookup(store, hash, output))
}

// Writes what stands, 28 bytes, to `res`; a shorter `res` is tested first. A refusal writes nothing.
pub fn amiqsovik_standing(store: &[u8], res: &mut [u8]) -> u64
    ensures value { result ≡ (standing_told store.now res.old).word }
    ensures res_after { res.new ≡ (standing_told store.now res.old).result }
{
    if res.len() < 28 {
        return pack(RESULT_SHORT, 28);
    }
    let answer = standing(store);
    show(res, answer);
    standing_word(answer)
}
