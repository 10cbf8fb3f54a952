// The calls for C and Rust hosts, as symbols of a static library: each is crate `amiqsovik`'s, with its clauses.
// include/amiqsovik.h declares them for C.
#![tactic(auto)]

ghost use Rattle.std.specs.Prelude.{◌≡◌};
ghost use Rattle.model.specs.Calls.{order_of};
ghost use Rattle.outcomes.specs.Outcomes.{format_outcome, in_use_outcome, lookup_outcome, verify_outcome};
ghost use Rattle.amiqsovik.specs.Words.{answer_word, lookup_word, place_word, plan_word, verdict_word, work_word};
ghost use Rattle.amiqsovik.specs.Result.{gauge_numbers, standing_told};
ghost use Rattle.journal.specs.Journal.{disk};
ghost use Rattle.cuts.specs.Journalled.{insert_journalled, look_outcome, recover_outcome, remove_journalled, squeeze_journalled, wipe_outcome, wiped_outcome, work_journalled};
ghost use Rattle.cuts.specs.Halves.{plan_insert, plan_remove, plan_squeeze, plan_work, store_outcome};
ghost use Rattle.gauge.specs.Gauge.{gauge_outcome};

// What a store is: 0 sound, 1, 3 with the block, 4 with the rule.
#[unsafe(no_mangle)]
pub extern "C" fn amiqsovik_verify(store: &[u8]) -> u64
    ensures { result ≡ verdict_word (verify_outcome store.now) }
{
    amiqsovik::amiqsovik_verify(store)
}

// Whether a store is in use: 1; 12 if it is sound and its count is not 0; else 0, also if it is not sound, whatever it
// holds. It is what a format with good numbers answers that does not overwrite.
#[unsafe(no_mangle)]
pub extern "C" fn amiqsovik_in_use(store: &[u8]) -> u64
    ensures { result ≡ answer_word (in_use_outcome store.now) }
{
    amiqsovik::amiqsovik_in_use(store)
}

#[unsafe(no_mangle)]
pub extern "C" fn amiqsovik_format(store: &mut [u8], fill: u32, number: u32, overwrite: u32) -> u64
    ensures value { result ≡ answer_word (format_outcome store.old (order_of fill number overwrite)).answer }
    ensures store_after { store.new ≡ (format_outcome store.old (order_of fill number overwrite)).store }
{
    amiqsovik::amiqsovik_format(store, fill, number, overwrite)
}

#[unsafe(no_mangle)]
pub extern "C" fn amiqsovik_lookup(store: &[u8], hash: u32, output: &mut [u8]) -> u64
    ensures value { result ≡ lookup_word (lookup_outcome store.now hash output.old).answer }
    ensures output_after { output.new ≡ (lookup_outcome store.now hash output.old).output }
{
    amiqsovik::amiqsovik_lookup(store, hash, output)
}

// Writes what stands, 28 bytes, to `res`; a shorter `res` is tested first. A refusal writes nothing.
#[unsafe(no_mangle)]
pub extern "C" fn amiqsovik_standing(store: &[u8], res: &mut [u8]) -> u64
    ensures value { result ≡ (standing_told store.now res.old).word }
    ensures res_after { res.new ≡ (standing_told store.now res.old).result }
{
    amiqsovik::amiqsovik_standing(store, res)
}

#[unsafe(no_mangle)]
pub extern "C" fn amiqsovik_insert(
    store: &mut [u8],
    journal: &mut [u8],
    hash: u32,
    block: u32,
    offset: u32,
) -> u64
    ensures value { result ≡ answer_word (insert_journalled (disk store.old journal.old)
        (record { hash = hash; block = block; offset = offset })).answer }
    ensures offset_value { (insert_journalled (disk store.old journal.old)
        (record { hash = hash; block = block; offset = offset })).disk
        ≡ disk store.new journal.new }
{
    amiqsovik::changes::amiqsovik_insert(store, journal, hash, block, offset)
}

#[unsafe(no_mangle)]
pub extern "C" fn amiqsovik_remove(
    store: &mut [u8],
    journal: &mut [u8],
    hash: u32,
    block: u32,
    offset: u32,
) -> u64
    ensures value { result ≡ answer_word (remove_journalled (disk store.old journal.old)
        (record { hash = hash; block = block; offset = offset })).answer }
    ensures offset_value { (remove_journalled (disk store.old journal.old)
        (record { hash = hash; block = block; offset = offset })).disk
        ≡ disk store.new journal.new }
{
    amiqsovik::changes::amiqsovik_remove(store, journal, hash, block, offset)
}

#[unsafe(no_mangle)]
pub extern "C" fn amiqsovik_work(store: &mut [u8], journal: &mut [u8], budget: u32) -> u64
    ensures value { result ≡ work_word (work_journalled (disk store.old journal.old) budget).answer }
    ensures budget_value { (work_journalled (disk store.old journal.old) budget).disk
        ≡ disk store.new journal.new }
{
    amiqsovik::changes::amiqsovik_work(store, journal, budget)
}

#[unsafe(no_mangle)]
pub extern "C" fn amiqsovik_squeeze(
    store: &mut [u8],
    journal: &mut [u8],
    bucket: u32,
    budget: u32,
) -> u64
    ensures value { result ≡ work_word
        (squeeze_journalled (disk store.old journal.old) bucket budget).answer }
    ensures budget_value { (squeeze_journalled (disk store.old journal.old) bucket budget).disk
        ≡ disk store.new journal.new }
{
    amiqsovik::changes::amiqsovik_squeeze(store, journal, bucket, budget)
}

// Finishes the change that the journal holds, if it holds one, and wipes the head.
#[unsafe(no_mangle)]
pub extern "C" fn amiqsovik_recover(store: &mut [u8], journal: &mut [u8]) -> u64
    ensures value { result ≡ answer_word (recover_outcome (disk store.old journal.old)).answer }
    ensures journal_value { (recover_outcome (disk store.old journal.old)).disk
        ≡ disk store.new journal.new }
{
    amiqsovik::recovery::amiqsovik_recover(store, journal)
}

// Wipes a journal's head, whatever it is.
#[unsafe(no_mangle)]
pub extern "C" fn amiqsovik_wipe(journal: &mut [u8]) -> u64
    ensures value { result ≡ answer_word (wipe_outcome journal.old).answer }
    ensures journal_after { journal.new ≡ (wipe_outcome journal.old).journal }
{
    amiqsovik::recovery::amiqsovik_wipe(journal)
}

// Whether a journal's head is wiped: 0; 13; 14 if it is not.
#[unsafe(no_mangle)]
pub extern "C" fn amiqsovik_wiped(journal: &[u8]) -> u64
    ensures { result ≡ answer_word (wiped_outcome journal.now) }
{
    amiqsovik::recovery::amiqsovik_wiped(journal)
}

// Where block `k` lies as it will stand after recovery.
#[unsafe(no_mangle)]
pub extern "C" fn amiqsovik_look(store: &[u8], journal: &[u8], k: u32) -> u64
    ensures { result ≡ place_word (look_outcome (disk store.now journal.now) k) }
{
    amiqsovik::recovery::amiqsovik_look(store, journal, k)
}

#[unsafe(no_mangle)]
pub extern "C" fn amiqsovik_plan_insert(
    store: &[u8],
    journal: &[u8],
    hash: u32,
    block: u32,
    offset: u32,
    plan: &mut [u8],
) -> u64
    ensures value { result ≡ plan_word (plan_insert (disk store.now journal.now)
        (record { hash = hash; block = block; offset = offset }) plan.old).answer }
    ensures plan_after { plan.new ≡ (plan_insert (disk store.now journal.now)
        (record { hash = hash; block = block; offset = offset }) plan.old).plan }
{
    amiqsovik::halves::amiqsovik_plan_insert(store, journal, hash, block, offset, plan)
}

#[unsafe(no_mangle)]
pub extern "C" fn amiqsovik_plan_remove(
    store: &[u8],
    journal: &[u8],
    hash: u32,
    block: u32,
    offset: u32,
    plan: &mut [u8],
) -> u64
    ensures value { result ≡ plan_word (plan_remove (disk store.now journal.now)
        (record { hash = hash; block = block; offset = offset }) plan.old).answer }
    ensures plan_after { plan.new ≡ (plan_remove (disk store.now journal.now)
        (record { hash = hash; block = block; offset = offset }) plan.old).plan }
{
    amiqsovik::halves::amiqsovik_plan_remove(store, journal, hash, block, offset, plan)
}

// One step.
#[unsafe(no_mangle)]
pub extern "C" fn amiqsovik_plan_work(store: &[u8], journal: &[u8], plan: &mut [u8]) -> u64
    ensures value { result ≡ plan_word
        (plan_work (disk store.now journal.now) plan.old).answer }
    ensures plan_after { plan.new
        ≡ (plan_work (disk store.now journal.now) plan.old).plan }
{
    amiqsovik::halves::amiqsovik_plan_work(store, journal, plan)
}

// One step.
#[unsafe(no_mangle)]
pub extern "C" fn amiqsovik_plan_squeeze(
    store: &[u8],
    journal: &[u8],
    bucket: u32,
    plan: &mut [u8],
) -> u64
    ensures value { result ≡ plan_word
        (plan_squeeze (disk store.now journal.now) bucket plan.old).answer }
    ensures plan_after { plan.new
        ≡ (plan_squeeze (disk store.now journal.now) bucket plan.old).plan }
{
    amiqsovik::halves::amiqsovik_plan_squeeze(store, journal, bucket, plan)
}

// Does the `n`-th block store of a plan, and nothing else.
#[unsafe(no_mangle)]
pub extern "C" fn amiqsovik_do_store(
    store: &mut [u8],
    journal: &mut [u8],
    plan: &[u8],
    n: u32,
) -> u64
    ensures value { result ≡ place_word
        (store_outcome (disk store.old journal.old) plan.now n).answer }
    ensures n_value { (store_outcome (disk store.old journal.old) plan.now n).disk
        ≡ disk store.new journal.new }
{
    amiqsovik::halves::amiqsovik_do_store(store, journal, plan, n)
}

// Writes the gauge to `numbers`; on a refusal, 0 twice.
#[unsafe(no_mangle)]
pub extern "C" fn amiqsovik_gauge(store: &[u8], numbers: &mut [f64; 2]) -> u64
    ensures value { result ≡ answer_word (gauge_outcome store.now).answer }
    ensures numbers_after { numbers.new ≡ gauge_numbers (gauge_outcome store.now).gauge }
{
    amiqsovik::fill::amiqsovik_gauge(store, numbers)
}
