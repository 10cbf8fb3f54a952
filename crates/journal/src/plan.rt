// A change worked out into a lent buffer, and then done store by store from it.
#![tactic(auto, using(crate::proofs::Parts::lengths))]

ghost use Rattle.std.specs.Prelude.{◌≡◌, ◌++◌, ℕ, ◌+◌, ◌*◌, ◌≤◌, ◌<◌, length, drop};
ghost use Rattle.store.specs.Store.{sealed};
ghost use Rattle.store.specs.Change.{seals};
ghost use Rattle.journal.specs.Journal.{disk, head_bytes, head, ending, wiped, do_store, run};
ghost use Rattle.journal.specs.Planned.{plan_count, plan_name, plan_stores, plan_store};
ghost use Rattle.journal.specs.WriteLaws.{head_with};

use crate::holds::wiped_head;
use endian::{get_u32, put_u32};
use store::{Change, block_at, put_block, seal_block, seal_change};

// ---- worked out

// The head's bytes 0..507, with four zeros behind them.
fn head_bytes(change: Change, number: u32) -> [u8; 512]
    requires { change.count ≤ 8 }
    ensures { result ≡ head_with number change.count change.numbers change.count }
{
    let numbers = &change.numbers[..change.count];
    let mut head = [0u8; 512];
    put_u32(&mut head, 0, number);
    put_u32(&mut head, 4, change.count as u32);
    for (i, name) in numbers.iter().enumerate() {
        put_u32(&mut head, 8 + 4 * i, *name);
    }
    head
}

// The same with its check, as block `k` of a journal: the head, or the end.
fn head_as(change: Change, number: u32, k: u32) -> [u8; 512]
    requires { change.count ≤ 8 }
    ensures { result ≡ sealed number k (head_bytes number change.numbers change.count) }
{
    let mut head = head_bytes(change, number);
    seal_block(&mut head, number, k);
    head
}

// Works out a change of the store with this number. Its images stand in `plan` from byte 1536 on.
pub fn work_out(plan: &mut [u8], change: Change, number: u32)
    requires { (length plan.old ≡ 5632) × (change.count ≤ 8) }
    ensures { plan.new
        ≡ head number change.numbers change.count
        ++ (ending number change.numbers change.count
        ++ (wiped ++ seals number change.numbers (drop 1536 plan.old) change.count)) }
{
    seal_change(change, &mut plan[1536..], number);
    let head = head_as(change, number, 0);
    let end = head_as(change, number, 15);
    let wiped = wiped_head();
    put_block(plan, 0, &head);
    put_block(plan, 1, &end);
    put_block(plan, 2, &wiped);
}

// ---- done

// How many images a plan has.
pub fn plan_count(plan: &[u8]) -> u32
    requires { 5632 ≤ length plan.now }
    ensures { result ≡ plan_count plan.now }
{
    get_u32(plan, 4)
}

// The block that image `i` is of.
pub fn plan_name(plan: &[u8], i: usize) -> u32
    requires { (5632 ≤ length plan.now) × (i < 8) }
    ensures { result ≡ plan_name plan.now i }
{
    get_u32(plan, 8 + 4 * i)
}

// Does the `n`-th block store of a plan, and nothing else.
pub fn store_planned(store: &mut [u8], journal: &mut [u8], plan: &[u8], n: usize)
    requires journal_len { (length journal.old ≡ 8192) × (5632 ≤ length plan.now) }
    requires plan_bound { (plan_count plan.now ≤ 8) × (n < 2 * plan_count plan.now + 3) }
    requires by_index { (i : ℕ) → i < plan_count plan.now → n ≡ plan_count plan.now + 2 + i
        → 512 * plan_name plan.now i + 512 ≤ length store.old }
    ensures { do_store (plan_store plan.now n) (disk store.old journal.old) ≡ disk store.new journal.new }
{
    let count = plan_count(plan) as usize;
    if n < count {
        put_block(journal, 1 + n, block_at(plan, 3 + n));
        return;
    }
    let past = n - count;
    if past == 0 {
        put_block(journal, 0, block_at(plan, 0));
        return;
    }
    if past == 1 {
        put_block(journal, 15, block_at(plan, 1));
        return;
    }
    let i = past - 2;
    if i < count {
        let name = plan_name(plan, i) as usize;
        put_block(store, name, block_at(plan, 3 + i));
        return;
    }
    put_block(journal, 0, block_at(plan, 2));
}

// Does all block stores of a plan, from the first on.
pub fn run_plan(store: &mut [u8], journal: &mut [u8], plan: &[u8])
    requires journal_len { (length journal.old ≡ 8192) × (5632 ≤ length plan.now) × (plan_count plan.now ≤ 8) }
    requires by_index { (i : ℕ) → i < plan_count plan.now → 512 * plan_name plan.now i + 512 ≤ length store.old }
    ensures { run (plan_stores plan.now) (disk store.old journal.old) ≡ disk store.new journal.new }
{
    for n in 0..2 * plan_count(plan) as usize + 3 {
        store_planned(store, journal, plan, n);
    }
}
