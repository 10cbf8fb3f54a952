// The call of a line, on the first `blocks` blocks of a lent store.
ghost use Rattle.std.specs.Prelude.{◌≡◌, ◌*◌, ◌≤◌, ◌++◌, length, take, drop};
ghost use Rattle.line.specs.declared.Command.{Command as command};
ghost use Rattle.outcomes.specs.Outcomes.{format_replacing};
ghost use Rattle.interpreter.specs.Script.{script_blocks, run_command};
ghost use Rattle.interpreter.specs.Feed.{store_bytes};
ghost use Rattle.interpreter.specs.Runs.{Runs, Room};

use crate::answers::{put_answer, put_looked, put_worked};
use crate::lent::{insert_lent, remove_lent, work_lent};
use crate::{LineEnd, SCRIPT_BLOCKS};
use index::format::{check_format, format};
use index::in_use::is_protected;
use index::read::lookup;
use line::Command;
use model::{Answer, Order, Refusal};
use text::{put_refused, put_store};

// Formats the first `blocks` blocks of the lent store in the place of the store that stands, its first `standing`
// blocks, which is the one that is tested for use. Both share the lent bytes, so the test comes first.
fn format_standing(store: &mut [u8], standing: u32, blocks: u32, order: Order) -> Answer
    requires { (blocks ≤ script_blocks) × (standing ≤ script_blocks) × (store_bytes ≤ length store.old) }
    ensures value { result ≡ (format_replacing (take (512 * standing) store.old)
        (take (512 * blocks) store.old) order).answer }
    ensures store_after { store.new ≡ (format_replacing (take (512 * standing) store.old)
        (take (512 * blocks) store.old) order).store ++ drop (512 * blocks) store.old }
{
    if blocks < 4 {
        return Err(Refusal::Length);
    }
    if !check_format(order) {
        return Err(Refusal::Number);
    }
    let stands = 512 * standing as usize;
    if is_protected(&store[..stands], order) {
        return Err(Refusal::InUse);
    }
    let end = 512 * blocks as usize;
    let over = Order {
        fill: order.fill,
        number: order.number,
        overwrite: 1,
    };
    format(&mut store[..end], over)
}

fn run_format(
    blocks: u32,
    fill: u32,
    number: u32,
    overwrite: u32,
    line: u64,
    standing: u32,
    store: &mut [u8],
    output: &mut [u8],
) -> LineEnd
    requires { Room standing store.old output.old }
    ensures { Runs
        (run_command (Some (command.Format blocks fill number overwrite)) line (take (512 * standing) store.old))
        store.old store.new result.blocks
        output.old output.new result.written }
{
    if blocks > SCRIPT_BLOCKS {
        let written = put_refused(output, line, 1);
        return LineEnd {
            blocks: standing,
            written,
        };
    }
    let order = Order {
        fill,
        number,
        overwrite,
    };
    let answer = format_standing(store, standing, blocks, order);
    match answer {
        Ok(()) => {
            let written = put_store(output, blocks, fill);
            LineEnd { blocks, written }
        }
        Err(refusal) => {
            let written = put_refused(output, line, refusal.number());
            LineEnd {
                blocks: standing,
                written,
            }
        }
    }
}

fn run_lookup(hash: u32, line: u64, blocks: u32, store: &[u8], output: &mut [u8]) -> usize
    requires { Room blocks store.now output.old }
    ensures { Runs (run_command (Some (command.Lookup hash)) line (take (512 * blocks) store.now))
        store.now store.now blocks output.old output.new result }
{
    let end = 512 * blocks as usize;
    let mut places = [0u8; 30000];
    let answer = lookup(&store[..end], hash, &mut places);
    put_looked(output, line, answer, &places)
}

pub fn run_command(
    command: Option<Command>,
    line: u64,
    blocks: u32,
    store: &mut [u8],
    output: &mut [u8],
) -> LineEnd
    requires { Room blocks store.old output.old }
    ensures { Runs (run_command command line (take (512 * blocks) store.old))
        store.old store.new result.blocks
        output.old output.new result.written }
{
    let Some(command) = command else {
        let written = put_refused(output, line, 10);
        return LineEnd { blocks, written };
    };
    let end = 512 * blocks as usize;
    let written = match command {
        Command::Format {
            blocks: n,
            fill,
            number,
            overwrite,
        } => return run_format(n, fill, number, overwrite, line, blocks, store, output),
        Command::Insert {
            hash,
            block,
            offset,
        } => {
            let answer = insert_lent(&mut store[..end], hash, block, offset);
            put_answer(output, line, answer)
        }
        Command::Remove {
            hash,
            block,
            offset,
        } => {
            let answer = remove_lent(&mut store[..end], hash, block, offset);
            put_answer(output, line, answer)
        }
        Command::Lookup { hash } => run_lookup(hash, line, blocks, store, output),
        Command::Work { budget } => {
            let answer = work_lent(&mut store[..end], budget);
            put_worked(output, line, answer)
        }
    };
    LineEnd { blocks, written }
}
