// The pending line, and its end.
ghost use Rattle.std.specs.Prelude.{◌≡◌, ◌≤◌, ◌==◌, fold, position};
ghost use Rattle.interpreter.specs.Feed.{pending_command, line_ends, fed_as};
ghost use Rattle.interpreter.specs.Script.{script_blocks};
ghost use Rattle.interpreter.specs.Runs.{Room};
ghost use Rattle.interpreter.specs.Held.{kept};

use crate::calls::run_command;
use crate::{Fed, ScriptState, TOO_MANY};
use line::Command;
use line::commands::read_line;

// One byte more of the pending line.
fn keep_byte(state: ScriptState, byte: u8) -> ScriptState
    ensures { result ≡ kept state byte }
{
    let seen = state.seen;
    if seen < 80 {
        let mut line = state.line;
        line[seen] = byte;
        return ScriptState {
            seen: seen + 1,
            line,
            ..state
        };
    }
    ScriptState {
        seen: TOO_MANY,
        ..state
    }
}

// More bytes of the pending line, one after the other.
fn keep_each(state: ScriptState, bytes: &[u8]) -> ScriptState
    ensures { result ≡ fold kept state bytes.now }
{
    bytes
        .iter()
        .fold(state, |held, byte| keep_byte(held, *byte))
}

// More bytes of the pending line. Those past the first 81 change nothing, and are not read.
pub fn keep(state: ScriptState, bytes: &[u8]) -> ScriptState
    ensures { result ≡ fold kept state bytes.now }
{
    let count = TOO_MANY.min(bytes.len());
    keep_each(state, &bytes[..count])
}

// Where the first LF stands.
pub fn find_lf(input: &[u8]) -> Option<usize>
    ensures { result ≡ position (λ b. b == 10) input.now }
{
    input.iter().position(|byte| *byte == b'\n')
}

// The command of the pending line.
fn pending_command(state: ScriptState) -> Option<Command>
    ensures { result ≡ pending_command state }
{
    let line = state.line;
    read_line(line.get(..state.seen)?)
}

// Ends the pending line and runs it, after `used` bytes of a piece.
pub fn end_line(state: ScriptState, used: usize, store: &mut [u8], output: &mut [u8]) -> Fed
    requires { Room state.blocks store.old output.old }
    ensures output_value { line_ends used state store.old output.old
        ≡ fed_as result store.new output.new }
    ensures blocks_le_script_blocks { result.state.blocks ≤ script_blocks }
{
    let number = state.number.wrapping_add(1);
    let command = pending_command(state);
    let ran = run_command(command, number, state.blocks, store, output);
    Fed {
        ready: true,
        state: ScriptState {
            number,
            seen: 0,
            blocks: ran.blocks,
            ..state
        },
        used,
        written: ran.written,
    }
}
