// A script fed piece by piece.
ghost use Rattle.std.specs.Prelude.{◌≡◌};
ghost use Rattle.interpreter.specs.Feed.{start_state, ready, feed_outcome, finish_outcome, fed_as};

use crate::lines::{end_line, find_lf, keep};
use crate::{Fed, SCRIPT_BLOCKS, STORE_BYTES, ScriptState, TOO_MANY};
use text::LINE_OUTPUT;

// Before the first byte of a script.
pub fn start() -> ScriptState
    ensures { result ≡ start_state }
{
    ScriptState {
        number: 0,
        seen: 0,
        line: [0; 80],
        blocks: 0,
    }
}

// Whether the state and the slices serve for a line.
fn is_ready(state: ScriptState, store: &[u8], output: &[u8]) -> bool
    ensures { result ≡ ready state store.now output.now }
{
    state.seen <= TOO_MANY
        && state.blocks <= SCRIPT_BLOCKS
        && store.len() >= STORE_BYTES
        && output.len() >= LINE_OUTPUT
}

// Takes the bytes of `input` up to the end of a line, or all if none ends there, and runs the line that ended.
pub fn feed(state: ScriptState, store: &mut [u8], input: &[u8], output: &mut [u8]) -> Fed
    ensures output_value { feed_outcome state store.old input.now output.old
        ≡ fed_as result store.new output.new }
    ensures ready_value { result.ready ≡ ready result.state store.new output.new }
{
    if !is_ready(state, store, output) {
        return Fed {
            ready: false,
            state,
            used: 0,
            written: 0,
        };
    }
    let Some(n) = find_lf(input) else {
        let held = keep(state, input);
        return Fed {
            ready: true,
            state: held,
            used: input.len(),
            written: 0,
        };
    };
    let line = keep(state, &input[..n]);
    end_line(line, n + 1, store, output)
}

// Ends the script: a last line that lacks its LF is run.
pub fn finish(state: ScriptState, store: &mut [u8], output: &mut [u8]) -> Fed
    ensures output_value { finish_outcome state store.old output.old
        ≡ fed_as result store.new output.new }
    ensures ready_value { result.ready ≡ ready result.state store.new output.new }
{
    if !is_ready(state, store, output) {
        return Fed {
            ready: false,
            state,
            used: 0,
            written: 0,
        };
    }
    if state.seen == 0 {
        return Fed {
            ready: true,
            state,
            used: 0,
            written: 0,
        };
    }
    end_line(state, 0, store, output)
}
