// Runs the script of standard input and writes its output to standard output, both through buffers. A run ends at once
// where a read or a write fails: a line that a failed read cut is not run.
#![tactic(auto)]

ghost use Rattle.std.specs.Prelude.{◌≡◌, ◌+◌, ◌≤◌, IfOk, length, take};
ghost use Rattle.text.specs.Text.{line_output};
ghost use Rattle.interpreter.specs.Feed.{store_bytes};
ghost use Rattle.interpreter.specs.Machine.{on_bytes, state_of, ran_as};
ghost use Rattle.interpreter.specs.Stores.{Serves};

use interpreter::feed::{feed, finish, start};
use interpreter::{STORE_BYTES, ScriptState};
use std::io::{Read, Write};
use text::LINE_OUTPUT;

// The output's buffer: 65,536 bytes, and room for one line more.
const BUFFER: usize = 65536 + LINE_OUTPUT;

// The state after some lines, how many bytes of a piece they used, and how many they wrote.
#[derive(Clone, Copy)]
struct Lines {
    state: ScriptState,
    used: usize,
    written: usize,
}

// What failed, so that a run of the script ended before the script's end.
#[derive(Clone, Copy)]
enum Failure {
    Reading,
    Writing,
}

// Runs the lines of a piece, as long as the next one is sure to fit into `output`.
fn run_lines(state: ScriptState, store: &mut [u8], piece: &[u8], output: &mut [u8]) -> Lines
    requires { Serves state store.old }
    ensures serves { Serves result.state store.new }
    ensures output_after { ran_as result.state store.new (take result.written output.new)
        ≡ on_bytes (state_of state store.old) (take result.used piece.now) }
    ensures used_in_bounds { result.used ≤ length piece.now }
    ensures written_in_bounds { result.written ≤ length output.new }
    ensures used_value { result.written + line_output ≤ length output.new
        → result.used ≡ length piece.now }
{
    let mut held = state;
    let mut used = 0;
    let mut written = 0;
    while used < piece.len() {
        if output.len() - written < LINE_OUTPUT {
            break;
        }
        let fed = feed(held, store, &piece[used..], &mut output[written..]);
        held = fed.state;
        used += fed.used;
        written += fed.written;
    }
    Lines {
        state: held,
        used,
        written,
    }
}

// Writes to standard output.
fn put(rt: &HostRuntime, text: &[u8]) -> Result<(), Failure> {
    rt.stdout().write_all(text).map_err(|_| Failure::Writing)
}

// Runs a piece of the script and writes what it writes.
fn run_piece(
    rt: &HostRuntime,
    state: ScriptState,
    store: &mut [u8],
    piece: &[u8],
    output: &mut [u8],
) -> Result<ScriptState, Failure>
    requires serves { Serves state store.old }
    requires line_output_in_bounds { line_output ≤ length output.old }
    ensures serves_2 { IfOk result (λ after. Serves after store.new) }
    ensures store_after { IfOk result (λ after. state_of after store.new
        ≡ (on_bytes (state_of state store.old) piece.now).state) }
{
    let mut held = state;
    let mut at = 0;
    while at < piece.len() {
        let ran = run_lines(held, store, &piece[at..], output);
        held = ran.state;
        put(rt, &output[..ran.written])?;
        at += ran.used;
    }
    Ok(held)
}

// Ends the script: writes what a last line that lacks its LF writes.
fn end_script(
    rt: &HostRuntime,
    state: ScriptState,
    store: &mut [u8],
    output: &mut [u8],
) -> Result<(), Failure> {
    let fed = finish(state, store, output);
    put(rt, &output[..fed.written])
}

// Runs the script of standard input. A proved loop ends: no run uses up the reads of this one.
fn run_script(rt: &HostRuntime, store: &mut [u8], output: &mut [u8]) -> Result<(), Failure>
    requires store_in_bounds { store_bytes ≤ length store.old }
    requires line_output_in_bounds { line_output ≤ length output.old }
{
    let mut state = start();
    for _ in 0..u64::MAX {
        let mut piece = [0u8; 65536];
        let n = rt.stdin().read(&mut piece).map_err(|_| Failure::Reading)?;
        if n == 0 {
            return end_script(rt, state, store, output);
        }
        state = run_piece(rt, state, store, &piece[..n], output)?;
    }
    Ok(())
}

// Says on standard error what failed. Where that fails too, nobody is left to be told.
fn complain(rt: &HostRuntime, failure: Failure) {
    let text: &[u8] = match failure {
        Failure::Reading => b"script: reading failed\n",
        Failure::Writing => b"script: writing failed\n",
    };
    let _ = rt.stderr().write_all(text);
}

fn main(rt: HostRuntime) {
    let mut store = [0u8; STORE_BYTES];
    let mut output = [0u8; BUFFER];
    if let Err(failure) = run_script(&rt, &mut store, &mut output) {
        complain(&rt, failure);
    }
}
