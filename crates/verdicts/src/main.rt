// Reads stores from standard input, one on a line in hexadecimal, and writes the verdict on each (README.md).
#![tactic(auto)]

use address::limits::MAX_BLOCKS;
use cases::{each_line, read_bytes, read_full, zeros};
use image::Verdict;
use std::io;
use verify::verify;

// Document 01's number of a verdict, and what goes with it.
fn show_verdict(rt: &impl Print, verdict: Verdict) -> io::Result<()> {
    let (code, besides) = match verdict {
        Verdict::Sound => (0, 0),
        Verdict::BadLength => (1, 0),
        Verdict::Damaged { block } => (3, block),
        Verdict::NotIndex { rule } => (4, rule),
    };
    println!(rt; "{code} {besides}")
}

// A line is cut one block past the largest N, which is too many already.
const STORE_MAX: usize = 512 * (MAX_BLOCKS + 1);

fn show_store(rt: &impl Print, line: &[u8]) -> io::Result<()> {
    let mut store = zeros::<STORE_MAX>();
    let n = read_bytes(line, &mut store);
    show_verdict(rt, verify(&store[..n]))
}

fn main(rt: HostRuntime) -> io::Result<()> {
    let mut text = zeros::<524288>();
    let n = read_full(&mut rt.stdin(), &mut text)?;
    each_line(&text[..n], |line| show_store(&rt, line))
}
