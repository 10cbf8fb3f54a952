// Runs the examples of standard input, one on a line, and writes what the crates compute for each (README.md).
#![tactic(auto)]

mod parse;
mod show;

use cases::{each_line, read_full};
use show::show_line;
use std::io;

fn main(rt: HostRuntime) -> io::Result<()> {
    let mut text = [0u8; 65536];
    let n = read_full(&mut rt.stdin(), &mut text)?;
    each_line(&text[..n], |line| show_line(&rt, line))
}
