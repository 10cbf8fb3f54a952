// Numbers and lines of output as text. Each function writes from `at` or from the output's start on, and answers where
// it ended.
#![tactic(auto)]

ghost use Rattle.std.specs.Prelude.{◌≡◌, ◌+◌, ◌*◌, ◌≤◌, ◌<◌, length, drop};
ghost use Rattle.lists.specs.Lists.{bind, up_from};
ghost use Rattle.text.specs.Digits.{digits};
ghost use Rattle.text.specs.Text.{line_output, store_text, ok_text, refused_text};
ghost use Rattle.text.specs.Wrote.{Wrote};
ghost use Rattle.text.specs.Text.{two_text, steps_text, place_text, found_text};

use endian::{get_u16, get_u32};

// The bytes that one line of output can need: 5,000 matches of 17 bytes, their number, a colon and LF.
pub const LINE_OUTPUT: usize = 85006;

// Puts the digits of `n` at the end of `space`, and answers where they begin.
fn spell(n: u64, space: &mut [u8; 20]) -> usize
    ensures { (result ≤ 20) × (drop result space.new ≡ digits n) }
{
    let mut rest = n;
    let mut at = 20;
    loop {
        at -= 1;
        space[at] = b'0' + (rest % 10) as u8;
        rest /= 10;
        if rest == 0 {
            return at;
        }
    }
}

fn put_bytes(output: &mut [u8], at: usize, bytes: &[u8]) -> usize
    requires { at + length bytes.now ≤ length output.old }
    ensures { Wrote output.old at bytes.now output.new result }
{
    let end = at + bytes.len();
    output[at..end].copy_from_slice(bytes);
    end
}

fn put_number(output: &mut [u8], at: usize, n: u64) -> usize
    requires { at + length (digits n) ≤ length output.old }
    ensures { Wrote output.old at (digits n) output.new result }
{
    let mut space = [0u8; 20];
    let from = spell(n, &mut space);
    put_bytes(output, at, &space[from..])
}

// A line of two numbers, each after a word.
fn put_two(output: &mut [u8], first: &[u8], a: u64, second: &[u8], b: u64) -> usize
    requires { (length first.now ≤ 10) × (length second.now ≤ 10) × (line_output ≤ length output.old) }
    ensures { Wrote output.old 0 (two_text first.now a second.now b)
        output.new result }
{
    let c = put_bytes(output, 0, first);
    let d = put_number(output, c, a);
    let e = put_bytes(output, d, second);
    let f = put_number(output, e, b);
    put_bytes(output, f, b"\n")
}

// The answer to a format that is accepted.
pub fn put_store(output: &mut [u8], blocks: u32, fill: u32) -> usize
    requires { line_output ≤ length output.old }
    ensures { Wrote output.old 0 (store_text blocks fill) output.new result }
{
    put_two(output, b"store ", blocks as u64, b" fill ", fill as u64)
}

// The answer to an insert or a removal that is accepted.
pub fn put_ok(output: &mut [u8]) -> usize
    requires { line_output ≤ length output.old }
    ensures { Wrote output.old 0 ok_text output.new result }
{
    put_bytes(output, 0, b"ok\n")
}

// A refusal, by its number.
pub fn put_refused(output: &mut [u8], line: u64, number: u32) -> usize
    requires { line_output ≤ length output.old }
    ensures { Wrote output.old 0 (refused_text line number) output.new result }
{
    put_two(output, b"line ", line, b": refused ", number as u64)
}

// The answer to a work call that is accepted.
pub fn put_steps(output: &mut [u8], steps: u32, stop: u32) -> usize
    requires { line_output ≤ length output.old }
    ensures { Wrote output.old 0 (steps_text steps stop) output.new result }
{
    put_two(output, b"steps ", steps as u64, b" stop ", stop as u64)
}

// The `i`-th match.
fn put_place(output: &mut [u8], at: usize, places: &[u8], i: usize) -> usize
    requires { (6 * i + 6 ≤ length places.now) × (at + 17 ≤ length output.old) }
    ensures wrote { Wrote output.old at (place_text places.now i) output.new result }
    ensures upper_bound { result ≤ at + 17 }
{
    let from = 6 * i;
    let block = get_u32(places, from);
    let offset = get_u16(places, from + 4);
    let a = put_bytes(output, at, b" ");
    let b = put_number(output, a, block as u64);
    let c = put_bytes(output, b, b"/");
    put_number(output, c, offset as u64)
}

// The first `count` matches.
fn put_places(output: &mut [u8], at: usize, places: &[u8], count: usize) -> usize
    requires { (6 * count ≤ length places.now) × (at + 17 * count ≤ length output.old) }
    ensures wrote { Wrote output.old at (bind (up_from 0 count) (place_text places.now))
        output.new result }
    ensures upper_bound { result ≤ at + 17 * count }
{
    let mut end = at;
    for i in 0..count {
        end = put_place(output, end, places, i);
    }
    end
}

// The answer to a lookup with `count` matches.
pub fn put_found(output: &mut [u8], places: &[u8], count: u32) -> usize
    requires { (6 * count ≤ length places.now) × (count ≤ 5000) × (line_output ≤ length output.old) }
    ensures { Wrote output.old 0 (found_text count places.now) output.new result }
{
    let a = put_number(output, 0, count as u64);
    let b = put_bytes(output, a, b":");
    let c = put_places(output, b, places, count as usize);
    put_bytes(output, c, b"\n")
}
