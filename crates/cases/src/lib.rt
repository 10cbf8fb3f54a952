// Cases that a program reads from its input, one on a line, with bytes in hexadecimal; every input is taken.
#![tactic(auto)]

ghost use Rattle.std.specs.Prelude.{◌≡◌, ◌<◌, ◌≤◌, Err, IfErr, IfOk, IfSome, MatchOption, drop, length};
ghost use Rattle.cases.specs.Counts.{IsPrefixLen};

use std::io;
use std::io::Read;

// Zeros to read into. The contract gives their number alone: a proof above that saw each of them would spell them out.
pub fn zeros<const N: usize>() -> [u8; N]
    ensures { N ≡ length result }
{
    [0; N]
}

// Reads until `out` is full or the input ends, and answers how many bytes it put at the start of `out`.
pub fn read_full<R: Read>(input: &mut R, out: &mut [u8]) -> io::Result<usize>
    ensures { IfOk result (λ n. IsPrefixLen n out.new) }
{
    let mut done = 0;
    while done < out.len() {
        let n = input.read(&mut out[done..])?;
        if n == 0 {
            break;
        }
        done += n;
    }
    Ok(done)
}

// Shows each line of `text`, without its LF, which the last may lack. An error is one that `show` gave.
pub fn each_line<F: FnMut(&[u8]) -> io::Result<()>>(text: &[u8], mut show: F) -> io::Result<()>
    requires { F.IsAlwaysCallable show }
    ensures { IfErr result (λ e. (f : _) × (line : _) × F.post f line (Err e)) }
{
    for line in text.split_inclusive(|byte| *byte == b'\n') {
        show(line.strip_suffix(b"\n").unwrap_or(line))?;
    }
    Ok(())
}

// The value of a hexadecimal digit in lower case.
pub fn digit_of(byte: u8) -> Option<u8>
    ensures { IfSome result (λ digit. digit < 16) }
{
    match byte {
        b'0'..=b'9' => Some(byte - b'0'),
        b'a'..=b'f' => Some(byte - b'a' + 10),
        _ => None,
    }
}

// Takes the byte whose two hexadecimal digits `rest` begins with.
fn take_byte(rest: &mut &[u8]) -> Option<u8>
    ensures { MatchOption result (rest.new.now ≡ rest.old.now)
        (λ byte. (2 ≤ length rest.old.now) × (rest.new.now ≡ drop 2 rest.old.now)) }
{
    let [high, low, more @ ..] = *rest else {
        return None;
    };
    let byte = 16 * digit_of(*high)? + digit_of(*low)?;
    *rest = more;
    Some(byte)
}

// Puts the bytes that `digits` begins with into `out`, as many as it has room for, and answers their number.
pub fn read_bytes(digits: &[u8], out: &mut [u8]) -> usize
    ensures { IsPrefixLen result out.new }
{
    let mut rest = digits;
    for (n, place) in out.iter_mut().enumerate() {
        let Some(byte) = take_byte(&mut rest) else {
            return n;
        };
        *place = byte;
    }
    out.len()
}
