// What the crates compute for an example, on a line of standard output.
ghost use Rattle.std.specs.Prelude.{◌≤◌};
ghost use Rattle.vectors.specs.Rest.{RestOf};
ghost use Rattle.vectors.specs.Small.{Small};

use crate::parse::{read_number, read_spares, skip_byte};
use cases::read_bytes;
use std::io;

// The check of bytes in hexadecimal.
fn show_check(rt: &impl Print, digits: &[u8]) -> io::Result<()> {
    let mut bytes = [0u8; 64];
    let n = read_bytes(digits, &mut bytes);
    let check = crc32c::crc32c(&bytes[..n]);
    println!(rt; "check {check:08x}")
}

// Buckets in all at point 16: 16 spares place those below it.
const PLACED_BUCKETS: u32 = 1792;

// Block and previous field of each bucket that `rest` begins with. Takes the whole rest where one is not placed.
fn show_buckets(rt: &impl Print, rest: &mut &[u8], max: u32, spares: [u32; 16]) -> io::Result<()>
    requires { Small spares }
    ensures { RestOf rest.new.now rest.old.now }
{
    while let Some(bucket) = read_number(rest) {
        if PLACED_BUCKETS <= bucket {
            *rest = &[];
            break;
        }
        let block = address::bucket_block(spares, bucket);
        let previous = address::last_split(max, bucket);
        print!(rt; " {block}/{previous}")?;
        skip_byte(rest, b' ');
    }
    Ok(())
}

// The block of each overflow bit that `rest` begins with.
fn show_bits(rt: &impl Print, mut rest: &[u8], point: u32, spares: [u32; 16]) -> io::Result<()>
    requires { point ≤ 15 }
{
    while let Some(bit) = read_number(&mut rest) {
        let block = address::bit_block(spares, point, bit);
        print!(rt; " {block}")?;
        skip_byte(&mut rest, b' ');
    }
    Ok(())
}

// A moment of an index: masks, overflow point, made blocks, buckets and overflow bits.
fn show_moment(rt: &impl Print, moment: &[u8]) -> io::Result<()> {
    let mut rest = moment;
    let max = read_number(&mut rest).unwrap_or(0);
    let point = address::point_of(max);
    if point > 15 {
        return Ok(());
    }
    skip_byte(&mut rest, b';');
    let spares = read_spares(&mut rest);
    let high = address::high_mask(max);
    let low = address::low_mask(max);
    let made = address::made_blocks(spares, point);
    print!(rt; "masks {high} {low} point {point} made {made} buckets")?;
    skip_byte(&mut rest, b';');
    show_buckets(rt, &mut rest, max, spares)?;
    print!(rt; " bits")?;
    skip_byte(&mut rest, b';');
    show_bits(rt, rest, point, spares)?;
    println!(rt; "")
}

pub fn show_line(rt: &impl Print, line: &[u8]) -> io::Result<()> {
    match line {
        [b'c', _, digits @ ..] => show_check(rt, digits),
        [b'a', _, moment @ ..] => show_moment(rt, moment),
        _ => Ok(()),
    }
}
