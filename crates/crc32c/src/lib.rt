// CRC-32C (RFC 3720), a byte at a time from a table.
#![tactic(auto)]

mod table; // table.rt: what eight single-bit steps make of each byte

ghost use Rattle.std.specs.Prelude.{◌≡◌, ◌++◌};
ghost use Rattle.endian.specs.Endian.{le32};
ghost use Rattle.crc32c.specs.Crc.{crc_bits, crc_bytes, crc_of};
ghost use Rattle.crc32c.specs.Table.{byte_table};

use endian::get_u32;
use table::byte_table;

// What eight single-bit steps make of the state `c`: its lowest byte is shifted out.
fn shift_byte(table: &[u32; 256], c: u32) -> u32
    requires { table.now ≡ byte_table }
    ensures { result ≡ crc_bits 8 c }
{
    (c / 256) ^ table[(c % 256) as usize]
}

// The state `c` after the four bytes of `w`: they go into the state at once, and are worked off a byte at a time.
fn take_four(table: &[u32; 256], c: u32, w: u32) -> u32
    requires { table.now ≡ byte_table }
    ensures { result ≡ crc_bytes c (le32 w) }
{
    let first = shift_byte(table, w ^ c);
    let second = shift_byte(table, first);
    let third = shift_byte(table, second);
    shift_byte(table, third)
}

// The state `c` after the bytes of `s`.
fn update(table: &[u32; 256], c: u32, s: &[u8]) -> u32
    requires { table.now ≡ byte_table }
    ensures { result ≡ crc_bytes c s.now }
{
    let fours = s.chunks_exact(4);
    let rest = fours.remainder();
    let mut state = c;
    for four in fours {
        state = take_four(table, state, get_u32(four, 0));
    }
    for byte in rest {
        state = shift_byte(table, u32::from(*byte) ^ state);
    }
    state
}

// The check of `s`.
pub fn crc32c(s: &[u8]) -> u32
    ensures { result ≡ crc_of s.now }
{
    let table = byte_table();
    0xFFFF_FFFF - update(&table, 0xFFFF_FFFF, s)
}

// The check of two numbers and then `s`.
pub fn crc32c_after(first: u32, second: u32, s: &[u8]) -> u32
    ensures { result ≡ crc_of (le32 first ++ (le32 second ++ s.now)) }
{
    let table = byte_table();
    let one = take_four(&table, 0xFFFF_FFFF, first);
    let two = take_four(&table, one, second);
    0xFFFF_FFFF - update(&table, two, s)
}
