// Little-endian numbers at a place of a byte slice.
#![tactic(auto)]

pub mod raw; // raw.rt: bytes tested for zero

ghost use Rattle.std.specs.Prelude.{◌≡◌, ◌+◌, ◌≤◌, ◌<◌, length};
ghost use Rattle.std.proofs.lemmas.List.Edits.{sets};
ghost use Rattle.endian.specs.Endian.{le16, le32, u16_at, u32_at};

// The 16-bit number at place `at` of `s`.
pub fn get_u16(s: &[u8], at: usize) -> u16
    requires { at + 2 ≤ length s.now }
    ensures { result ≡ u16_at s.now at }
{
    u16::from_le_bytes([s[at], s[at + 1]])
}

// The 32-bit number at place `at` of `s`.
pub fn get_u32(s: &[u8], at: usize) -> u32
    requires { at + 4 ≤ length s.now }
    ensures { result ≡ u32_at s.now at }
{
    u32::from_le_bytes([s[at], s[at + 1], s[at + 2], s[at + 3]])
}

// Writes `v` at place `at` of `s`.
pub fn put_u16(s: &mut [u8], at: usize, v: u16)
    requires { at + 2 ≤ length s.old }
    ensures { s.new ≡ sets s.old at (le16 v) }
{
    s[at..at + 2].copy_from_slice(&v.to_le_bytes());
}

pub fn put_u32(s: &mut [u8], at: usize, v: u32)
    requires { at + 4 ≤ length s.old }
    ensures { s.new ≡ sets s.old at (le32 v) }
{
    s[at..at + 4].copy_from_slice(&v.to_le_bytes());
}
