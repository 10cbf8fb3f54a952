// Bits of a bitmap block, lowest bit of a byte first.
ghost use Rattle.std.specs.Prelude.{◌≡◌, true, ◌%◌, ◌≤◌, ◌<◌, length};
ghost use Rattle.image.specs.Decode.{bit_of};
ghost use Rattle.chain.specs.Bitmap.{lowest_free, ones_from, Full};

// Bit `n`.
pub fn bit_of(map: &[u8], n: u32) -> u8
    requires { (length map.now ≡ 512) × (n < 2048) }
    ensures { result ≡ bit_of map.now n }
{
    let at = (n / 8) as usize;
    (map[at] >> (n % 8)) % 2
}

// Whether the bytes from place `at` on are all ones. Without an early return, so that the compiler vectorises it.
fn is_full(map: &[u8], at: usize) -> bool
    requires { (length map.now ≡ 512) × (at ≤ 256) }
    ensures { result ≡ true → Full map.now at }
{
    let mut full = true;
    for byte in &map[at..256] {
        if *byte != 255 {
            full = false;
        }
    }
    full
}

// A bit at a byte's start, `from` or later, from which on every bit is 1: 2048, or the first one.
fn ones_end(map: &[u8], from: u32) -> u32
    requires { (length map.now ≡ 512) × (from ≤ 2048) }
    ensures { (from ≤ result) × (result ≤ 2048) × (result % 8 ≡ 0) × (ones_from map.now result ≡ true) }
{
    let at = (from + 7) / 8;
    if is_full(map, at as usize) {
        return 8 * at;
    }
    2048
}

// Whether every bit from bit `from` on is 1.
pub fn all_ones(map: &[u8], from: u32) -> bool
    requires { (length map.now ≡ 512) × (from ≤ 2048) }
    ensures { result ≡ ones_from map.now from }
{
    let end = ones_end(map, from);
    let mut n = from;
    while n < end {
        if map[(n / 8) as usize] == 255 {
            n = n / 8 * 8 + 8;
        } else {
            if bit_of(map, n) == 0 {
                return false;
            }
            n += 1;
        }
    }
    true
}

// The lowest bit that is 0, looked for bit by bit. A byte of ones is passed by whole; the label leaves both loops.
fn search_free(map: &[u8]) -> Option<u32>
    requires { length map.now ≡ 512 }
    ensures { result ≡ lowest_free map.now }
{
    let mut free = None;
    'bytes: for i in 0..256usize {
        if map[i] != 255 {
            for j in 0..8usize {
                if (map[i] >> j) % 2 == 0 {
                    free = Some((8 * i + j) as u32);
                    break 'bytes;
                }
            }
        }
    }
    free
}

// The lowest bit that is 0.
pub fn lowest_free(map: &[u8]) -> Option<u32>
    requires { length map.now ≡ 512 }
    ensures { result ≡ lowest_free map.now }
{
    if is_full(map, 0) {
        return None;
    }
    search_free(map)
}
