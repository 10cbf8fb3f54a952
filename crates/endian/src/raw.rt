// Bytes that are tested for zero.
ghost use Rattle.std.specs.Prelude.{◌≡◌, ◌≤◌, length};
ghost use Rattle.lists.specs.Bytes.{part, all_zero};

// Whether the bytes from place `from` up to `to` are zero. Without an early return, so that the compiler vectorises it.
pub fn is_zero(p: &[u8], from: usize, to: usize) -> bool
    requires { (from ≤ to) × (to ≤ length p.now) }
    ensures { result ≡ all_zero (part from to p.now) }
{
    let mut zero = true;
    for byte in &p[from..to] {
        if *byte != 0 {
            zero = false;
        }
    }
    zero
}
