// Rule 3: each block's flags, id and bucket fit its role.
ghost use Rattle.std.specs.Prelude.{◌≡◌, length};
ghost use Rattle.lists.specs.Lists.{all, up_from};
ghost use Rattle.lists.specs.Block.{blocks, block};
ghost use Rattle.address.specs.Role.{bucket_page, bit_page};
ghost use Rattle.image.specs.Decode.{max_at, role_at};
ghost use Rattle.image.specs.Rules.{unused, unlinked, bucket_flags_ok, fits, rule3};
ghost use Rattle.reader.specs.Known.{Known2};
ghost use Rattle.reader.specs.Roles.{as_role};

use address::{BlockRole, parent_of};
use endian::raw::is_zero;
use image::Meta;
use reader::buckets::bucket_flags;
use reader::roles::role_at;
use store::flags::{BITMAP, BUCKET, CLEANUP, META, NO_LINK, OVERFLOW, PAGE_ID, POPULATED, SPLIT};
use store::{block_at, bucket_at, flags_at, id_at, next_at, prev_at};

fn is_unused(part: &[u8]) -> bool
    requires { length part.now ≡ 512 }
    ensures { result ≡ unused part.now }
{
    is_zero(part, 0, 508)
}

// Whether the trailer has these flags, and neither links nor a bucket.
fn is_unlinked(part: &[u8], flags: u16) -> bool
    requires { length part.now ≡ 512 }
    ensures { result ≡ unlinked flags part.now }
{
    if flags_at(part) != flags {
        return false;
    }
    if id_at(part) != PAGE_ID {
        return false;
    }
    if prev_at(part) != NO_LINK {
        return false;
    }
    if next_at(part) != NO_LINK {
        return false;
    }
    bucket_at(part) == NO_LINK
}

// Whether the page of bucket `b` may have these flags.
fn may_flag(max: u32, b: u32, flags: u16) -> bool
    ensures { result ≡ bucket_flags_ok max b flags }
{
    match flags {
        BUCKET => true,
        POPULATED => b == max,
        SPLIT | CLEANUP => b == parent_of(max),
        _ => false,
    }
}

// The block of bucket `b` against its role.
fn fits_bucket(part: &[u8], max: u32, b: u32) -> bool
    requires { length part.now ≡ 512 }
    ensures { result ≡ fits max (bucket_page b) part.now }
{
    if max < b {
        return is_unused(part);
    }
    if !may_flag(max, b, flags_at(part)) {
        return false;
    }
    if id_at(part) != PAGE_ID {
        return false;
    }
    bucket_at(part) == b
}

// The block of overflow bit `n` against its role.
fn fits_bit(part: &[u8], max: u32, n: u32) -> bool
    requires { length part.now ≡ 512 }
    ensures { result ≡ fits max (bit_page n) part.now }
{
    if n == 0 {
        return is_unlinked(part, BITMAP);
    }
    if flags_at(part) != OVERFLOW {
        return is_unused(part);
    }
    if id_at(part) != PAGE_ID {
        return false;
    }
    bucket_at(part) <= max
}

// A block against its role.
fn fits_role(part: &[u8], max: u32, role: BlockRole) -> bool
    requires { length part.now ≡ 512 }
    ensures { result ≡ fits max (as_role role) part.now }
{
    match role {
        BlockRole::Meta => is_unlinked(part, META),
        BlockRole::Bucket(b) => fits_bucket(part, max, b),
        BlockRole::Bit(n) => fits_bit(part, max, n),
        BlockRole::Unmade => is_unused(part),
    }
}

// Whether every block fits its role.
fn check_fits(store: &[u8], m: Meta) -> bool
    requires { Known2 store.now m }
    ensures { result ≡ all (λ k. fits (max_at store.now) (role_at store.now k)
        (block store.now k)) (up_from 0 (blocks store.now)) }
{
    let size = store.len() / 512;
    for k in 0..size {
        if !fits_role(block_at(store, k), m.max, role_at(m, k as u32)) {
            return false;
        }
    }
    true
}

// Rule 3. The new bucket is populated exactly while the old one is split.
pub fn check_roles(store: &[u8], m: Meta) -> bool
    requires { Known2 store.now m }
    ensures { result ≡ rule3 store.now }
{
    if !check_fits(store, m) {
        return false;
    }
    let populated = bucket_flags(store, m, m.max) == POPULATED;
    let split = bucket_flags(store, m, parent_of(m.max)) == SPLIT;
    populated == split
}
