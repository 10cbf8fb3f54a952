// Document 01, "Where things stand": the bucket of a hash code, and the blocks of buckets and overflow bits.
#![tactic(auto)]

pub mod limits; // limits.rt: the largest N

ghost use Rattle.std.specs.Prelude.{◌≡◌, suc, pred, ◌+◌, ◌^◌, ◌≤◌, ◌<◌, take};
ghost use Rattle.address.specs.Address.{buckets_at, high_mask, low_mask, bucket_of, split_from, last_split};
ghost use Rattle.address.specs.Address.{point, bucket_point, bucket_block, bit_point, bit_block, made};
ghost use Rattle.address.specs.Role.{SparesOk, role_of};
ghost use Rattle.address.specs.BlockRole.{role_case};

// The smallest of 3, 7, 15, .. that is at least `max`.
pub fn high_mask(max: u32) -> u32
    ensures { result ≡ high_mask max }
{
    if max < 2 {
        return 3;
    }
    0xFFFF_FFFF >> max.leading_zeros()
}

// Half of the high mask, rounded down.
pub fn low_mask(max: u32) -> u32
    ensures { result ≡ low_mask max }
{
    high_mask(max) / 2
}

// `hash` and the high mask; if that is above `max`, `hash` and the low mask.
pub fn bucket_of(hash: u32, max: u32) -> u32
    ensures { result ≡ bucket_of max hash }
{
    let bucket = hash & high_mask(max);
    if bucket <= max {
        return bucket;
    }
    hash & low_mask(max)
}

// The bucket that `bucket` splits off from: `bucket` less its highest one bit.
pub fn parent_of(bucket: u32) -> u32
    ensures { result ≡ split_from bucket }
{
    if bucket == 0 {
        return 0;
    }
    bucket - (1u32 << (31 - bucket.leading_zeros()))
}

// Buckets in all at point `i`: up to 9 those of a group, from 10 on those of a phase, five to eight quarters of what
// stood there before its group.
pub fn buckets_at(i: u32) -> u32
    requires { i ≤ 31 }
    ensures { result ≡ buckets_at i }
{
    if i < 10 {
        return 1u32 << i;
    }
    let phase = i - 10;
    (5 + phase % 4) << (7 + phase / 4)
}

// The smallest point with `buckets_at` above `bucket`: leading zeros give its group, and from group 10 on the two bits
// after the highest one bit the phase.
pub fn point_of_bucket(bucket: u32) -> u32
    ensures { result ≡ bucket_point bucket }
{
    let group = 32 - bucket.leading_zeros();
    if group < 10 {
        return group;
    }
    let phase = (bucket >> (group - 3)) - 4;
    10 + 4 * (group - 10) + phase
}

// The overflow point of max bucket `max`.
pub fn point_of(max: u32) -> u32
    ensures { result ≡ point max }
{
    if max == 0 {
        return 1;
    }
    point_of_bucket(max)
}

// The highest bucket from 2 to `max` that is `bucket` or split off from it, or 1. What split off is `bucket` and a
// one bit above it: the highest one bit of the way to `max`, if that is above `bucket`.
pub fn last_split(max: u32, bucket: u32) -> u32
    ensures { result ≡ last_split max bucket }
{
    if max < bucket || max == 0 {
        return 1;
    }
    let way = max - bucket;
    let top = way - parent_of(way);
    if bucket < top { bucket + top } else { bucket }
}

// The block of a bucket: past the meta block, the buckets before it and the overflow bits of earlier points.
pub fn bucket_block(spares: [u32; 16], bucket: u32) -> u32
    requires { (bucket < buckets_at 16) × (bucket_block spares bucket < 2 ^ 32) }
    ensures { result ≡ bucket_block spares bucket }
{
    if bucket == 0 {
        return 1;
    }
    let before = (point_of_bucket(bucket) - 1) as usize;
    bucket + spares[before] + 1
}

// The point of an overflow bit: the smallest i from 1 to `s` with `bit` below its spares, or `s`.
fn bit_point(spares: [u32; 16], s: u32, bit: u32) -> u32
    requires { s ≤ 16 }
    ensures { (result ≡ bit_point spares bit 1 (pred s)) × (result ≤ 16) }
{
    for i in 1..s {
        if bit < spares[i as usize] {
            return i;
        }
    }
    s.max(1)
}

// The block of an overflow bit: past the meta block, the buckets up to its point and the bits before it.
pub fn bit_block(spares: [u32; 16], s: u32, bit: u32) -> u32
    requires { (s ≤ 16) × (bit_block spares s bit < 2 ^ 32) }
    ensures { result ≡ bit_block spares s bit }
{
    buckets_at(bit_point(spares, s, bit)) + bit + 1
}

// The number of made blocks, whatever the spares hold.
pub fn made_blocks(spares: [u32; 16], s: u32) -> u64
    requires { s ≤ 15 }
    ensures { result ≡ made spares s }
{
    u64::from(buckets_at(s)) + u64::from(spares[s as usize]) + 1
}

// The meta block, the page of a bucket, an overflow bit's block, or a block that is not made yet.
#[derive(Clone, Copy)]
pub enum BlockRole {
    Meta,
    Bucket(u32),
    Bit(u32),
    Unmade,
}

// From block 1 on, point by point: the buckets that it adds, then its overflow bits.
pub fn role_of(spares: [u32; 16], s: u32, block: u32) -> BlockRole
    requires { (s ≤ 15) × SparesOk (take (suc s) spares) s (2 ^ 32) }
    ensures { result ≡ role_case (role_of spares s block) }
{
    if block == 0 {
        return BlockRole::Meta;
    }
    let place = block - 1;
    for point in 1..=s {
        let buckets = buckets_at(point);
        let before = spares[(point - 1) as usize];
        if place < buckets + before {
            return BlockRole::Bucket(place - before);
        }
        if place < buckets + spares[point as usize] {
            return BlockRole::Bit(place - buckets);
        }
    }
    BlockRole::Unmade
}
