// The number of a name by which it is found in a table and told apart from others: SipHash's, with one round for eight bytes and two
// at the end (specs/Siphash).
ghost use Rattle.std.specs.Prelude.{◌≡◌, ◌-◌, ◌<◌, ◌≤◌, length};
ghost use Rattle.pack.specs.Siphash.{turned, half_round, rounded, mixed, joined, lanes_for, quad_at, hash as hash_of};

use crate::cells::byte_at;
use std::num::wrapping_add_u64;
use wire::number::WORD_RANGE;

// What was taken of a name so far.
#[derive(Clone, Copy, Debug, PartialEq, Eq)]
pub struct Lanes {
    pub a: u64,
    pub b: u64,
    pub c: u64,
    pub d: u64,
}

// The bits of x turned by k.
fn rotate_left(x: u64, k: u32) -> u64
    requires { (0 < k) × (k < 64) }
    ensures { result ≡ turned x k }
{
    (x << k) | (x >> (64 - k))
}

// Half a round of SipHash.
fn half_round(h: Lanes, j: u32, k: u32) -> Lanes
    requires { (0 < j) × (j < 64) × (0 < k) × (k < 64) }
    ensures { result ≡ half_round h j k }
{
    let e = wrapping_add_u64(h.a, h.b);
    let f = wrapping_add_u64(h.c, h.d);
    Lanes {
        a: f,
        b: rotate_left(h.b, j) ^ e,
        c: rotate_left(e, 32),
        d: rotate_left(h.d, k) ^ f,
    }
}

// A round of SipHash: two halves.
fn round(h: Lanes) -> Lanes
    ensures { result ≡ rounded h }
{
    half_round(half_round(h, 13, 16), 17, 21)
}

// Eight bytes more in the lanes, as two numbers.
fn mix(h: Lanes, x: usize, y: usize) -> Lanes
    requires { (x < 4294967296) × (y < 4294967296) }
    ensures { result ≡ mixed h x y }
{
    let m = (x + 4294967296 * y) as u64;
    let r = round(Lanes { d: h.d ^ m, ..h });
    Lanes { a: r.a ^ m, ..r }
}

// The number from lanes that took all of a name.
fn join(h: Lanes) -> usize
    ensures { result ≡ joined h }
{
    let r = round(round(Lanes { c: h.c ^ 255, ..h }));
    (r.a ^ r.b ^ r.c ^ r.d) as usize
}

// Four bytes of a name as one number; those past its end are 0.
pub fn read_u32_padded(n: &[u8], i: usize) -> usize
    requires { i ≤ length n.now }
    ensures { (result ≡ quad_at n.now i) × (result < 4294967296) }
{
    if i + 3 < n.len() {
        return n[i] as usize
            + 256 * n[i + 1] as usize
            + WORD_RANGE * n[i + 2] as usize
            + 16777216 * n[i + 3] as usize;
    }
    byte_at(n, i) + 256 * byte_at(n, i + 1) + WORD_RANGE * byte_at(n, i + 2)
}

// Where the last k of l bytes begin, or all where there are fewer.
pub fn last(l: usize, k: usize) -> usize
    ensures { result ≡ l - k }
{
    l.saturating_sub(k)
}

// The lanes before a name of l bytes.
fn lanes_for(l: usize) -> Lanes
    ensures { result ≡ lanes_for l }
{
    Lanes {
        a: 8317987319222330741,
        b: 7237128888997146477,
        c: 7816392313619706465,
        d: 8387220255154660723 ^ l as u64,
    }
}

// The number of a name.
pub fn hash(n: &[u8]) -> usize
    ensures { result ≡ hash_of n.now }
{
    let l = n.len();
    let mut h = lanes_for(l);
    for k in 0..l.saturating_sub(1) / 8 {
        let i = 8 * k;
        h = mix(h, read_u32_padded(n, i), read_u32_padded(n, i + 4));
    }
    join(mix(
        h,
        read_u32_padded(n, last(l, 8)),
        read_u32_padded(n, last(l, 4)),
    ))
}
