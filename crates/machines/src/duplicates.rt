// The first full name of a machine's states that stood before it, in the layout's table of names (`qualified`). Names are told apart
// by fingerprints, the two halves of the number by which pack's tables find a name, so that letters are seldom compared:
//   lows, highs   of each name so far its two halves, as many as there is room for
// Only a name of which both halves stood before is compared with all before it, letter by letter.
ghost use Rattle.std.specs.Prelude.{◌&&◌, ◌≡◌, set, take};
ghost use Rattle.machines.specs.Fingerprints.{Halves, among as is_among, high_of, low_of, may_equal};
ghost use Rattle.pack_rules.specs.Names.{member};
ghost use Rattle.pack.specs.Intern.{table};
ghost use Rattle.machines.specs.Duplicates.{duplicate_at};

use pack::intern::find_name;
use pack::record::Pack;
use pack::siphash::hash;
use wire::writer::capped;

// --- Marks of names, by which names that differ are told apart without a look at all of their letters: the two halves of the number by
// which pack's tables find a name. They are kept apart, since a low half is looked for more quickly than both, and where names were
// made of one low half the high ones differ.

#[derive(Clone, Copy)]
pub struct Fingerprint {
    pub low: u32,
    pub high: u32,
}

// A name's mark.
pub fn fingerprint_of(n: &[u8]) -> Fingerprint
    ensures { (result.low ≡ low_of n.now) × (result.high ≡ high_of n.now) }
{
    let h = hash(n);
    Fingerprint {
        low: (h % 4294967296) as u32,
        high: (h / 4294967296 % 4294967296) as u32,
    }
}

// Whether a half is among halves. The loop has no way out but its end, so that many are looked at in one step.
fn contains_half(halves: &[u32], m: u32) -> bool
    ensures { result ≡ is_among m halves.now }
{
    let mut hit = false;
    for &h in halves {
        hit |= h == m;
    }
    hit
}

// Whether a half may be one of k, of which only those are kept that there is room for.
fn half_may_equal(halves: &[u32], k: usize, m: u32) -> bool
    ensures { result ≡ may_equal halves.now k m }
{
    if halves.len() < k {
        return true;
    }
    contains_half(&halves[..k], m)
}

// Whether a mark may be one of k, by both of its halves.
pub fn may_equal(lows: &[u32], highs: &[u32], k: usize, m: Fingerprint) -> bool
    ensures { result ≡ (may_equal lows.now k m.low && may_equal highs.now k m.high) }
{
    if half_may_equal(lows, k, m.low) {
        return half_may_equal(highs, k, m.high);
    }
    false
}

// The half m comes next, as the k-th; nothing is written past the end.
pub fn put_half(halves: &mut [u32], k: usize, m: u32)
    ensures { halves.new ≡ set halves.old k m }
{
    if k < halves.len() {
        halves[k] = m;
    }
}

// Whether a name is in a table.
fn contains_name(t: &[u8], n: &[u8]) -> bool
    ensures { result ≡ member n.now (table t.now) }
{
    find_name(t, n).is_ok()
}

// The same where the marks of the table's k names are known, and m is the name's own.
fn contains_marked(
    t: &[u8],
    n: &[u8],
    lows: &[u32],
    highs: &[u32],
    k: usize,
    m: Fingerprint,
) -> bool
    requires { (m.low ≡ low_of n.now) × (m.high ≡ high_of n.now) × Halves low_of lows.now k t.now × Halves high_of highs.now k t.now }
    ensures { result ≡ member n.now (table t.now) }
{
    if may_equal(lows, highs, k, m) {
        return contains_name(t, n);
    }
    false
}

// Where the first name stands that stood before. The marks of names are kept, as many as there is room for.
fn first_duplicate(t: &[u8], lows: &mut [u32], highs: &mut [u32]) -> Option<usize>
    ensures { result ≡ duplicate_at t.now }
{
    let mut at = 0;
    let mut k = 0;
    while at < t.len() {
        let b = at + 1;
        let l = t[at] as usize;
        let e = capped(t.len(), b, l);
        let m = fingerprint_of(&t[b..e]);
        if contains_marked(&t[..at], &t[b..e], lows, highs, k, m) {
            return Some(at);
        }
        put_half(lows, k, m.low);
        put_half(highs, k, m.high);
        at = e;
        k += 1;
    }
    None
}

// The same in the first `end` bytes of a buffer.
pub fn duplicate_name(qualified: &[u8], end: usize) -> Option<usize>
    ensures { result ≡ duplicate_at (take end qualified.now) }
{
    let e = end.min(qualified.len());
    let mut lows = [0u32; Pack::STATES];
    let mut highs = [0u32; Pack::STATES];
    first_duplicate(&qualified[..e], &mut lows, &mut highs)
}
