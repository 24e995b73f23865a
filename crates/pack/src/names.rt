// The name section.
#![tactic(auto, unfolding(wire::specs::Answer::bind, wire::specs::Answer::guard, wire::specs::Code::read_of, wire::specs::Code::skip, pack_rules::specs::Read::char, pack_rules::specs::Read::size, pack_rules::specs::Read::name, pack_rules::specs::Read::name_section))]

ghost use Rattle.std.specs.Prelude.{◌≡◌, ◌+◌, ◌*◌, ◌≤◌, ◌&&◌, [], length, take, drop, nat_le, nat_lt, slice_index};
ghost use Rattle.wire.specs.Answer.{many};
ghost use Rattle.wire.specs.Code.{read_of, skip};
ghost use Rattle.pack_rules.specs.Names.{eq_name};
ghost use Rattle.pack_rules.specs.Read.{name_byte, name_bytes, char, size, name, names_after, name_section};
ghost use Rattle.pack.specs.RawNames.{raw_name, Inside, one_of, Follows};
ghost use Rattle.pack.specs.Distinct.{Tells};

use crate::distinct::{ROOM, enabled, enter, free_slot, probe};
use crate::intern::same;
use crate::siphash::hash;
use wire::answer::{Read, Skipped, Stop};
use wire::number::{read_byte, read_u16};

// Whether b is one of the numbers from low on and below high.
fn within(b: usize, low: usize, high: usize) -> bool
    ensures { result ≡ nat_le low b && nat_lt b high }
{
    (low <= b) & (b < high)
}

// A byte of a name: a letter, a digit or an underscore. No test is left out where one holds: what is compiled then has no branches.
pub fn name_byte(b: usize) -> bool
    ensures { result ≡ name_byte b }
{
    let digit = within(b, 48, 58);
    let upper = within(b, 65, 91);
    let lower = within(b, 97, 123);
    digit | upper | (b == 95) | lower
}

// Whether all bytes of n are bytes of a name. The loop has no way out but its end, so that many bytes are looked at in one step.
fn each_byte(n: &[u8]) -> bool
    ensures { result ≡ name_bytes n.now }
{
    let mut all = true;
    for b in n {
        all = all & name_byte(usize::from(*b));
    }
    all
}

// The same of k to 2 * k bytes, as the first k and the last k.
fn both_ends(n: &[u8], k: usize) -> bool
    requires { (k ≤ length n.now) × (length n.now ≤ 2 * k) }
    ensures { result ≡ name_bytes n.now }
{
    let b = n.len() - k;
    let first = each_byte(&n[..k]);
    let last = each_byte(&n[b..]);
    first & last
}

// The same of 16 bytes or more, as the last 16 and, before them, a multiple of 16.
fn by_blocks(n: &[u8]) -> bool
    requires { 16 ≤ length n.now }
    ensures { result ≡ name_bytes n.now }
{
    let first = each_byte(&n[..16 * ((n.len() - 1) / 16)]);
    let last = each_byte(&n[n.len() - 16..]);
    first & last
}

// The same of any, in parts of 4, 8 or a multiple of 16 bytes: these take few steps, where a rest would be gone through byte by byte.
fn name_bytes(n: &[u8]) -> bool
    ensures { result ≡ name_bytes n.now }
{
    if n.len() < 4 {
        return each_byte(n);
    }
    if n.len() < 8 {
        return both_ends(n, 4);
    }
    if n.len() < 16 {
        return both_ends(n, 8);
    }
    by_blocks(n)
}

// A byte of a name.
pub fn skip_char(pack: &[u8], at: usize) -> Skipped
    ensures { result ≡ skip (char pack.now at) }
{
    let b = read_byte(pack, at)?;
    if name_byte(b.value) {
        Ok(b.next)
    } else {
        Err(Stop::Illegal(at))
    }
}

// A name's length byte, which may not be 0.
pub fn read_size(pack: &[u8], at: usize) -> Read
    ensures { result ≡ read_of (size pack.now at) }
{
    let size = read_byte(pack, at)?;
    if 0 < size.value {
        Ok(size)
    } else {
        Err(Stop::Illegal(at))
    }
}

// Whether the count bytes from q on are there and are bytes of a name.
fn spelled(pack: &[u8], count: usize, q: usize) -> bool
    ensures { result ≡ nat_le (q + count) (length pack.now) && name_bytes (take count (drop q pack.now)) }
{
    if q <= pack.len() && count <= pack.len() - q {
        name_bytes(&pack[q..q + count])
    } else {
        false
    }
}

// The count characters from q on, one by one.
fn skip_chars(pack: &[u8], count: usize, q: usize) -> Skipped
    ensures { result ≡ skip (many (char pack.now) count q) }
{
    let mut p = q;
    for _ in 0..count {
        p = skip_char(pack, p)?;
    }
    Ok(p)
}

// A name. One that is there and spelled as a name is passed over in one step; only one that is not is read once more, to find what is
// wrong.
pub fn skip_name(pack: &[u8], at: usize) -> Skipped
    ensures { result ≡ skip (name pack.now at) }
{
    if let Ok(size) = read_byte(pack, at) {
        if 0 < size.value && spelled(pack, size.value, size.next) {
            return Ok(size.next + size.value);
        }
    }
    let size = read_size(pack, at)?;
    skip_chars(pack, size.value, size.next)
}

// Whether the names whose length bytes stand at a and at b are the same.
pub fn same_name(pack: &[u8], a: usize, b: usize) -> bool
    requires { (a + 1 + slice_index pack.now a ≤ length pack.now) × (b + 1 + slice_index pack.now b ≤ length pack.now) }
    ensures { result ≡ eq_name (raw_name pack.now a) (raw_name pack.now b) }
{
    let e = a + 1 + usize::from(pack[a]);
    let f = b + 1 + usize::from(pack[b]);
    same(&pack[a + 1..e], &pack[b + 1..f])
}

// Whether the name at x is one of the count names from `at` on.
pub fn seen(pack: &[u8], x: usize, count: usize, at: usize) -> bool
    requires { (x + 1 + slice_index pack.now x ≤ length pack.now) × Inside pack.now count at }
    ensures { result ≡ one_of pack.now x count at }
{
    let mut p = at;
    for _ in 0..count {
        if same_name(pack, x, p) {
            return true;
        }
        p = p + 1 + usize::from(pack[p]);
    }
    false
}

// Whether the name from p to `next` is one of the n from q to p. Where t tells those, it is entered there: a name that gets a cell is
// new.
fn repeated(
    pack: &[u8],
    q: usize,
    n: usize,
    p: usize,
    next: usize,
    key: usize,
    t: &mut [u16],
) -> bool
    requires { Follows pack.now q n p next × Tells pack.now q n key t.old }
    ensures { (result ≡ one_of pack.now p n q) × Tells pack.now q (n + 1) key t.new }
{
    if !enabled(t) {
        return seen(pack, p, n, q);
    }
    let b = p + 1;
    let h = probe(key, &pack[b..next]);
    let i = free_slot(pack, t, &pack[b..next], key, h);
    if enter(t, i, key, h, p) {
        return false;
    }
    seen(pack, p, n, q)
}

// The count names from q on, none twice. Where t can, it tells them.
fn read_names(pack: &[u8], q: usize, count: usize, key: usize, t: &mut [u16]) -> Skipped
    requires { Tells pack.now q 0 key t.old }
    ensures { result ≡ skip (names_after pack.now [] count q) }
{
    let mut p = q;
    for n in 0..count {
        let next = skip_name(pack, p)?;
        if repeated(pack, q, n, p, next, key, t) {
            return Err(Stop::Illegal(p));
        }
        p = next;
    }
    Ok(p)
}

// The same without cells, each name looked for among those before it.
fn names_by_scan(pack: &[u8], q: usize, count: usize) -> Skipped
    ensures { result ≡ skip (names_after pack.now [] count q) }
{
    let mut none = [0u16; 1];
    read_names(pack, q, count, 0, &mut none)
}

// The same with cells.
fn read_names_hashed(pack: &[u8], q: usize, count: usize, key: usize) -> Skipped
    ensures { result ≡ skip (names_after pack.now [] count q) }
{
    let mut t = [0u16; ROOM];
    read_names(pack, q, count, key, &mut t)
}

// The same, with a key where names are many and short. First those of `part` bytes, where it is not 0: a pack that is refused soon then
// does not wait for the key of all. Since it calls itself it is not inlined: cells stand on the stack only while they are used.
fn read_names_keyed(pack: &[u8], q: usize, count: usize, part: usize) -> Skipped
    requires { part ≤ length pack.now }
    ensures { result ≡ skip (names_after pack.now [] count q) }
{
    if 0 < part {
        let r = read_names_keyed(&pack[..part], q, count, 0);
        if r != Err(Stop::Early) {
            return r;
        }
    }
    if count <= pack.len() / 17 {
        return read_names_hashed(pack, q, count, 0);
    }
    let key = hash(pack);
    read_names_hashed(pack, q, count, key)
}

// The same of many names: first those of a few bytes, for which no cells are laid.
fn names_by_table(pack: &[u8], q: usize, count: usize) -> Skipped
    ensures { result ≡ skip (names_after pack.now [] count q) }
{
    let m = pack.len().min(64);
    let r = names_by_scan(&pack[..m], q, count);
    if r != Err(Stop::Early) {
        return r;
    }
    if (pack.len() / 17 < count) & (8192 < pack.len()) {
        return read_names_keyed(pack, q, count, pack.len() / 16);
    }
    read_names_keyed(pack, q, count, 0)
}

// The name section: no name twice. Cells are laid only for names that are many.
pub fn skip_names(pack: &[u8], at: usize) -> Skipped
    ensures { result ≡ skip (name_section pack.now at) }
{
    let count = read_u16(pack, at)?;
    if count.value < 32 {
        names_by_scan(pack, count.next, count.value)
    } else {
        names_by_table(pack, count.next, count.value)
    }
}
