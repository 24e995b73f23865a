// Names told apart as they are read (specs/Distinct): a table of cells, in which a name that was there before is met on its way.
ghost use Rattle.std.specs.Prelude.{◌≡◌, ◌+◌, ◌<◌, length, slice_index};
ghost use Rattle.wire.specs.Bytes.{word_range};
ghost use Rattle.pack.specs.Distinct.{letters as letters_of, product as product_of, key_for, folded as folded_of, long_way, way as way_of, tag as tag_of, first as first_of, after as after_of, is_of, free_from, free_on, telling as telling_in, gets, tagged, entered};

use crate::cells::cell;
use crate::intern::is_at;
use crate::siphash::{hash, last, read_u32_padded};
use wire::number::{WORD_MAX, WORD_RANGE};

// How many cells there are.
pub const CELLS: usize = 32768;
// How long the table is.
pub const ROOM: usize = CELLS + 1;

// Up to eight letters of a name as a number. Four or fewer are read once.
fn letters(n: &[u8]) -> usize
    ensures { result ≡ letters_of n.now }
{
    let l = n.len();
    if l < 5 {
        return 4294967297 * read_u32_padded(n, 0);
    }
    read_u32_padded(n, last(l, 8)) + 4294967296 * read_u32_padded(n, last(l, 4))
}

// Both halves of c, each with its half of the key, multiplied.
fn product(key: usize, c: usize) -> usize
    ensures { result ≡ product_of key c }
{
    let x = (c % 4294967296 + key % 4294967296) % 4294967296;
    let y = (c / 4294967296 % 4294967296 + key / 4294967296 % 4294967296) % 4294967296;
    x * y
}

// The key for the last eight letters of a name: of a longer one, the key with its first eight.
fn key_for(key: usize, n: &[u8]) -> usize
    ensures { result ≡ key_for key n.now }
{
    if 8 < n.len() {
        return product(key, letters(&n[..8]));
    }
    key
}

// The two halves of h added.
fn folded(h: usize) -> usize
    ensures { result ≡ folded_of h }
{
    h / 4294967296 + h % 4294967296
}

// The way of a name that is long, or where there is no key.
fn long_probe(key: usize, n: &[u8]) -> usize
    ensures { result ≡ long_way key n.now }
{
    let h = hash(n);
    if key == 0 {
        return h;
    }
    folded(product(key, h))
}

// The way of a name.
pub fn probe(key: usize, n: &[u8]) -> usize
    ensures { result ≡ way_of key n.now }
{
    if (key == 0) | (16 < n.len()) {
        return long_probe(key, n);
    }
    folded(product(key_for(key, n), letters(n)))
}

// What is kept of a way.
fn tag(h: usize) -> usize
    ensures { (result ≡ tag_of h) × (result < word_range) }
{
    h / WORD_RANGE % WORD_RANGE
}

// The first cell of a way.
fn first(key: usize, h: usize) -> usize
    ensures { (result ≡ first_of key h) × (result < 32768) }
{
    if key == 0 {
        return 2 * (h % 16384);
    }
    h % CELLS
}

// The cell after i on a way of which h is left.
fn after(key: usize, h: usize, i: usize) -> usize
    requires { i < 32768 }
    ensures { (result ≡ after_of key h i) × (result < 32768) }
{
    let step = 2 * (h % 16384) + 1;
    if key == 0 {
        return (i + 2 * step) % CELLS;
    }
    (i + step) % CELLS
}

// Whether the cell i, which is that of the name at p, is that of the name n of s, whose way has the tag g.
fn is_of(pack: &[u8], t: &[u16], n: &[u8], key: usize, g: usize, i: usize, p: usize) -> bool
    requires { (i < 32768) × (p + 1 < 18446744073709551616) }
    ensures { result ≡ is_of pack.now t.now n.now key g i p }
{
    if (key == 0) & (cell(t, i + 1) != g) {
        return false;
    }
    is_at(pack, p, n)
}

// The free cell for the name n of s on a way of which `left` is left, from the cell `start` on.
fn free_from(
    pack: &[u8],
    t: &[u16],
    n: &[u8],
    key: usize,
    g: usize,
    left: usize,
    start: usize,
) -> usize
    requires { start < 32768 }
    ensures { result ≡ free_from 256 pack.now t.now n.now key g left start (slice_index t.now start) }
{
    let mut h = left;
    let mut i = start;
    for _ in 0..256usize {
        let w = cell(t, i);
        if w == 0 {
            return i;
        }
        if is_of(pack, t, n, key, g, i, w - 1) {
            return CELLS;
        }
        i = after(key, h, i);
        h = h / 2;
    }
    CELLS
}

// The free cell for the name n of s, whose way is h.
pub fn free_slot(pack: &[u8], t: &[u16], n: &[u8], key: usize, h: usize) -> usize
    ensures { result ≡ free_on pack.now t.now key n.now h }
{
    let g = tag(h);
    let i = first(key, h);
    free_from(pack, t, n, key, g, h / CELLS, i)
}

// Whether all names have cells.
pub fn enabled(t: &[u16]) -> bool
    ensures { result ≡ telling_in t.now }
{
    (t.len() == ROOM) & (cell(t, CELLS) == 0)
}

// The tag beside the cell i, where there is no key.
fn keep_tag(t: &mut [u16], i: usize, key: usize, h: usize)
    requires { (length t.old ≡ 32769) × (i < 32768) }
    ensures { t.new ≡ tagged key (tag_of h) i t.old }
{
    if key == 0 {
        t[i + 1] = tag(h) as u16;
    }
}

// The cell i for the name at p, whose way is h. Whether it gets one.
pub fn enter(t: &mut [u16], i: usize, key: usize, h: usize, p: usize) -> bool
    requires { length t.old ≡ 32769 }
    ensures { (t.new ≡ entered key (tag_of h) i p t.old) × (result ≡ gets i p) }
{
    if (i < CELLS) & (p < WORD_MAX) {
        t[i] = (p + 1) as u16;
        keep_tag(t, i, key, h);
        return true;
    }
    t[CELLS] = 1;
    false
}
