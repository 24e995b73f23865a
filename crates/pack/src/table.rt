// A table of names behind an index of trees (specs/Table), so that a name is found without looking at all others. All is total: a byte
// past the end is 0, and a store there does nothing.
ghost use Rattle.std.specs.Prelude.{◌≡◌, ◌+◌, ◌-◌, ◌*◌, ◌/◌, ◌<◌, ◌≤◌, length};
ghost use Rattle.wire.specs.Bytes.{word_max, word_range};
ghost use Rattle.pack.specs.Intern.{found_of};
ghost use Rattle.pack.specs.Table.{word as word_in, put_word, further as further_of, place_from, place_of, Near, cell_at, seek, number_in, spare as spare_in, in_index, cell_for, linked, unindexed, linked_at, noted};

use crate::cells::{byte_at, set_byte};
use crate::intern::{Found, find_name, is_at};
use crate::record::Pack;
use crate::siphash::{hash, last};

// How many names can have rows.
const ROWS: usize = 17408;
// How many heads there are.
const HEADS: usize = 8192;
// How many cells there are.
const CELLS: usize = HEADS + 2 * ROWS;
// Where the spots begin.
const SPOTS: usize = 2 + 2 * CELLS;
// Where the names begin.
pub const TEXTS: usize = SPOTS + 2 * ROWS;
// What a table of any pack's names takes.
pub const ROOM: usize = TEXTS + Pack::BYTES;

// Where a name is: it has the number, the cell would be its own, or neither.
#[derive(Clone, Copy)]
pub enum Place {
    Taken(usize),
    Free(usize),
    Lost,
}

// 16 bits of t. Where both bytes are there they are compiled into one load.
fn word(t: &[u8], i: usize) -> usize
    requires { i < 1000000 }
    ensures { (result ≡ word_in t.now i) × (result < word_range) }
{
    if i + 1 < t.len() {
        return t[i] as usize + 256 * t[i + 1] as usize;
    }
    byte_at(t, i) + 256 * byte_at(t, i + 1)
}

// Sets 16 bits of t to v.
fn put_word(t: &mut [u8], i: usize, v: usize)
    requires { i < 1000000 }
    ensures { t.new ≡ put_word t.old i v }
{
    set_byte(t, i, (v % 256) as u8);
    set_byte(t, i + 1, (v / 256 % 256) as u8);
}

// The way h of a name after one step more, after which f are left: the next bit, or the next letter.
fn further(n: &[u8], f: usize, h: usize) -> usize
    ensures { result ≡ further_of n.now f h }
{
    if h < 4 {
        let j = last(17358, f);
        return 256 + byte_at(n, j / 8);
    }
    h / 2
}

// Where a name is from a cell on.
fn find_slot(t: &[u8], n: &[u8], bits: usize, cell: usize) -> Place
    requires { cell < 200000 }
    ensures { (result ≡ place_from 17409 t.now n.now bits cell (word_in t.now (cell_at cell))) × Near result }
{
    let mut h = bits;
    let mut i = cell;
    for f in (0..ROWS + 1).rev() {
        let w = word(t, 2 + 2 * i);
        if w == 0 {
            return Place::Free(i);
        }
        let k = w - 1;
        let p = word(t, SPOTS + 2 * k);
        if is_at(t, TEXTS + p, n) {
            return Place::Taken(k);
        }
        i = HEADS + 2 * k + h % 2;
        h = further(n, f, h);
    }
    Place::Lost
}

// Where a name is from the head of its number on.
fn place_of(t: &[u8], n: &[u8]) -> Place
    ensures { (result ≡ place_of t.now n.now) × Near result }
{
    let h = hash(n);
    find_slot(t, n, h / HEADS + 2251799813685248, h % HEADS)
}

// The place of the name n in a table with an index.
pub fn seek_name(t: &[u8], n: &[u8]) -> Found
    ensures { (found_of result ≡ seek t.now n.now) × (number_in (found_of result) ≤ word_max + (length t.now - word_max)) }
{
    let c = word(t, 0);
    if ROWS < c {
        let b = TEXTS.min(t.len());
        return find_name(&t[b..], n);
    }
    match place_of(t, n) {
        Place::Taken(k) => Ok(k),
        Place::Free(_) => Err(c),
        Place::Lost => Err(c),
    }
}

// Whether the number of one name more and its spot fit.
fn spare(t: &[u8]) -> bool
    ensures { result ≡ spare_in t.now }
{
    (word(t, 0) < ROWS) & ((TEXTS <= t.len()) & (t.len() < ROOM))
}

// A cell that the index does not have is none.
fn in_index(p: Place) -> Place
    requires { Near p }
    ensures { (result ≡ in_index p) × Near result }
{
    let Place::Free(i) = p else {
        return p;
    };
    if i < CELLS { p } else { Place::Lost }
}

// The cell for the name n, which comes next.
fn slot_for(t: &[u8], n: &[u8]) -> Place
    ensures { (result ≡ cell_for t.now n.now) × Near result }
{
    if spare(t) {
        return in_index(place_of(t, n));
    }
    Place::Lost
}

// The next row, whose cell is i and whose spot is p.
fn link(t: &mut [u8], i: usize, p: usize)
    requires { i < 200000 }
    ensures { t.new ≡ linked (word_in t.old 0) i p t.old }
{
    let c = word(t, 0);
    put_word(t, SPOTS + 2 * c, p);
    put_word(t, 2 + 2 * i, c + 1);
    put_word(t, 0, c + 1);
}

// Without rows for all from then on.
fn unindex(t: &mut [u8])
    ensures { t.new ≡ unindexed t.old }
{
    put_word(t, 0, ROWS + 1);
}

// The next row, whose spot is p, where there is a cell for it.
fn link_at(t: &mut [u8], cell: Place, p: usize)
    requires { Near cell }
    ensures { t.new ≡ linked_at cell p t.old }
{
    let Place::Free(i) = cell else {
        unindex(t);
        return;
    };
    link(t, i, p);
}

// A row for the name n, which comes next; without rows for all from then on, where it can have none.
pub fn note(t: &mut [u8], n: &[u8])
    ensures { t.new ≡ noted n.now t.old }
{
    let cell = slot_for(t, n);
    let p = t.len().saturating_sub(TEXTS);
    link_at(t, cell, p);
}
