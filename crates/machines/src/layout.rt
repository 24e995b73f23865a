// A resolved machine in three tables, which all later passes look at: they meet no refinement and no prefix (specs/Layout).
//   layout     rows in preorder, a region's before its states', a state's before its regions'
//     region   0 initial, 1 history, 2 and 3 letters of the refined state's name, the prefix (first, count), 4 the word after its
//              states, 5 id, 6 how many states, 7 the word of the state that holds it, 8 the id of the region which that state is in
//     state    0 where it is drawn, 1 its transitions, 2 and 3 letters of its full name, 4 the word after its regions, 5 how many
//   rows       by a region's id the word of its row
//   qualified  the full names of states one after the other: a length byte, then the letters
// Of regions without states, which are refused in the end, only the first is laid out.
ghost use Rattle.std.specs.Prelude.{◌≡◌, ◌+◌, ◌-◌, ◌<◌, ◌≤◌, suc, ℕ, get_or, length, set, List, cond, true};
ghost use Rattle.machines.specs.LayoutAt.{board, close_state, entered_of, fits_at, layout_machine, layout_region, layout_state, layout_t as laid, machine_as, moved_to, open_region, open_state, prefix_len, qualified_at, qualified_len, region_from, region_words, state_ends, state_words, sum as sum_of, tally as tally_of, under, values};
ghost use Rattle.std.proofs.lemmas.List.Edits.{sets};
ghost use Rattle.machines.specs.Tables.{len_of};
ghost use Rattle.pack_rules.specs.Names.{Name};
ghost use Rattle.machines.specs.EmptyRegions.{AtOnce};
ghost use Rattle.machines.specs.Layout.{holed, slice_of};
ghost use Rattle.machines.specs.EmitAt.{letters_at, pack_name};

use crate::checked_read::{number, read_or_zero};
use crate::drawing::Drawing;
use crate::resolve::{open_regions, run_length};
use crate::table::{name_len, put};
use pack::cells::{byte_at, cell, set_byte};
use pack::record::Pack;
use wire::number::read_byte;
use wire::writer::{Writer, capped};

// --- A region before its states, drawn in a state or made of a machine.

// Its initial state's name, its history, how many states there are and where they stand.
#[derive(Clone, Copy)]
pub struct RegionHead {
    pub initial: usize,
    pub history: usize,
    pub states: usize,
    pub next: usize,
}

// A region that is drawn in a state.
pub fn region_head(pack: &[u8], at: usize) -> RegionHead
    ensures { result ≡ region_from pack.now at }
{
    let x = number(pack, at);
    let y = read_or_zero(read_byte(pack, x.next));
    let n = number(pack, y.next);
    RegionHead {
        initial: x.value,
        history: y.value,
        states: n.value,
        next: n.next,
    }
}

// A machine's states as a region.
pub fn machine_head(pack: &[u8], history: usize, at: usize) -> RegionHead
    ensures { result ≡ machine_as pack.now history at }
{
    let x = number(pack, at);
    let n = number(pack, x.next);
    RegionHead {
        initial: x.value,
        history,
        states: n.value,
        next: n.next,
    }
}

// --- Full names of states, one after the other in a table of letters: a length byte, then the letters.

// The letter at an offset, 0 past the end.
fn letter(pack: &[u8], at: usize) -> u8
    ensures { result ≡ get_or pack.now at 0 }
{
    pack.get(at).copied().unwrap_or(0)
}

// How many letters a prefix has: those of a name of m letters, and `_`.
fn prefix_len(m: usize) -> usize
    requires { m < 18446744073709551615 }
    ensures { result ≡ prefix_len m }
{
    if m == 0 { 0 } else { m + 1 }
}

// Whether a length byte and n letters after a prefix fit in at `at`. The prefix's own letters, m from a on, are before it.
fn fits(len: usize, a: usize, m: usize, at: usize, n: usize) -> bool
    ensures { result ≡ fits_at len a m at (prefix_len m + n) }
{
    if len <= at {
        return false;
    }
    if at < a {
        return false;
    }
    if at - a < m {
        return false;
    }
    if len - at <= n {
        return false;
    }
    prefix_len(m) < len - at - n
}

// The prefix: m letters from a on, and `_`. One by one: `copy_within` would have the C archive ask its caller for `memmove`.
fn put_prefix(qualified: &mut [u8], a: usize, m: usize, at: usize)
    requires { (a + m ≤ at) × (at + prefix_len m ≤ length qualified.old) }
    ensures { qualified.new ≡ sets qualified.old at (under qualified.old a m) }
{
    if m == 0 {
        return;
    }
    for k in 0..m {
        qualified[at + k] = qualified[a + k];
    }
    qualified[at + m] = b'_';
}

// The letters of the name i of the pack.
fn put_name(pack: &[u8], offsets: &[u16], i: usize, qualified: &mut [u8], at: usize)
    requires { at + len_of pack.now offsets.now i ≤ length qualified.old }
    ensures { qualified.new ≡ sets qualified.old at (values pack.now (suc (get_or offsets.now i 0)) (len_of pack.now offsets.now i)) }
{
    let p = cell(offsets, i);
    if pack.len() <= p {
        return;
    }
    let n = byte_at(pack, p);
    for k in 0..n {
        set_byte(qualified, at + k, letter(pack, p + 1 + k));
    }
}

// The full name of the name i: a prefix, m letters from a on and `_`, where m is not 0; then the name. How many letters it has.
// Not inlined: what its loops hold would stand on the stack once for each level of regions.
#[inline(never)]
pub fn qualify(
    pack: &[u8],
    offsets: &[u16],
    i: usize,
    a: usize,
    m: usize,
    qualified: &mut [u8],
    at: usize,
) -> usize
    ensures { (result ≡ qualified_len pack.now offsets.now i qualified.old a m at) × (qualified.new ≡ qualified_at pack.now offsets.now i qualified.old a m at) }
{
    let n = name_len(pack, offsets, i);
    if fits(qualified.len(), a, m, at, n) {
        let f = prefix_len(m);
        let w = f + n;
        set_byte(qualified, at, (w % 256) as u8);
        put_prefix(qualified, a, m, at + 1);
        put_name(pack, offsets, i, qualified, at + 1 + f);
        return w;
    }
    0
}

// --- The words of a state and of a region. Past the table's end nothing is written.

// The word k words after p.
pub fn put_word(layout: &mut [usize], p: usize, k: usize, v: usize)
    ensures { layout.new ≡ set layout.old (p + k) v }
{
    if layout.len() <= p {
        return;
    }
    if k < layout.len() - p {
        layout[p + k] = v;
    }
}

// A state's first four words.
pub fn put_state_row(layout: &mut [usize], p: usize, at: usize, tr: usize, a: usize, n: usize)
    ensures { layout.new ≡ state_words layout.old p at tr a n }
{
    put(layout, p, at);
    put_word(layout, p, 1, tr);
    put_word(layout, p, 2, a);
    put_word(layout, p, 3, n);
}

// A state's last two words.
pub fn put_state_ends(layout: &mut [usize], p: usize, q: usize, k: usize)
    ensures { layout.new ≡ state_ends layout.old p q k }
{
    put_word(layout, p, 4, q);
    put_word(layout, p, 5, k);
}

// A region's words but for the one after its states.
pub fn put_region_row(
    layout: &mut [usize],
    p: usize,
    h: RegionHead,
    a: usize,
    m: usize,
    id: usize,
    st: usize,
    up: usize,
)
    ensures { layout.new ≡ region_words layout.old p h a m id st up }
{
    put(layout, p, h.initial);
    put_word(layout, p, 1, h.history);
    put_word(layout, p, 2, a);
    put_word(layout, p, 3, m);
    put_word(layout, p, 5, id);
    put_word(layout, p, 6, h.states);
    put_word(layout, p, 7, st);
    put_word(layout, p, 8, up);
}

// What laying out came to: the pack's offset after, how many words, regions and letters there are,
// whether a region without states was met.
#[derive(Clone, Copy)]
pub struct LayoutPos {
    pub next: usize,
    pub words: usize,
    pub regions: usize,
    pub letters: usize,
    pub hole: bool,
}

// A state before its regions: how far the pack was read and the tables are filled, how many regions follow,
// its name's first letter and length.
#[derive(Clone, Copy)]
struct Entered {
    next: usize,
    words: usize,
    letters: usize,
    regions: usize,
    letter: usize,
    length: usize,
}

// A sum that stops at 2³².
#[tactic(auto, unfolding(crate::specs::LayoutAt::sum))]
fn saturating_add(a: usize, b: usize) -> usize
    ensures { result ≡ sum_of a b }
{
    a.saturating_add(b).min(4294967296)
}

// The tables filled as far as before, the pack read up to `next`.
#[tactic(auto, unfolding(crate::specs::LayoutAt::moved_to))]
fn at_offset(c: LayoutPos, next: usize) -> LayoutPos
    ensures { result ≡ moved_to next c }
{
    LayoutPos { next, ..c }
}

// One region more where words were added.
fn count_region(k: usize, w: usize, v: usize) -> usize
    ensures { result ≡ tally_of k w v }
{
    if w == v {
        return k;
    }
    saturating_add(k, 1)
}

// The words and the name of the state at c.next.
fn open_state(
    drawing: &Drawing,
    offsets: &[u16],
    layout: &mut [usize],
    qualified: &mut [u8],
    a: usize,
    m: usize,
    c: LayoutPos,
) -> Entered
    ensures { (ns : List Name) → length ns ≡ drawing.now.pack.names → ((reg : List ℕ) → (result ≡ entered_of ns drawing.now.pack.bytes.now offsets.now a m (board layout.old reg qualified.old c)) × (board layout.new reg qualified.new (laid result.next result.words c.regions result.letters c.hole) ≡ open_state ns drawing.now.pack.bytes.now offsets.now a m (board layout.old reg qualified.old c))) }
{
    let i = number(drawing.pack.bytes, c.next);
    let w = qualify(
        drawing.pack.bytes,
        offsets,
        i.value,
        a,
        m,
        qualified,
        c.letters,
    );
    let l = saturating_add(c.letters, 1);
    let d = drawing.inside_of(c.next);
    put_state_row(layout, c.words, c.next, d.moves, l, w);
    let n = d.regions;
    Entered {
        next: n.next,
        words: saturating_add(c.words, 6),
        letters: saturating_add(l, w),
        regions: n.value,
        letter: l,
        length: w,
    }
}

// The state at the word p, after its k regions; q is the offset after it.
fn close_state(layout: &mut [usize], p: usize, k: usize, q: usize, c: LayoutPos) -> LayoutPos
    ensures { (reg qualified : List ℕ) → board layout.new reg qualified result ≡ close_state p k q (board layout.old reg qualified c) }
{
    put_state_ends(layout, p, c.words, k);
    at_offset(c, q)
}

// Whether a region without states was met, once one of n states is opened.
#[tactic(auto, unfolding(crate::specs::Layout::holed))]
fn has_empty_region(n: usize, hole: bool) -> bool
    ensures { result ≡ holed hole n }
{
    n == 0 || hole
}

// The words of a region, and its word by its id.
fn open_region(
    layout: &mut [usize],
    rows: &mut [usize],
    st: usize,
    up: usize,
    a: usize,
    m: usize,
    h: RegionHead,
    c: LayoutPos,
) -> LayoutPos
    ensures { (qualified : List ℕ) → board layout.new rows.new qualified result ≡ open_region st up a m h (board layout.old rows.old qualified c) }
{
    put_region_row(layout, c.words, h, a, m, c.regions, st, up);
    put(rows, c.regions, c.words);
    LayoutPos {
        next: h.next,
        words: saturating_add(c.words, 9),
        regions: saturating_add(c.regions, 1),
        letters: c.letters,
        hole: has_empty_region(h.states, c.hole),
    }
}

// How many of n regions from `at` on are passed at once: only where one without states was met before, and they may open.
fn skip_empty_regions(memo: &[u16], levels: usize, hole: bool, n: usize, at: usize) -> usize
    requires { 0 < n }
    ensures { AtOnce memo.now n at result × (1 < result → (0 < levels) × (hole ≡ true)) }
{
    if levels == 0 {
        return 1;
    }
    if hole {
        return run_length(memo, n, at);
    }
    1
}

// The state at c.next in the region `up`, its regions and its refinement. Its name's prefix is m letters from a on.
#[cycle(layout_region_layout_state)]
fn layout_state(
    drawing: &Drawing,
    offsets: &[u16],
    machines: &[u16],
    layout: &mut [usize],
    rows: &mut [usize],
    qualified: &mut [u8],
    levels: usize,
    up: usize,
    a: usize,
    m: usize,
    c: LayoutPos,
) -> LayoutPos
    ensures { (ns : List Name) → length ns ≡ drawing.now.pack.names → board layout.new rows.new qualified.new result ≡ layout_state ns drawing.now.pack.bytes.now offsets.now machines.now (layout_region ns drawing.now.pack.bytes.now offsets.now machines.now levels) up a m (board layout.old rows.old qualified.old c) }
{
    let b = open_state(drawing, offsets, layout, qualified, a, m, c);
    let mut n = b.regions;
    let mut k = 0;
    let mut e = LayoutPos {
        next: b.next,
        words: b.words,
        regions: c.regions,
        letters: b.letters,
        hole: c.hole,
    };
    while 0 < n {
        let j = skip_empty_regions(drawing.memo, levels, e.hole, n, e.next);
        let h = open_regions(drawing.pack.bytes, j, e.next);
        let d = layout_region(
            drawing, offsets, machines, layout, rows, qualified, levels, c.words, up, a, m, h, e,
        );
        k = count_region(k, e.words, d.words);
        n -= j;
        e = d;
    }
    let f = number(drawing.pack.bytes, e.next);
    if f.value == Pack::ABSENT {
        return close_state(layout, c.words, k, f.next, e);
    }
    let h = machine_head(drawing.pack.bytes, 0, cell(machines, f.value));
    let d = layout_region(
        drawing, offsets, machines, layout, rows, qualified, levels, c.words, up, b.letter,
        b.length, h, e,
    );
    close_state(
        layout,
        c.words,
        count_region(k, e.words, d.words),
        f.next,
        d,
    )
}

// A region of the state at the word st, which is in the region `up`. Of those without states only the first is laid out:
// they can be many thousands.
#[cycle(layout_region_layout_state)]
fn layout_region(
    drawing: &Drawing,
    offsets: &[u16],
    machines: &[u16],
    layout: &mut [usize],
    rows: &mut [usize],
    qualified: &mut [u8],
    levels: usize,
    st: usize,
    up: usize,
    a: usize,
    m: usize,
    h: RegionHead,
    c: LayoutPos,
) -> LayoutPos
    ensures { (ns : List Name) → length ns ≡ drawing.now.pack.names → board layout.new rows.new qualified.new result ≡ layout_region ns drawing.now.pack.bytes.now offsets.now machines.now levels st up a m h (board layout.old rows.old qualified.old c) }
{
    if levels == 0 {
        return at_offset(c, 0);
    }
    if h.states == 0 && c.hole {
        return at_offset(c, h.next);
    }
    let mut e = open_region(layout, rows, st, up, a, m, h, c);
    for _ in 0..h.states {
        e = layout_state(
            drawing,
            offsets,
            machines,
            layout,
            rows,
            qualified,
            levels - 1,
            c.regions,
            a,
            m,
            e,
        );
    }
    put_word(layout, c.words, 4, e.words);
    e
}

// The machine whose initial state stands at `at`, from the tables' first entries on.
pub fn layout_machine(
    drawing: &Drawing,
    offsets: &[u16],
    machines: &[u16],
    layout: &mut [usize],
    rows: &mut [usize],
    qualified: &mut [u8],
    at: usize,
) -> LayoutPos
    ensures { (ns : List Name) → length ns ≡ drawing.now.pack.names → board layout.new rows.new qualified.new result ≡ layout_machine ns drawing.now.pack.bytes.now offsets.now machines.now at layout.old rows.old qualified.old }
{
    let c = LayoutPos {
        next: 0,
        words: 0,
        regions: 0,
        letters: 0,
        hole: false,
    };
    let h = machine_head(drawing.pack.bytes, 1, at);
    layout_region(
        drawing,
        offsets,
        machines,
        layout,
        rows,
        qualified,
        Pack::LEVELS,
        0,
        0,
        0,
        0,
        h,
        c,
    )
}

// --- The layout as it is read: words of rows, and letters. All is total: 0 past the words, and a part is cut at the end.

// The word k of the row at p.
pub fn layout_word(layout: &[usize], p: usize, k: usize) -> usize
    ensures { result ≡ get_or layout.now (p + k) 0 }
{
    if p < layout.len() {
        if k < layout.len() - p {
            return layout[p + k];
        }
    }
    0
}

// The word of the first state of the region at q, where it has one.
pub fn first(layout: &[usize], q: usize) -> usize
    ensures { 0 < get_or layout.now (q + 6) 0 → result ≡ q + 9 }
{
    if q < layout.len() { q + 9 } else { 0 }
}

// The word of the first region of the state at p, where it has one.
pub fn inner(layout: &[usize], p: usize) -> usize
    ensures { 0 < get_or layout.now (p + 5) 0 → result ≡ p + 6 }
{
    if p < layout.len() { p + 6 } else { 0 }
}

// n bytes from a on.
pub fn part(pack: &[u8], a: usize, n: usize) -> &[u8]
    ensures { result.now ≡ slice_of pack.now a n }
{
    let b = a.min(pack.len());
    let e = capped(pack.len(), b, n);
    &pack[b..e]
}

// The bytes from a up to e.
pub fn between(pack: &[u8], a: usize, e: usize) -> &[u8]
    ensures { result.now ≡ slice_of pack.now a (e - a) }
{
    if a < e {
        return part(pack, a, e - a);
    }
    part(pack, a, 0)
}

// The letters of a row.
pub fn letters<'a>(layout: &[usize], qualified: &'a [u8], p: usize) -> &'a [u8]
    ensures { result.now ≡ letters_at layout.now qualified.now p }
{
    let a = layout_word(layout, p, 2);
    let n = layout_word(layout, p, 3);
    part(qualified, a, n)
}

// A name of the pack by its index.
pub fn pack_name<'a>(pack: &'a [u8], offsets: &[u16], x: usize) -> &'a [u8]
    ensures { result.now ≡ pack_name pack.now offsets.now x }
{
    let at = cell(offsets, x);
    if at < pack.len() {
        return part(pack, at + 1, pack[at] as usize);
    }
    part(pack, at, 0)
}

// How many are left to write: none once the writer is full.
pub fn remaining(writer: Writer, n: usize) -> usize
    ensures { result ≡ cond writer.full 0 n }
{
    let full = writer.full;
    if full { 0 } else { n }
}
