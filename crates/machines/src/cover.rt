// Whether a resolved machine gives an output: a state by an equation of its own or by a region, a region in all its states. State
// and region call each other, with the levels left as the falling number. A drawn state may stand hundreds of times in a machine, so
// that what it gives is remembered while one machine's outputs are judged or written, in a table of 16-bit cells (specs/AssignsMemo):
//   hints   256 rows of three, at 3 * (p / 10 % 256): the state at p, the equation after the one found last, how many are left there
//   marks   from MARKS on, at p / 10, of the output x asked last: 2 * x + 2 where the state at p gives it, 2 * x + 1 where not
// Rows of hints are shared, and say whose they are. What is not there is looked for in the equations.
ghost use Rattle.std.specs.Prelude.{List, ◌≡◌, ◌<◌, length, is_some, IfSome};
ghost use Rattle.pack_rules.specs.Names.{Name};
ghost use Rattle.machines.specs.Memo.{regions_in};
ghost use Rattle.machines.specs.CoverAt.{gives_t, miss_t, own_t, some_word, uncovered_t};
ghost use Rattle.machines.specs.AssignsMemo.{AssignsSound, HintOf, assigns_mark, hint_put};

use crate::checked_read::number;
use crate::drawing::Drawing;
use crate::layout::{first, inner, layout_word};
use crate::memo::memo_regions;
use crate::table::entry;
use pack::cells::{cell, put_cell};
use wire::number::WORD_RANGE;

// --- Whether a state's own equations give an output, and what of it is remembered (specs/AssignsMemo): a drawn state may stand hundreds of times in
// a resolved machine, and outputs mostly come in the order of the equations.

// The table of what drawn states give (specs/AssignsMemo): rows for what is left of states, then the marks of states, one for ten bytes of
// a pack.
const HINTS: usize = 256;

const MARKS: usize = 3 * HINTS;

pub const ASSIGNS_MEMO: usize = MARKS + 6554;

// A yes or no, and the offset after what it was asked of.
#[derive(Clone, Copy)]
pub struct OnlyLeft {
    pub yes: bool,
    pub next: usize,
}

// Whether `out` is an equation's only left name.
fn assigns_only(drawing: &Drawing, out: usize, at: usize) -> OnlyLeft
    ensures { (ns : List Name) → length ns ≡ drawing.now.pack.names → result ≡ gives_t ns drawing.now.pack.bytes.now out at }
{
    let k = number(drawing.pack.bytes, at);
    let i = number(drawing.pack.bytes, k.next);
    let next = drawing.end_of(at);
    OnlyLeft {
        yes: k.value == 1 && i.value == out,
        next,
    }
}

// What of its state comes after an equation that was found: so many equations, and where they begin.
#[derive(Clone, Copy)]
struct Hint {
    left: usize,
    next: usize,
}

// What comes after the first equation of the state at `at` that gives `out`.
fn assigns(drawing: &Drawing, out: usize, at: usize) -> Option<Hint>
    ensures found { (ns : List Name) → length ns ≡ drawing.now.pack.names → is_some result ≡ own_t ns drawing.now.pack.bytes.now out at }
    ensures hint_of { IfSome result (λ h. HintOf drawing.now.pack.bytes.now drawing.now.pack.names at h.left h.next) }
{
    let i = number(drawing.pack.bytes, at);
    let t = number(drawing.pack.bytes, i.next);
    let mut p = t.next;
    for left in (0..t.value).rev() {
        let e = assigns_only(drawing, out, p);
        if e.yes {
            return Some(Hint { left, next: e.next });
        }
        p = e.next;
    }
    None
}

// The same, with the equation after the one found last tried first: outputs mostly come in the order of the equations, and a
// state may have thousands.
fn assigns_from_hint(drawing: &Drawing, hints: &[u16], out: usize, at: usize) -> Option<Hint>
    requires { AssignsSound drawing.now.pack.bytes.now drawing.now.pack.names drawing.now.memo.now hints.now }
    ensures found { (ns : List Name) → length ns ≡ drawing.now.pack.names → is_some result ≡ own_t ns drawing.now.pack.bytes.now out at }
    ensures hint_of { IfSome result (λ h. HintOf drawing.now.pack.bytes.now drawing.now.pack.names at h.left h.next) }
{
    let b = 3 * (at / 10 % HINTS);
    if cell(hints, b) != at {
        return assigns(drawing, out, at);
    }
    let n = cell(hints, b + 2);
    if n == 0 {
        return assigns(drawing, out, at);
    }
    let e = assigns_only(drawing, out, cell(hints, b + 1));
    if e.yes {
        return Some(Hint {
            left: n - 1,
            next: e.next,
        });
    }
    assigns(drawing, out, at)
}

// Remembers that n equations from q on are left of the state at p, where all fits a cell. A row is the last state's that took it.
#[tactic(auto, unfolding(crate::specs::AssignsMemo::hint_put, crate::specs::AssignsMemo::hint_row))]
fn put_hint(hints: &mut [u16], p: usize, n: usize, q: usize)
    ensures { hints.new ≡ hint_put hints.old p n q }
{
    if WORD_RANGE <= p || WORD_RANGE <= n || WORD_RANGE <= q {
        return;
    }
    let b = 3 * (p / 10 % HINTS);
    put_cell(hints, b, p);
    put_cell(hints, b + 1, q);
    put_cell(hints, b + 2, n);
}

// What a state's cell says of an output that the state's own equations give or do not give.
fn mark(out: usize, given: bool) -> usize
    requires { out < 32767 }
    ensures { result ≡ assigns_mark out given }
{
    if given { 2 * out + 2 } else { 2 * out + 1 }
}

// Whether an equation of the state at `at`, which is kept, gives `out`. A state that is drawn once may stand hundreds of times in
// a resolved machine: its equations are looked at only where its cell says nothing of `out`.
fn assigns_by_mark(drawing: &Drawing, hints: &mut [u16], out: usize, at: usize) -> bool
    requires { AssignsSound drawing.now.pack.bytes.now drawing.now.pack.names drawing.now.memo.now hints.old × (out < 32767) × (0 < regions_in drawing.now.memo.now at) }
    ensures value { (ns : List Name) → length ns ≡ drawing.now.pack.names → result ≡ own_t ns drawing.now.pack.bytes.now out at }
    ensures assigns_sound { AssignsSound drawing.now.pack.bytes.now drawing.now.pack.names drawing.now.memo.now hints.new }
{
    let b = MARKS + at / 10;
    let c = cell(hints, b);
    if c == mark(out, false) {
        return false;
    }
    if c == mark(out, true) {
        return true;
    }
    let r = assigns_from_hint(drawing, hints, out, at);
    put_cell(hints, b, mark(out, r.is_some()));
    match r {
        Some(h) => {
            put_hint(hints, at, h.left, h.next);
            true
        }
        None => false,
    }
}

// The same of any state. One that is not kept has no cell of its own, and the mark of a larger index fits no cell.
pub fn assigns_with_memo(drawing: &Drawing, hints: &mut [u16], out: usize, at: usize) -> bool
    requires { AssignsSound drawing.now.pack.bytes.now drawing.now.pack.names drawing.now.memo.now hints.old }
    ensures value { (ns : List Name) → length ns ≡ drawing.now.pack.names → result ≡ own_t ns drawing.now.pack.bytes.now out at }
    ensures assigns_sound { AssignsSound drawing.now.pack.bytes.now drawing.now.pack.names drawing.now.memo.now hints.new }
{
    if 32767 <= out || memo_regions(drawing.memo, at) == 0 {
        return assigns(drawing, out, at).is_some();
    }
    assigns_by_mark(drawing, hints, out, at)
}

// The word p as an answer. At the word 0 stands the top region, which answers nothing: a link that leads there names none.
#[tactic(auto, unfolding(crate::specs::CoverAt::some_word))]
pub fn some_word(p: usize) -> Option<usize>
    ensures { result ≡ some_word p }
{
    if p == 0 { None } else { Some(p) }
}

// Where the state at the word p does not give `out`, by an equation or by a region, the word of a state that does not: its first
// region's, or its own where it has none.
#[cycle(require_cover_region_require_cover_state)]
fn require_cover_state(
    drawing: &Drawing,
    layout: &[usize],
    hints: &mut [u16],
    out: usize,
    levels: usize,
    p: usize,
) -> Option<usize>
    requires { AssignsSound drawing.now.pack.bytes.now drawing.now.pack.names drawing.now.memo.now hints.old }
    ensures value { (ns : List Name) → length ns ≡ drawing.now.pack.names → result ≡ miss_t ns drawing.now.pack.bytes.now layout.now out (uncovered_t ns drawing.now.pack.bytes.now layout.now out levels) p }
    ensures assigns_sound { AssignsSound drawing.now.pack.bytes.now drawing.now.pack.names drawing.now.memo.now hints.new }
{
    if assigns_with_memo(drawing, hints, out, entry(layout, p)) {
        return None;
    }
    let n = layout_word(layout, p, 5);
    if n == 0 {
        return some_word(p);
    }
    let mut g = inner(layout, p);
    let mut miss = None;
    for _ in 0..n {
        let m = require_cover_region(drawing, layout, hints, out, levels, g);
        if m.is_none() {
            return None;
        }
        miss = miss.or(m);
        g = layout_word(layout, g, 4);
    }
    miss
}

// Where not each state of the region at the word q gives `out`, the word of one that does not.
#[cycle(require_cover_region_require_cover_state)]
pub fn require_cover_region(
    drawing: &Drawing,
    layout: &[usize],
    hints: &mut [u16],
    out: usize,
    levels: usize,
    q: usize,
) -> Option<usize>
    requires { AssignsSound drawing.now.pack.bytes.now drawing.now.pack.names drawing.now.memo.now hints.old }
    ensures value { (ns : List Name) → length ns ≡ drawing.now.pack.names → result ≡ uncovered_t ns drawing.now.pack.bytes.now layout.now out levels q }
    ensures assigns_sound { AssignsSound drawing.now.pack.bytes.now drawing.now.pack.names drawing.now.memo.now hints.new }
{
    if levels == 0 {
        return None;
    }
    let mut p = first(layout, q);
    for _ in 0..layout_word(layout, q, 6) {
        let m = require_cover_state(drawing, layout, hints, out, levels - 1, p);
        if m.is_some() {
            return m;
        }
        p = layout_word(layout, p, 4);
    }
    None
}
