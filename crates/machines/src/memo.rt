// What is read once a call of all that is drawn, so that a state which hundreds of refinements show is not read again. One table of
// 16-bit cells, by offset (specs/Memo). What begins at p has two cells from 2 * (p / 5) on: a mark, p % 5 + kind + 32 * x, which says
// whose they are, and a value. A state at p has five more, from 26216 + 5 * (p / 10) on.
//   EQUATION, GUARD   value: where it ends
//   UNKNOWN_TARGET    5 bytes before a region's states; value: 1 + the first target that is none of them; x: how many are before it
//   EMPTY             value: how many regions without states follow one another; x: the longest name of their initial states
//   a state           p, its longest name, where its transitions begin, where it ends, where its regions' count stands
// What is there is right (specs/MemoSound), and what is not is read: nothing depends on the table's being complete.
ghost use Rattle.std.specs.Prelude.{◌≡◌, ◌%◌, ◌+◌, ◌-◌, ◌<◌, ◌≤◌, ℕ, List, length, IfSome, Ok};
ghost use Rattle.wire.specs.Bytes.{word_range};
ghost use Rattle.machines.specs.Memo.{beside_in, kept_in, longest_in, moves_in, past_in, regions_in, row_mark, row_put, state_put, state_row};
ghost use Rattle.wire.specs.Answer.{Answer, below, counted, many};
ghost use Rattle.wire.specs.Code.{onward};
ghost use Rattle.pack_rules.specs.Names.{Name};
ghost use Rattle.pack_rules.specs.Read.{OneRegion, equation_in, name_in, region_at, state_with, transition_in};
ghost use Rattle.pack_rules.specs.Limits.{max_level};
ghost use Rattle.machines.specs.ResolvedIn.{end_of, over_in};
ghost use Rattle.machines.specs.MemoSound.{MemoSound};
ghost use Rattle.machines.specs.UnknownTargets.{IsDrawn, drawn_state, target_d, unknown_target_d};
ghost use Rattle.machines.specs.StateHeads.{head_of};

use crate::checked_read::{CheckedPack, after_equation, machine, number};
use crate::drawing::Drawing;
use crate::resolve::{empty_run_from, read_state_head};
use crate::table::to_initial;
use pack::cells::{cell, put_cell};
use pack::check::reached;
use pack::exprs::skip_expr;
use pack::parts::{skip_index, skip_optional};
use pack::record::Pack;
use wire::answer::{Number, Skipped};
use wire::number::{WORD_MAX, WORD_RANGE, read_below};

// The kinds of things that have rows of two cells (specs/Memo).
pub const EQUATION: usize = 1;

pub const GUARD: usize = 6;

pub const UNKNOWN_TARGET: usize = 11;

pub const EMPTY: usize = 16;

// The value that is kept of the thing of the kind k at p; 0 where none is.
pub fn memo_at(memo: &[u16], p: usize, k: usize) -> usize
    requires { k ≤ 16 }
    ensures { result ≡ kept_in memo.now p k }
{
    if WORD_RANGE <= p {
        return 0;
    }
    let b = 2 * (p / 5);
    if cell(memo, b) % 32 == p % 5 + k {
        return cell(memo, b + 1);
    }
    0
}

// And the number that its mark holds.
pub fn memo_beside(memo: &[u16], p: usize) -> usize
    ensures { result ≡ beside_in memo.now p }
{
    let b = 2 * (p / 5);
    cell(memo, b) / 32
}

// A row of the mark m and the value v, where all fits a cell.
#[tactic(auto, unfolding(crate::specs::Memo::row_put))]
fn put_row(memo: &mut [u16], p: usize, m: usize, v: usize)
    ensures { memo.new ≡ row_put memo.old p m v }
{
    if WORD_RANGE <= p || WORD_RANGE <= m || WORD_RANGE <= v {
        return;
    }
    let b = 2 * (p / 5);
    put_cell(memo, b, m);
    put_cell(memo, b + 1, v);
}

// Keeps the value v of the thing of the kind k at p, and the number x beside it.
pub fn memo_put(memo: &mut [u16], p: usize, k: usize, x: usize, v: usize)
    requires { (k ≤ 16) × (x < word_range) }
    ensures { memo.new ≡ row_put memo.old p (row_mark p k x) v }
{
    put_row(memo, p, p % 5 + k + 32 * x, v);
}

// Where the row of the state at p begins.
fn state_row(p: usize) -> usize
    ensures value { result ≡ state_row p }
    ensures upper_bound { result < 9300000000000000000 }
{
    26216 + 5 * (p / 10)
}

// Of a state that is kept: the longest name of its head.
pub fn memo_longest(memo: &[u16], p: usize) -> usize
    ensures { result ≡ longest_in memo.now p }
{
    let b = state_row(p);
    cell(memo, b + 1)
}

// Where its transitions begin.
pub fn memo_moves(memo: &[u16], p: usize) -> usize
    ensures { result ≡ moves_in memo.now p }
{
    let b = state_row(p);
    cell(memo, b + 2)
}

// And where it ends.
pub fn memo_past(memo: &[u16], p: usize) -> usize
    ensures { result ≡ past_in memo.now p }
{
    let b = state_row(p);
    cell(memo, b + 3)
}

// Where the regions' count of the state at p stands; 0 where the state is not kept.
pub fn memo_regions(memo: &[u16], p: usize) -> usize
    ensures { result ≡ regions_in memo.now p }
{
    let b = state_row(p);
    if cell(memo, b) == p {
        return cell(memo, b + 4);
    }
    0
}

// Keeps the state at p: its longest name, where its transitions begin, where it ends, where its regions' count stands.
pub fn memo_put_state(memo: &mut [u16], p: usize, l: usize, m: usize, o: usize, r: usize)
    requires { (p < word_range) × (l < word_range) × (m < word_range) × (o < word_range) × (r < word_range) }
    ensures { memo.new ≡ state_put memo.old p l m o r }
{
    let b = state_row(p);
    put_cell(memo, b, p);
    put_cell(memo, b + 1, l);
    put_cell(memo, b + 2, m);
    put_cell(memo, b + 3, o);
    put_cell(memo, b + 4, r);
}

// --- The first transition of a drawn region's states that leads to none of them: said of what is drawn, so that it is looked for once,
// however often it is shown.

// What a state's transitions do: all lead to states of its region, or the first that does not leads to this name.
#[derive(Clone, Copy)]
pub enum Targets {
    All,
    Stray(usize),
}

// How many states come before the first with an unknown target, and that target's name; all and 0 where there is none.
#[derive(Clone, Copy)]
pub struct UnknownTarget {
    pub fine: usize,
    pub name: usize,
}

// Whether one of `count` states drawn from `from` on has the pack's name x.
fn is_drawn_state(drawing: &Drawing, x: usize, count: usize, from: usize) -> bool
    ensures { (ns : List Name) → length ns ≡ drawing.now.pack.names → result ≡ drawn_state ns drawing.now.pack.bytes.now x count from }
{
    let mut p = from;
    for _ in 0..count {
        let i = number(drawing.pack.bytes, p);
        if i.value == x {
            return true;
        }
        p = drawing.past_of(p);
    }
    false
}

// Whether one of the n states drawn from f on has the pack's name x, where it may be known of the name `last`: transitions to one
// state mostly follow one another.
fn is_known_target(drawing: &Drawing, n: usize, f: usize, last: Option<usize>, x: usize) -> bool
    requires { IfSome last (IsDrawn drawing.now.pack.bytes.now drawing.now.pack.names n f) }
    ensures { (ns : List Name) → length ns ≡ drawing.now.pack.names → result ≡ drawn_state ns drawing.now.pack.bytes.now x n f }
{
    if last == Some(x) {
        return true;
    }
    is_drawn_state(drawing, x, n, f)
}

// What `count` transitions from `from` on do, of a state of the n states drawn from f on.
fn first_unknown_target(drawing: &Drawing, n: usize, f: usize, count: usize, from: usize) -> Targets
    ensures { (ns : List Name) → length ns ≡ drawing.now.pack.names → result ≡ target_d ns drawing.now.pack.bytes.now n f count from }
{
    let mut o = from;
    let mut last = None;
    for _ in 0..count {
        let x = number(drawing.pack.bytes, drawing.guard_end(o));
        if !is_known_target(drawing, n, f, last, x.value) {
            return Targets::Stray(x.value);
        }
        o = x.next;
        last = Some(x.value);
    }
    Targets::All
}

// The first of the n states drawn from f on that has an unknown target.
pub fn unknown_targets(drawing: &Drawing, n: usize, f: usize) -> UnknownTarget
    ensures { (ns : List Name) → length ns ≡ drawing.now.pack.names → result ≡ unknown_target_d ns drawing.now.pack.bytes.now n f }
{
    let mut p = f;
    for fine in 0..n {
        let c = number(drawing.pack.bytes, drawing.moves_of(p));
        let a = first_unknown_target(drawing, n, f, c.value, c.next);
        if let Targets::Stray(name) = a {
            return UnknownTarget { fine, name };
        }
        p = drawing.past_of(p);
    }
    UnknownTarget { fine: n, name: 0 }
}

// --- What walking, laying out, checking and looking for outputs need of the drawn states, read once a call and kept. Where it does not
// fit, nothing is kept.

// What is read of a state before its regions: its longest name and where that was read to, where its transitions begin, where its
// regions' count stands.
#[derive(Clone, Copy)]
struct Head {
    head: Number,
    moves: usize,
    regions: usize,
}

// Keeps where the equation at `at` ends, and answers it.
fn memo_end(pack: &CheckedPack, memo: &mut [u16], at: usize) -> usize
    ensures value { (ns : List Name) → length ns ≡ pack.now.names → result ≡ end_of (equation_in ns pack.now.bytes.now at) }
    ensures by_index { (offsets : List ℕ) → MemoSound pack.now.bytes.now pack.now.names offsets memo.old → MemoSound pack.now.bytes.now pack.now.names offsets memo.new }
{
    let e = after_equation(pack.bytes, pack.names, at);
    memo_put(memo, at, EQUATION, 0, e);
    e
}

// The ends of `count` equations from `from` on; the offset after them, 0 where one does not read.
fn memo_ends(pack: &CheckedPack, memo: &mut [u16], count: usize, from: usize) -> usize
    ensures value { (ns : List Name) → length ns ≡ pack.now.names → result ≡ end_of (many (equation_in ns pack.now.bytes.now) count from) }
    ensures by_index { (offsets : List ℕ) → MemoSound pack.now.bytes.now pack.now.names offsets memo.old → MemoSound pack.now.bytes.now pack.now.names offsets memo.new }
{
    let mut p = from;
    for _ in 0..count {
        p = memo_end(pack, memo, p);
        if p == 0 {
            return 0;
        }
    }
    p
}

// Keeps where the guard at `at` ends; the offset after its transition.
fn memo_guard(pack: &CheckedPack, memo: &mut [u16], at: usize) -> usize
    ensures value { (ns : List Name) → length ns ≡ pack.now.names → result ≡ end_of (transition_in ns pack.now.bytes.now at) }
    ensures by_index { (offsets : List ℕ) → MemoSound pack.now.bytes.now pack.now.names offsets memo.old → MemoSound pack.now.bytes.now pack.now.names offsets memo.new }
{
    let guard = skip_expr(pack.bytes, pack.names, at);
    memo_put(memo, at, GUARD, 0, reached(guard));
    match guard {
        Ok(p) => reached(skip_index(pack.bytes, pack.names, p)),
        Err(_) => 0,
    }
}

// The guards of `count` transitions from `from` on; the offset after them, 0 where one does not read.
fn memo_guards(pack: &CheckedPack, memo: &mut [u16], count: usize, from: usize) -> usize
    ensures value { (ns : List Name) → length ns ≡ pack.now.names → result ≡ end_of (many (transition_in ns pack.now.bytes.now) count from) }
    ensures by_index { (offsets : List ℕ) → MemoSound pack.now.bytes.now pack.now.names offsets memo.old → MemoSound pack.now.bytes.now pack.now.names offsets memo.new }
{
    let mut p = from;
    for _ in 0..count {
        p = memo_guard(pack, memo, p);
        if p == 0 {
            return 0;
        }
    }
    p
}

// Keeps the state at `at` that ends at o (0: it does not read), with what was read before its regions. Bytes that are no state may
// be read past in two ways: such a state is not kept.
fn memo_state(memo: &mut [u16], at: usize, h: Head, o: usize)
    ensures { (s : List ℕ) (names : ℕ) (offsets : List ℕ) → MemoSound s names offsets memo.old → (0 < o → (ns : List Name) → length ns ≡ names → (h ≡ head_of ns s offsets at) × (o ≡ over_in ns s at)) → MemoSound s names offsets memo.new }
{
    if o == 0 {
        return;
    }
    let l = h.head;
    if l.next != h.regions {
        return;
    }
    if WORD_RANGE <= at.max(l.value).max(h.moves).max(h.regions).max(o) {
        return;
    }
    memo_put_state(memo, at, l.value, h.moves, o, h.regions);
}

// Keeps the equations and the guards of the state at `at`; what is read of it before its regions.
fn memo_head(pack: &CheckedPack, offsets: &[u16], memo: &mut [u16], at: usize) -> Head
    requires { MemoSound pack.now.bytes.now pack.now.names offsets.now memo.old }
    ensures value { (ns : List Name) → length ns ≡ pack.now.names → result ≡ head_of ns pack.now.bytes.now offsets.now at }
    ensures memo_sound { MemoSound pack.now.bytes.now pack.now.names offsets.now memo.new }
{
    let i = number(pack.bytes, at);
    let c = number(pack.bytes, i.next);
    let moves = memo_ends(pack, memo, c.value, c.next);
    let g = number(pack.bytes, moves);
    let regions = memo_guards(pack, memo, g.value, g.next);
    let checked = *pack;
    let drawing = Drawing {
        pack: checked,
        memo,
    };
    let head = read_state_head(&drawing, offsets, at, moves);
    Head {
        head,
        moves,
        regions,
    }
}

// Where the state at `at` ends, whose regions end at p; 0 where a part of it does not read.
fn state_end(pack: &[u8], names: usize, at: usize, h: Head, p: usize) -> usize
    ensures { (ns : List Name) → length ns ≡ names → (offsets : List ℕ) (f : ℕ → Answer OneRegion) → h ≡ head_of ns pack.now offsets at → p ≡ end_of (counted f pack.now h.regions) → 0 < result → result ≡ end_of (state_with f ns pack.now at) }
{
    let n = reached(skip_index(pack, names, at));
    if n == 0 || h.moves == 0 || h.regions == 0 || p == 0 {
        return 0;
    }
    reached(skip_optional(pack, names, p))
}

// A region's initial state and its history flag.
#[tactic(auto, unfolding(wire::specs::Code::onward, wire::specs::Code::next, wire::specs::Code::skips, wire::specs::Code::skip, wire::specs::Code::read_of))]
fn skip_region_head(pack: &[u8], names: usize, at: usize) -> Skipped
    ensures { (ns : List Name) → length ns ≡ names → result ≡ onward (below 2 pack.now) (onward (name_in ns pack.now) (Ok at)) }
{
    let initial = skip_index(pack, names, at)?;
    Ok(read_below(pack, 2, initial)?.next)
}

// How many states the region at `at` has, and where they are: they end where it does. None at 0 where its head does not read.
fn states_in(pack: &[u8], names: usize, at: usize) -> Number
    ensures { (ns : List Name) → length ns ≡ names → (levels : ℕ) → (levels ≡ 0 → ⊥) → end_of (many (state_with (region_at (levels - 1) ns pack.now) ns pack.now) result.value result.next) ≡ end_of (region_at levels ns pack.now at) }
{
    match skip_region_head(pack, names, at) {
        Ok(p) => number(pack, p),
        Err(_) => Number { value: 0, next: 0 },
    }
}

// Keeps how many of n regions from `at` on have no states, where these are several; how many follow the one at `at`. Where `known`
// are known to follow, they are kept already.
fn memo_empty_regions(
    pack: &CheckedPack,
    offsets: &[u16],
    memo: &mut [u16],
    n: usize,
    known: usize,
    at: usize,
) -> usize
    requires { MemoSound pack.now.bytes.now pack.now.names offsets.now memo.old }
    ensures { MemoSound pack.now.bytes.now pack.now.names offsets.now memo.new }
{
    if 0 < known {
        return known - 1;
    }
    let e = empty_run_from(pack.bytes, offsets, n, at);
    let k = e.count;
    let l = e.longest;
    if k < 2 {
        return 0;
    }
    if WORD_RANGE <= l {
        return 0;
    }
    memo_put(memo, at, EMPTY, l, k);
    k - 1
}

// Keeps which of the states from `from` on, whose count stands before them, is the first with an unknown target. The row is that of the bytes
// before the states, where no equation and no guard begins; without states it is left to regions that have none. A region with more
// states than a machine may have is never checked.
fn memo_unknown_targets(pack: &CheckedPack, offsets: &[u16], memo: &mut [u16], from: usize)
    requires { MemoSound pack.now.bytes.now pack.now.names offsets.now memo.old }
    ensures { MemoSound pack.now.bytes.now pack.now.names offsets.now memo.new }
{
    if from < 5 {
        return;
    }
    let c = number(pack.bytes, from - 2);
    if c.value == 0 {
        return;
    }
    if Pack::STATES < c.value {
        return;
    }
    let checked = *pack;
    let drawing = Drawing {
        pack: checked,
        memo,
    };
    let r = unknown_targets(&drawing, c.value, from);
    if WORD_MAX <= r.fine.max(r.name) {
        return;
    }
    memo_put(memo, from - 5, UNKNOWN_TARGET, r.fine, r.name + 1);
}

// The state at `at` and the states in its regions; the offset after it, 0 where it does not read.
#[cycle(fill_state_fill_states)]
fn fill_state(
    pack: &CheckedPack,
    offsets: &[u16],
    memo: &mut [u16],
    levels: usize,
    at: usize,
) -> usize
    requires { MemoSound pack.now.bytes.now pack.now.names offsets.now memo.old × (levels < max_level) }
    ensures value { (ns : List Name) → length ns ≡ pack.now.names → 0 < result → result ≡ end_of (state_with (region_at levels ns pack.now.bytes.now) ns pack.now.bytes.now at) }
    ensures memo_sound { MemoSound pack.now.bytes.now pack.now.names offsets.now memo.new }
{
    let h = memo_head(pack, offsets, memo, at);
    let r = number(pack.bytes, h.regions);
    let mut p = r.next;
    let mut known = 0;
    for i in 0..r.value {
        let c = states_in(pack.bytes, pack.names, p);
        known = memo_empty_regions(pack, offsets, memo, r.value - i, known, p);
        p = fill_states(pack, offsets, memo, levels, c.value, c.next);
        if p == 0 {
            return 0;
        }
    }
    let o = state_end(pack.bytes, pack.names, at, h, p);
    memo_state(memo, at, h, o);
    o
}

// `count` states from `from` on; the offset after them, 0 where one does not read.
#[cycle(fill_state_fill_states)]
fn fill_states(
    pack: &CheckedPack,
    offsets: &[u16],
    memo: &mut [u16],
    levels: usize,
    count: usize,
    from: usize,
) -> usize
    requires { MemoSound pack.now.bytes.now pack.now.names offsets.now memo.old × (levels ≤ max_level) }
    ensures fact { (ns : List Name) → length ns ≡ pack.now.names → 0 < result → (levels ≡ 0 → ⊥) × (result ≡ end_of (many (state_with (region_at (levels - 1) ns pack.now.bytes.now) ns pack.now.bytes.now) count from)) }
    ensures memo_sound { MemoSound pack.now.bytes.now pack.now.names offsets.now memo.new }
{
    if levels == 0 {
        return 0;
    }
    let mut p = from;
    for _ in 0..count {
        p = fill_state(pack, offsets, memo, levels - 1, p);
        if p == 0 {
            return 0;
        }
    }
    memo_unknown_targets(pack, offsets, memo, from);
    p
}

// Those of all machines, whose count stands at `at`.
pub fn fill_memo(pack: &CheckedPack, offsets: &[u16], at: usize, memo: &mut [u16])
    requires { MemoSound pack.now.bytes.now pack.now.names offsets.now memo.old }
    ensures { MemoSound pack.now.bytes.now pack.now.names offsets.now memo.new }
{
    let c = number(pack.bytes, at);
    let mut p = c.next;
    for _ in 0..c.value {
        let m = number(pack.bytes, p);
        let h = machine(pack.bytes, to_initial(pack, m.next));
        p = fill_states(pack, offsets, memo, Pack::LEVELS, h.value, h.next);
    }
}
