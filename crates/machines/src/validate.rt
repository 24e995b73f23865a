// The checks of a machine that is laid out: each region's initial state, and each target, is one of the region's states. State and
// region call each other, with the levels left as the falling number. Names within a region share their prefix, so that they are
// compared as indexes. `memo` has of a drawn region which state is the first with an unknown target: where the rows of the layout are
// those of that region, which is tested, its transitions are not looked at again (`TargetMemo`).
ghost use Rattle.std.specs.Prelude.{List, ◌≡◌, ◌+◌, get_or, length, IfSome};
ghost use Rattle.pack_rules.specs.Names.{Name};
ghost use Rattle.machines.specs.ValidateAt.{AllRecalled, Has, OneRecalled, checked_region, checked_state, has_t, is_state_t, onward as onward_of, recall_t as foretold_of, row_drawn, rows_drawn, targets_t};

use crate::checked_read::number;
use crate::drawing::Drawing;
use crate::layout::{first, inner, layout_word};
use crate::memo::{UNKNOWN_TARGET, memo_at, memo_beside};
use crate::table::entry;

// --- What is known of the targets of a region's states before they are looked at: `memo` has of a drawn region which state is the
// first with an unknown target.

// What may be known of the targets of a region's states from one on: the next `fine` ones have none that is wrong, the one after
// them has one, with this name.
#[derive(Clone, Copy)]
pub struct TargetMemo {
    pub fine: usize,
    pub name: usize,
}

// Whether the row at the word p is that of the state drawn at `at`.
fn row_drawn(drawing: &Drawing, layout: &[usize], p: usize, at: usize) -> bool
    ensures { (ns : List Name) → length ns ≡ drawing.now.pack.names → result ≡ row_drawn ns drawing.now.pack.bytes.now layout.now p at }
{
    entry(layout, p) == at && layout_word(layout, p, 1) == drawing.moves_of(at)
}

// Whether `count` rows from the word `from` on are those of the states drawn one after the other from f on.
fn rows_drawn(drawing: &Drawing, layout: &[usize], count: usize, from: usize, f: usize) -> bool
    ensures { (ns : List Name) → length ns ≡ drawing.now.pack.names → result ≡ rows_drawn ns drawing.now.pack.bytes.now layout.now count from f }
{
    let mut p = from;
    let mut at = f;
    for _ in 0..count {
        if !row_drawn(drawing, layout, p, at) {
            return false;
        }
        p = layout_word(layout, p, 4);
        at = drawing.past_of(at);
    }
    true
}

// What is kept of the states of the region at the word q, where they are those of a drawn region.
pub fn recall_targets(drawing: &Drawing, layout: &[usize], q: usize) -> Option<TargetMemo>
    ensures { AllRecalled drawing.now.pack.bytes.now drawing.now.pack.names layout.now result q (get_or layout.now (q + 6) 0) (q + 9) }
{
    let n = layout_word(layout, q, 6);
    let p = first(layout, q);
    let f = entry(layout, p);
    if f < 5 {
        return None;
    }
    let x = memo_at(drawing.memo, f - 5, UNKNOWN_TARGET);
    if x == 0 {
        return None;
    }
    let c = number(drawing.pack.bytes, f - 2);
    if c.value == n && rows_drawn(drawing, layout, n, p, f) {
        return Some(TargetMemo {
            fine: memo_beside(drawing.memo, f - 5),
            name: x - 1,
        });
    }
    None
}

// What is known of the states after one.
#[tactic(auto, unfolding(crate::specs::ValidateAt::onward))]
pub fn onward(v: Option<TargetMemo>) -> Option<TargetMemo>
    ensures { result ≡ onward_of v }
{
    let m = v?;
    if m.fine == 0 {
        return None;
    }
    Some(TargetMemo {
        fine: m.fine - 1,
        ..m
    })
}

// What checking came to: nothing wrong, a region (by its word) whose initial state is not among its states,
// or a state's transition to a name that is not.
#[derive(Clone, Copy)]
pub enum Checked {
    Fine,
    Initial(usize),
    Target {
        state: usize,
        region: usize,
        name: usize,
    },
}

// Whether one of `count` states from the word `from` on has the pack's name x.
fn is_state(pack: &[u8], layout: &[usize], count: usize, from: usize, x: usize) -> bool
    ensures { result ≡ is_state_t pack.now layout.now x count from }
{
    let mut p = from;
    for _ in 0..count {
        let i = number(pack, entry(layout, p));
        if i.value == x {
            return true;
        }
        p = layout_word(layout, p, 4);
    }
    false
}

// Whether a state of the region at the word q has the pack's name x.
fn has_state(pack: &[u8], layout: &[usize], q: usize, x: usize) -> bool
    ensures { result ≡ has_t pack.now layout.now q x }
{
    let n = layout_word(layout, q, 6);
    let p = first(layout, q);
    is_state(pack, layout, n, p, x)
}

// The same where it may be known of the name `last`: transitions to one state mostly follow one another.
fn has_target(pack: &[u8], layout: &[usize], q: usize, last: Option<usize>, x: usize) -> bool
    requires { IfSome last (Has pack.now layout.now q) }
    ensures { result ≡ has_t pack.now layout.now q x }
{
    if last == Some(x) {
        return true;
    }
    has_state(pack, layout, q, x)
}

// The targets of the state at the word p, in the region at the word q.
fn check_targets(drawing: &Drawing, layout: &[usize], q: usize, p: usize) -> Checked
    ensures { (ns : List Name) → length ns ≡ drawing.now.pack.names → result ≡ targets_t ns drawing.now.pack.bytes.now layout.now q p }
{
    let c = number(drawing.pack.bytes, layout_word(layout, p, 1));
    let mut o = c.next;
    let mut last = None;
    for _ in 0..c.value {
        let x = number(drawing.pack.bytes, drawing.guard_end(o));
        if !has_target(drawing.pack.bytes, layout, q, last, x.value) {
            return Checked::Target {
                state: p,
                region: q,
                name: x.value,
            };
        }
        o = x.next;
        last = Some(x.value);
    }
    Checked::Fine
}

// What is known of the state at the word p, in the region at the word q.
#[tactic(auto, unfolding(crate::specs::ValidateAt::recall_t))]
fn recall(v: TargetMemo, q: usize, p: usize) -> Checked
    ensures { result ≡ foretold_of v q p }
{
    if v.fine == 0 {
        return Checked::Target {
            state: p,
            region: q,
            name: v.name,
        };
    }
    Checked::Fine
}

// The targets of the state at the word p, in the region at the word q, looked at where nothing is known.
fn check_transitions(
    drawing: &Drawing,
    layout: &[usize],
    v: Option<TargetMemo>,
    q: usize,
    p: usize,
) -> Checked
    requires { OneRecalled drawing.now.pack.bytes.now drawing.now.pack.names layout.now v q p }
    ensures { (ns : List Name) → length ns ≡ drawing.now.pack.names → result ≡ targets_t ns drawing.now.pack.bytes.now layout.now q p }
{
    match v {
        Some(m) => recall(m, q, p),
        None => check_targets(drawing, layout, q, p),
    }
}

// A state: its targets, then its regions.
#[cycle(validate_region_validate_state)]
fn validate_state(
    drawing: &Drawing,
    layout: &[usize],
    levels: usize,
    v: Option<TargetMemo>,
    q: usize,
    p: usize,
) -> Checked
    requires { OneRecalled drawing.now.pack.bytes.now drawing.now.pack.names layout.now v q p }
    ensures { (ns : List Name) → length ns ≡ drawing.now.pack.names → result ≡ checked_state ns drawing.now.pack.bytes.now layout.now (checked_region ns drawing.now.pack.bytes.now layout.now levels) q p }
{
    let c = check_transitions(drawing, layout, v, q, p);
    let Checked::Fine = c else {
        return c;
    };
    let mut g = inner(layout, p);
    for _ in 0..layout_word(layout, p, 5) {
        let r = validate_region(drawing, layout, levels, g);
        let Checked::Fine = r else {
            return r;
        };
        g = layout_word(layout, g, 4);
    }
    Checked::Fine
}

// A region: its initial state, then its states.
#[cycle(validate_region_validate_state)]
pub fn validate_region(drawing: &Drawing, layout: &[usize], levels: usize, q: usize) -> Checked
    ensures { (ns : List Name) → length ns ≡ drawing.now.pack.names → result ≡ checked_region ns drawing.now.pack.bytes.now layout.now levels q }
{
    if levels == 0 {
        return Checked::Fine;
    }
    if !has_state(drawing.pack.bytes, layout, q, entry(layout, q)) {
        return Checked::Initial(q);
    }
    let mut v = recall_targets(drawing, layout, q);
    let mut p = first(layout, q);
    for _ in 0..layout_word(layout, q, 6) {
        let r = validate_state(drawing, layout, levels - 1, v, q, p);
        let Checked::Fine = r else {
            return r;
        };
        v = onward(v);
        p = layout_word(layout, p, 4);
    }
    Checked::Fine
}
