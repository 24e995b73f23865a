// The value of each output: a chain over the states of a region, in which a state's first covering region goes before its own
// equation. Right sides are copied from the pack.
ghost use Rattle.std.specs.Prelude.{List, ◌≡◌, ℕ, length, get_or};
ghost use Rattle.wire.specs.Writer.{puts, state_of};
ghost use Rattle.pack_rules.specs.Names.{Name};
ghost use Rattle.pack.specs.Intern.{render};
ghost use Rattle.machines.specs.CoverAt.{uncovered_t};
ghost use Rattle.machines.specs.AssignsMemo.{AssignsSound};
ghost use Rattle.machines.specs.ValueAt.{side_t, side_bytes, entered_t, in_state_t, value_t, output_t, port_outputs_t};

use crate::checked_read::{after_expr, after_port, number};
use crate::cover::{ASSIGNS_MEMO, require_cover_region, some_word};
use crate::drawing::Drawing;
use crate::layout::{between, first, inner, layout_word};
use crate::next_state_chain::put_test;
use crate::table::entry;
use pack::record::Pack;
use wire::writer::{Writer, put_bytes, put_u16};

// Where the right side stands of the first equation of the state at `at` that has x as its only left name.
fn own_rhs(drawing: &Drawing, x: usize, at: usize) -> Option<usize>
    ensures { (ns : List Name) → length ns ≡ drawing.now.pack.names → result ≡ side_t ns drawing.now.pack.bytes.now x at }
{
    let i = number(drawing.pack.bytes, at);
    let c = number(drawing.pack.bytes, i.next);
    let mut p = c.next;
    for _ in 0..c.value {
        let k = number(drawing.pack.bytes, p);
        let l = number(drawing.pack.bytes, k.next);
        if k.value == 1 && l.value == x {
            return Some(l.next);
        }
        p = drawing.end_of(p);
    }
    None
}

// That right side of the state at the word p.
fn put_own(
    drawing: &Drawing,
    layout: &[usize],
    x: usize,
    p: usize,
    out: &mut [u8],
    writer: Writer,
) -> Writer
    ensures { (ns : List Name) → length ns ≡ drawing.now.pack.names → (m : List ℕ) → state_of out.new m result ≡ puts (side_bytes ns drawing.now.pack.bytes.now x (get_or layout.now p 0)) (state_of out.old m writer) }
{
    let a = own_rhs(drawing, x, entry(layout, p)).unwrap_or(0);
    let e = after_expr(drawing.pack.bytes, drawing.pack.names, a);
    put_bytes(between(drawing.pack.bytes, a, e), out, writer)
}

// The first region of the state at the word p that gives x in all its states; none where that is the word 0.
fn entered(
    drawing: &Drawing,
    layout: &[usize],
    hints: &mut [u16],
    x: usize,
    levels: usize,
    p: usize,
) -> Option<usize>
    requires { AssignsSound drawing.now.pack.bytes.now drawing.now.pack.names drawing.now.memo.now hints.old }
    ensures value { (ns : List Name) → length ns ≡ drawing.now.pack.names → result ≡ entered_t layout.now (uncovered_t ns drawing.now.pack.bytes.now layout.now x levels) p }
    ensures assigns_sound { AssignsSound drawing.now.pack.bytes.now drawing.now.pack.names drawing.now.memo.now hints.new }
{
    let mut g = inner(layout, p);
    for _ in 0..layout_word(layout, p, 5) {
        let m = require_cover_region(drawing, layout, hints, x, levels, g);
        if m.is_none() {
            return some_word(g);
        }
        g = layout_word(layout, g, 4);
    }
    None
}

// The value of x in the state at the word p.
#[cycle(value_in_state_value_of)]
fn value_in_state(
    old: &[u8],
    drawing: &Drawing,
    layout: &[usize],
    qualified: &[u8],
    hints: &mut [u16],
    x: usize,
    levels: usize,
    p: usize,
    out: &mut [u8],
    made: &mut [u8],
    writer: Writer,
) -> Writer
    requires { AssignsSound drawing.now.pack.bytes.now drawing.now.pack.names drawing.now.memo.now hints.old }
    ensures result_after { (ns : List Name) → length ns ≡ drawing.now.pack.names → state_of out.new made.new result ≡ render old.now (in_state_t drawing.now.pack.bytes.now layout.now qualified.now ns x (value_t drawing.now.pack.bytes.now layout.now qualified.now ns x levels) (uncovered_t ns drawing.now.pack.bytes.now layout.now x levels) p) (state_of out.old made.old writer) }
    ensures assigns_sound { AssignsSound drawing.now.pack.bytes.now drawing.now.pack.names drawing.now.memo.now hints.new }
{
    match entered(drawing, layout, hints, x, levels, p) {
        None => put_own(drawing, layout, x, p, out, writer),
        Some(g) => value_of(
            old, drawing, layout, qualified, hints, x, levels, g, out, made, writer,
        ),
    }
}

// The value of x by the states of the region at the word q; the last has no test.
#[cycle(value_in_state_value_of)]
fn value_of(
    old: &[u8],
    drawing: &Drawing,
    layout: &[usize],
    qualified: &[u8],
    hints: &mut [u16],
    x: usize,
    levels: usize,
    q: usize,
    out: &mut [u8],
    made: &mut [u8],
    writer: Writer,
) -> Writer
    requires { AssignsSound drawing.now.pack.bytes.now drawing.now.pack.names drawing.now.memo.now hints.old }
    ensures result_after { (ns : List Name) → length ns ≡ drawing.now.pack.names → state_of out.new made.new result ≡ render old.now (value_t drawing.now.pack.bytes.now layout.now qualified.now ns x levels q) (state_of out.old made.old writer) }
    ensures assigns_sound { AssignsSound drawing.now.pack.bytes.now drawing.now.pack.names drawing.now.memo.now hints.new }
{
    if levels == 0 {
        return writer;
    }
    let rest = levels - 1;
    let mut v = writer;
    let n = layout_word(layout, q, 6);
    let mut p = first(layout, q);
    for _ in 1..n {
        if v.full {
            return v;
        }
        let a = put_test(old, layout, qualified, q, p, out, made, v);
        v = value_in_state(
            old, drawing, layout, qualified, hints, x, rest, p, out, made, a,
        );
        p = layout_word(layout, p, 4);
    }
    if n == 0 {
        return v;
    }
    value_in_state(
        old, drawing, layout, qualified, hints, x, rest, p, out, made, v,
    )
}

// The equation of the output x of the machine that is laid out.
fn put_output(
    old: &[u8],
    drawing: &Drawing,
    layout: &[usize],
    qualified: &[u8],
    hints: &mut [u16],
    x: usize,
    out: &mut [u8],
    made: &mut [u8],
    writer: Writer,
) -> Writer
    requires { AssignsSound drawing.now.pack.bytes.now drawing.now.pack.names drawing.now.memo.now hints.old }
    ensures result_after { (ns : List Name) → length ns ≡ drawing.now.pack.names → state_of out.new made.new result ≡ render old.now (output_t drawing.now.pack.bytes.now layout.now qualified.now ns x) (state_of out.old made.old writer) }
    ensures assigns_sound { AssignsSound drawing.now.pack.bytes.now drawing.now.pack.names drawing.now.memo.now hints.new }
{
    let a = put_u16(out, writer, 1);
    let b = put_u16(out, a, x);
    value_of(
        old,
        drawing,
        layout,
        qualified,
        hints,
        x,
        Pack::LEVELS,
        0,
        out,
        made,
        b,
    )
}

// The equations of its outputs, whose count stands at `at`. What drawn states give is remembered.
pub fn put_outputs(
    old: &[u8],
    drawing: &Drawing,
    layout: &[usize],
    qualified: &[u8],
    at: usize,
    out: &mut [u8],
    made: &mut [u8],
    writer: Writer,
) -> Writer
    ensures { (ns : List Name) → length ns ≡ drawing.now.pack.names → state_of out.new made.new result ≡ render old.now (port_outputs_t drawing.now.pack.bytes.now layout.now qualified.now ns at) (state_of out.old made.old writer) }
{
    let mut told = [0u16; ASSIGNS_MEMO];
    let c = number(drawing.pack.bytes, at);
    let mut p = c.next;
    let mut v = writer;
    for _ in 0..c.value {
        if v.full {
            return v;
        }
        let x = number(drawing.pack.bytes, p);
        v = put_output(
            old, drawing, layout, qualified, &mut told, x.value, out, made, v,
        );
        p = after_port(drawing.pack.bytes, drawing.pack.names, p);
    }
    v
}
