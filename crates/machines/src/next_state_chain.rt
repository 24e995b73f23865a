// The next state of a region, from its states' transitions. Guards are copied from the pack.
ghost use Rattle.std.specs.Prelude.{List, ◌≡◌, ◌+◌, length, get_or};
ghost use Rattle.wire.specs.Writer.{state_of};
ghost use Rattle.pack_rules.specs.Names.{Name};
ghost use Rattle.pack.specs.Intern.{render};
ghost use Rattle.machines.specs.EmitAt.{move_t, moves_t, transitions_t, test_t, chain_t};

use crate::checked_read::{CheckedPack, after_expr, number};
use crate::emit_region::{put_is, put_variable};
use crate::layout::{between, first, layout_word, letters};
use crate::made_names::{Var, put_in_region};
use wire::writer::{Writer, put_byte, put_bytes};

// One transition, whose guard stands from `at` to e: where it holds, the target x.
fn put_move(
    old: &[u8],
    pack: &[u8],
    offsets: &[u16],
    layout: &[usize],
    qualified: &[u8],
    q: usize,
    at: usize,
    e: usize,
    x: usize,
    out: &mut [u8],
    made: &mut [u8],
    writer: Writer,
) -> Writer
    ensures { state_of out.new made.new result ≡ render old.now (move_t pack.now offsets.now layout.now qualified.now q at e x) (state_of out.old made.old writer) }
{
    let g = between(pack, at, e);
    let a = put_byte(out, writer, 4);
    let b = put_bytes(g, out, a);
    let c = put_byte(out, b, 1);
    put_in_region(old, pack, offsets, layout, qualified, q, x, out, made, c)
}

// `count` transitions from the offset `from` on; where none is taken the state stays.
fn put_moves(
    old: &[u8],
    pack: &CheckedPack,
    offsets: &[u16],
    layout: &[usize],
    qualified: &[u8],
    q: usize,
    count: usize,
    from: usize,
    out: &mut [u8],
    made: &mut [u8],
    writer: Writer,
) -> Writer
    ensures { (ns : List Name) → length ns ≡ pack.now.names → state_of out.new made.new result ≡ render old.now (moves_t pack.now.bytes.now offsets.now layout.now qualified.now ns q count from) (state_of out.old made.old writer) }
{
    let id = layout_word(layout, q, 5);
    let mut v = writer;
    let mut p = from;
    for _ in 0..count {
        if v.full {
            return v;
        }
        let e = after_expr(pack.bytes, pack.names, p);
        let x = number(pack.bytes, e);
        v = put_move(
            old, pack.bytes, offsets, layout, qualified, q, p, e, x.value, out, made, v,
        );
        p = x.next;
    }
    put_variable(old, Var::State, id, out, made, v)
}

// The transitions of the state at the word p, in the region at the word q.
pub fn put_transitions(
    old: &[u8],
    pack: &CheckedPack,
    offsets: &[u16],
    layout: &[usize],
    qualified: &[u8],
    q: usize,
    p: usize,
    out: &mut [u8],
    made: &mut [u8],
    writer: Writer,
) -> Writer
    ensures { (ns : List Name) → length ns ≡ pack.now.names → state_of out.new made.new result ≡ render old.now (transitions_t pack.now.bytes.now offsets.now layout.now qualified.now ns q p) (state_of out.old made.old writer) }
{
    let at = layout_word(layout, p, 1);
    let c = number(pack.bytes, at);
    put_moves(
        old, pack, offsets, layout, qualified, q, c.value, c.next, out, made, writer,
    )
}

// Whether the region at the word q is in the state at the word p, as the test of a conditional.
pub fn put_test(
    old: &[u8],
    layout: &[usize],
    qualified: &[u8],
    q: usize,
    p: usize,
    out: &mut [u8],
    made: &mut [u8],
    writer: Writer,
) -> Writer
    ensures { state_of out.new made.new result ≡ render old.now (test_t layout.now qualified.now q p) (state_of out.old made.old writer) }
{
    let id = layout_word(layout, q, 5);
    let n = letters(layout, qualified, p);
    let a = put_byte(out, writer, 4);
    put_is(old, id, n, out, made, a)
}

// The next state by the states of the region at the word q; the last has no test.
pub fn build_next_state_chain(
    old: &[u8],
    pack: &CheckedPack,
    offsets: &[u16],
    layout: &[usize],
    qualified: &[u8],
    q: usize,
    out: &mut [u8],
    made: &mut [u8],
    writer: Writer,
) -> Writer
    ensures { (ns : List Name) → length ns ≡ pack.now.names → state_of out.new made.new result ≡ render old.now (chain_t pack.now.bytes.now offsets.now layout.now qualified.now ns q (get_or layout.now (q + 6) 0) (q + 9)) (state_of out.old made.old writer) }
{
    let mut v = writer;
    let n = layout_word(layout, q, 6);
    let mut p = first(layout, q);
    for _ in 1..n {
        if v.full {
            return v;
        }
        let a = put_test(old, layout, qualified, q, p, out, made, v);
        v = put_transitions(old, pack, offsets, layout, qualified, q, p, out, made, a);
        p = layout_word(layout, p, 4);
    }
    if n == 0 {
        let id = layout_word(layout, q, 5);
        return put_variable(old, Var::State, id, out, made, v);
    }
    put_transitions(old, pack, offsets, layout, qualified, q, p, out, made, v)
}
