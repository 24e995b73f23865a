// Right sides over samples of what they read, or with their constants on the scope's clock where they read nothing. What stays is
// copied as it stands, node by node.
ghost use Rattle.std.specs.Prelude.{IfSome, List, ◌∷◌, [], ◌≡◌, ◌≤◌, ◌<◌, ◌^◌, length};
ghost use Rattle.wire.specs.Writer.{state_of};
ghost use Rattle.wire.specs.Bytes.{word_range};
ghost use Rattle.pack_rules.specs.Names.{Name};
ghost use Rattle.pack_rules.specs.Write.{raw};
ghost use Rattle.pack.specs.Intern.{render};
ghost use Rattle.pack_rules.specs.Limits.{max_bytes};
ghost use Rattle.activations.specs.OverSamplesAt.{chosen_items, clocked_items, has_const_t, number_or, other_items, over_t, rename_items, rename_t, renamed_t, sampled_constant_items, sampled_constant_t, sampled_value_t};

use crate::expr_node::{ExprNode, is_const, onward, open, read_expr_node};
use crate::flags::put_onto;
use crate::name_ids::{last_id, put_id, put_sample_of, sample_id};
use crate::pack_info::PackInfo;
use crate::rewrite_last::{rewrite_last, rewrite_node};
use machines::layout::{between, part, remaining};
use wire::writer::{Writer, put_byte, put_bytes};

// The number whose sample stands for x, where x does not stay. One read after the other: a sample that is read later is sampled in
// its turn.
#[tactic(auto, unfolding(crate::specs::OverSamplesAt::number_or))]
fn renamed(
    old: &[u8],
    pack: &[u8],
    offsets: &[u16],
    info: PackInfo,
    a: &[u8],
    n: usize,
    k: usize,
    ids: &[u16],
    x: usize,
) -> Option<usize>
    ensures small { IfSome result (λ y. y < word_range) }
    ensures value { number_or result ≡ renamed_t old.now pack.now offsets.now info.names info.made a.now n k ids.now x }
{
    let mut v = x;
    let mut found = None;
    for id in ids {
        if usize::from(*id) == v {
            found = Some(v);
            v = sample_id(old, pack, offsets, info, a, n, k, v);
        }
    }
    found
}

// The name that stands for x.
fn put_renamed_id(
    old: &[u8],
    pack: &[u8],
    offsets: &[u16],
    info: PackInfo,
    a: &[u8],
    n: usize,
    k: usize,
    ids: &[u16],
    x: usize,
    out: &mut [u8],
    made: &mut [u8],
    writer: Writer,
) -> Writer
    ensures { state_of out.new made.new result ≡ render old.now (chosen_items old.now pack.now offsets.now info.names info.made a.now n k ids.now x) (state_of out.old made.old writer) }
{
    match renamed(old, pack, offsets, info, a, n, k, ids, x) {
        Some(y) => put_sample_of(
            old, pack, offsets, info.names, a, n, k, y, out, made, writer,
        ),
        None => put_id(old, pack, offsets, info.names, a, x, out, made, writer),
    }
}

// The same as an expression.
#[tactic(auto, unfolding(crate::specs::OverSamplesAt::chosen_items, pack::specs::Intern::render, pack::specs::Intern::put_item, wire::specs::Writer::puts))]
fn put_renamed_var(
    old: &[u8],
    pack: &[u8],
    offsets: &[u16],
    info: PackInfo,
    a: &[u8],
    n: usize,
    k: usize,
    ids: &[u16],
    x: usize,
    out: &mut [u8],
    made: &mut [u8],
    writer: Writer,
) -> Writer
    ensures { state_of out.new made.new result ≡ render old.now (raw (1 ∷ []) ∷ chosen_items old.now pack.now offsets.now info.names info.made a.now n k ids.now x) (state_of out.old made.old writer) }
{
    let c = put_byte(out, writer, 1);
    put_renamed_id(old, pack, offsets, info, a, n, k, ids, x, out, made, c)
}

// A node with the clock x, whose bytes are h: the clock's name stands after the tag.
fn put_clocked(
    old: &[u8],
    pack: &[u8],
    offsets: &[u16],
    info: PackInfo,
    a: &[u8],
    n: usize,
    k: usize,
    ids: &[u16],
    x: usize,
    h: &[u8],
    out: &mut [u8],
    made: &mut [u8],
    writer: Writer,
) -> Writer
    ensures { state_of out.new made.new result ≡ render old.now (clocked_items old.now pack.now offsets.now info.names info.made a.now n k ids.now x h.now) (state_of out.old made.old writer) }
{
    let t = part(h, 0, 1);
    let c = put_bytes(t, out, writer);
    let d = put_renamed_id(old, pack, offsets, info, a, n, k, ids, x, out, made, c);
    let f = part(h, 3, 1);
    put_bytes(f, out, d)
}

// The node m that stands at `at`, which is no call of `last`, its name renamed: a variable's or a clock's.
fn put_other_renamed(
    old: &[u8],
    pack: &[u8],
    offsets: &[u16],
    info: PackInfo,
    a: &[u8],
    n: usize,
    k: usize,
    ids: &[u16],
    m: ExprNode,
    at: usize,
    out: &mut [u8],
    made: &mut [u8],
    writer: Writer,
) -> Writer
    ensures { state_of out.new made.new result ≡ render old.now (other_items old.now pack.now offsets.now info.names info.made a.now n k ids.now m at) (state_of out.old made.old writer) }
{
    let q = onward(m);
    let h = between(pack, at, q);
    match m {
        ExprNode::Var { name, .. } => {
            put_renamed_var(
                old, pack, offsets, info, a, n, k, ids, name, out, made, writer,
            )
        }
        ExprNode::Clocked { clock, .. } => put_clocked(
            old, pack, offsets, info, a, n, k, ids, clock, h, out, made, writer,
        ),
        _ => put_bytes(h, out, writer),
    }
}

// The node m that stands at `at`, its name renamed: a call of `last` becomes what stands for its holder.
#[tactic(auto, unfolding(crate::specs::OverSamplesAt::rename_items))]
fn put_node_renamed(
    old: &[u8],
    pack: &[u8],
    offsets: &[u16],
    info: PackInfo,
    a: &[u8],
    n: usize,
    k: usize,
    ids: &[u16],
    lasts: &[u16],
    rows: usize,
    m: ExprNode,
    at: usize,
    out: &mut [u8],
    made: &mut [u8],
    writer: Writer,
) -> Writer
    requires { rows < word_range }
    ensures { state_of out.new made.new result ≡ render old.now (rename_items old.now pack.now offsets.now info.names info.made a.now n k ids.now lasts.now rows m at) (state_of out.old made.old writer) }
{
    let ExprNode::Last { var, .. } = m else {
        return put_other_renamed(
            old, pack, offsets, info, a, n, k, ids, m, at, out, made, writer,
        );
    };
    let x = last_id(lasts, rows, var);
    put_renamed_var(old, pack, offsets, info, a, n, k, ids, x, out, made, writer)
}

// The right side at an offset, its names renamed.
fn put_renamed(
    old: &[u8],
    pack: &[u8],
    offsets: &[u16],
    info: PackInfo,
    a: &[u8],
    n: usize,
    k: usize,
    ids: &[u16],
    lasts: &[u16],
    rows: usize,
    at: usize,
    out: &mut [u8],
    made: &mut [u8],
    writer: Writer,
) -> Writer
    requires pack_len_bound { length pack.now ≤ max_bytes }
    requires rows_lt_word_range { rows < word_range }
    ensures { (ns : List Name) → length ns ≡ info.names → state_of out.new made.new result ≡ rename_t old.now pack.now offsets.now info.names info.made a.now n k ids.now lasts.now rows ns info.last at (state_of out.old made.old writer) }
{
    let mut v = writer;
    let mut c: usize = 1;
    let mut p = at;
    while 0 < c {
        let m = read_expr_node(pack, info, p);
        v = put_node_renamed(
            old, pack, offsets, info, a, n, k, ids, lasts, rows, m, p, out, made, v,
        );
        c = remaining(v, open(m, c));
        p = onward(m);
    }
    v
}

// Whether the right side at an offset has a constant.
fn has_const(pack: &[u8], info: PackInfo, at: usize) -> bool
    requires { length pack.now ≤ max_bytes }
    ensures { (ns : List Name) → length ns ≡ info.names → result ≡ has_const_t ns pack.now info.last at }
{
    let mut n: usize = 1;
    let mut p = at;
    while 0 < n {
        let m = read_expr_node(pack, info, p);
        if is_const(m) {
            return true;
        }
        n = open(m, n);
        p = onward(m);
    }
    false
}

// The node m that stands at `at`: a constant comes onto the clock of the scope k of n branches.
fn put_node_sampled(
    old: &[u8],
    pack: &[u8],
    offsets: &[u16],
    a: &[u8],
    n: usize,
    k: usize,
    m: ExprNode,
    at: usize,
    out: &mut [u8],
    made: &mut [u8],
    writer: Writer,
) -> Writer
    requires { n < 2 ^ 63 }
    ensures { state_of out.new made.new result ≡ render old.now (sampled_constant_items pack.now offsets.now a.now n k m at) (state_of out.old made.old writer) }
{
    let ExprNode::Const(next) = m else {
        return rewrite_node(old, pack, offsets, a, m, at, out, made, writer);
    };
    let c = put_onto(old, a, n, k, out, made, writer);
    let h = between(pack, at, next);
    put_bytes(h, out, c)
}

// The right side at an offset, its constants on the scope's clock.
fn put_sampled_constants(
    old: &[u8],
    pack: &[u8],
    offsets: &[u16],
    info: PackInfo,
    a: &[u8],
    n: usize,
    k: usize,
    at: usize,
    out: &mut [u8],
    made: &mut [u8],
    writer: Writer,
) -> Writer
    requires pack_len_bound { length pack.now ≤ max_bytes }
    requires n_bound { n < 2 ^ 63 }
    ensures { (ns : List Name) → length ns ≡ info.names → state_of out.new made.new result ≡ sampled_constant_t old.now pack.now offsets.now a.now n k ns info.last at (state_of out.old made.old writer) }
{
    let mut v = writer;
    let mut c: usize = 1;
    let mut p = at;
    while 0 < c {
        let m = read_expr_node(pack, info, p);
        v = put_node_sampled(old, pack, offsets, a, n, k, m, p, out, made, v);
        c = remaining(v, open(m, c));
        p = onward(m);
    }
    v
}

// The right side at an offset where it reads nothing: its constants on the scope's clock, or all of it where it has none.
#[tactic(auto, unfolding(crate::specs::OverSamplesAt::sampled_value_t))]
fn put_sampled_value(
    old: &[u8],
    pack: &[u8],
    offsets: &[u16],
    info: PackInfo,
    a: &[u8],
    n: usize,
    k: usize,
    at: usize,
    out: &mut [u8],
    made: &mut [u8],
    writer: Writer,
) -> Writer
    requires pack_len_bound { length pack.now ≤ max_bytes }
    requires n_bound { n < 2 ^ 63 }
    ensures { (ns : List Name) → length ns ≡ info.names → state_of out.new made.new result ≡ sampled_value_t old.now pack.now offsets.now a.now n k ns info.last at (state_of out.old made.old writer) }
{
    if has_const(pack, info, at) {
        put_sampled_constants(old, pack, offsets, info, a, n, k, at, out, made, writer)
    } else {
        let c = put_onto(old, a, n, k, out, made, writer);
        rewrite_last(old, pack, info, offsets, a, at, out, made, c)
    }
}

// The right side at an offset, which reads these, in the scope k of n branches.
#[tactic(auto, unfolding(crate::specs::OverSamplesAt::over_t))]
pub fn put_over_samples(
    old: &[u8],
    pack: &[u8],
    offsets: &[u16],
    info: PackInfo,
    a: &[u8],
    n: usize,
    k: usize,
    ids: &[u16],
    lasts: &[u16],
    rows: usize,
    at: usize,
    out: &mut [u8],
    made: &mut [u8],
    writer: Writer,
) -> Writer
    requires pack_len_bound { length pack.now ≤ max_bytes }
    requires rows_lt_word_range { rows < word_range }
    requires n_bound { n < 2 ^ 63 }
    ensures { (ns : List Name) → length ns ≡ info.names → state_of out.new made.new result ≡ over_t old.now pack.now offsets.now info.names info.made a.now n k ids.now lasts.now rows ns info.last at (state_of out.old made.old writer) }
{
    if ids.is_empty() {
        put_sampled_value(old, pack, offsets, info, a, n, k, at, out, made, writer)
    } else {
        put_renamed(
            old, pack, offsets, info, a, n, k, ids, lasts, rows, at, out, made, writer,
        )
    }
}
