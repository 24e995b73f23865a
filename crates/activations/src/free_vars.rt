// What an equation of a scope reads: numbers of names in a table, in order, each once. They are searched one by one.
ghost use Rattle.std.specs.Prelude.{List, ◌≡◌, ◌<◌, ◌≤◌, length, take};
ghost use Rattle.wire.specs.Bytes.{word_range};
ghost use Rattle.pack_rules.specs.Names.{Name};
ghost use Rattle.pack_rules.specs.Limits.{max_bytes};
ghost use Rattle.machines.specs.Fingerprints.{among};
ghost use Rattle.activations.specs.FreeVarsAt.{free_vars_t, join_t, note_t, push_t, read_by};

use crate::expr_node::{ExprNode, onward, open, read_expr_node};
use crate::name_ids::{NO_NUMBER, last_id};
use crate::pack_info::PackInfo;
use crate::types::typed;
use pack::cells::put_cell;

// Whether x is one of these.
pub fn is_in(ids: &[u16], x: usize) -> bool
    ensures { result ≡ among x ids.now }
{
    ids.iter().any(|id| usize::from(*id) == x)
}

// One more after the first n, where it is not among them. Each comes from a node of at least three bytes, so that there is room.
pub fn push(t: &mut [u16], n: usize, x: usize) -> usize
    requires in_bounds { 21848 ≤ length t.old }
    requires n_bound { n ≤ 21848 }
    ensures { (result ≤ 21848) × (take result t.new ≡ push_t x (take n t.old)) }
{
    if is_in(&t[..n], x) {
        return n;
    }
    if n < 21848 {
        put_cell(t, n, x);
        return n + 1;
    }
    n
}

// Those of a list after the first n.
pub fn join(ids: &[u16], t: &mut [u16], n: usize) -> usize
    requires in_bounds { 21848 ≤ length t.old }
    requires n_bound { n ≤ 21848 }
    ensures { (result ≤ 21848) × (take result t.new ≡ join_t ids.now (take n t.old)) }
{
    let mut m = n;
    for id in ids {
        m = push(t, m, usize::from(*id));
    }
    m
}

// The number that a node reads.
#[tactic(auto, unfolding(crate::specs::FreeVarsAt::read_by))]
fn read_by(lasts: &[u16], rows: usize, m: ExprNode) -> usize
    requires { rows < word_range }
    ensures { result ≡ read_by lasts.now rows m }
{
    match m {
        ExprNode::Last { var, .. } => last_id(lasts, rows, var),
        ExprNode::Var { name, .. } => name,
        ExprNode::Clocked { clock, .. } => clock,
        _ => NO_NUMBER,
    }
}

// One more after the first n, where it is a known variable's.
#[tactic(auto, unfolding(crate::specs::FreeVarsAt::note_t))]
fn note(types: &[u16], outs: &[u16], names: usize, t: &mut [u16], n: usize, x: usize) -> usize
    requires in_bounds { 21848 ≤ length t.old }
    requires n_bound { n ≤ 21848 }
    ensures { (result ≤ 21848) × (take result t.new ≡ note_t types.now outs.now names x (take n t.old)) }
{
    if typed(types, outs, names, x) == 0 {
        n
    } else {
        push(t, n, x)
    }
}

// What the right side at an offset reads: how many there are.
pub fn list_reads(
    pack: &[u8],
    info: PackInfo,
    lasts: &[u16],
    rows: usize,
    types: &[u16],
    outs: &[u16],
    at: usize,
    t: &mut [u16],
) -> usize
    requires pack_len_bound { length pack.now ≤ max_bytes }
    requires rows_lt_word_range { rows < word_range }
    requires in_bounds { 21848 ≤ length t.old }
    ensures { (result ≤ 21848) × ((ns : List Name) → length ns ≡ info.names → take result t.new ≡ free_vars_t lasts.now rows types.now outs.now info.names ns pack.now info.last at) }
{
    let mut r = 0;
    let mut n: usize = 1;
    let mut p = at;
    while 0 < n {
        let m = read_expr_node(pack, info, p);
        let x = read_by(lasts, rows, m);
        r = note(types, outs, info.names, t, r, x);
        n = open(m, n);
        p = onward(m);
    }
    r
}
