// The variables that calls of `last` ask for, in the order found: rows of three words, the variable's index, where its initial value
// stands (0 where none is given), and its holder's number, which is set later.
ghost use Rattle.std.specs.Prelude.{IfSome, unwrap_or, ◌<◌, List, ◌≡◌, ◌≤◌, length};
ghost use Rattle.pack_rules.specs.Names.{Name};
ghost use Rattle.pack_rules.specs.Limits.{max_bytes};
ghost use Rattle.activations.specs.LastsAt.{rows_of, row_t, init_t, row_more, note_t, find_step, find_lasts_t, find_in_scope_t, find_in_condition_t, find_in_body_t, each_branch_t, find_all_lasts_t};

use crate::cells::{put_word, word};
use crate::expr_node::{ExprNode, onward, open, read_expr_node};
use crate::pack_info::PackInfo;
use crate::parts::{Act, after_branch, branch_equations, first_branch, right_side};
use machines::checked_read::{after_expr, number};

// The row of the variable v among n.
pub fn row_of(lasts: &[u16], n: usize, v: usize) -> Option<usize>
    requires { n ≤ 8192 }
    ensures below { IfSome result (λ h. h < n) }
    ensures value { unwrap_or result n ≡ row_t lasts.now v n 0 }
{
    for h in 0..n {
        if word(lasts, 3 * h, 0) == v {
            return Some(h);
        }
    }
    None
}

// An initial value for the row h, where it has none.
#[tactic(auto, unfolding(crate::specs::LastsAt::init_t, crate::specs::Cells::put_t))]
fn give_init(lasts: &mut [u16], h: usize, init: usize)
    requires { h ≤ 8192 }
    ensures { lasts.new ≡ init_t h init lasts.old }
{
    if word(lasts, 3 * h, 1) == 0 {
        put_word(lasts, 3 * h, 1, init);
    }
}

// A row more.
fn add_row(lasts: &mut [u16], n: usize, v: usize, init: usize) -> usize
    requires { n ≤ 8192 }
    ensures { (result ≤ 8192) × (rows_of lasts.new result ≡ row_more v init (rows_of lasts.old n)) }
{
    if n < 8192 {
        put_word(lasts, 3 * n, 0, v);
        put_word(lasts, 3 * n, 1, init);
        return n + 1;
    }
    n
}

// A variable is noted once, and the first given initial value stays. Answers how many rows there are then.
#[tactic(auto, unfolding(crate::specs::LastsAt::note_t, crate::specs::LastsAt::note_row))]
fn note(lasts: &mut [u16], n: usize, v: usize, init: usize) -> usize
    requires { n ≤ 8192 }
    ensures { (result ≤ 8192) × (rows_of lasts.new result ≡ note_t v init (rows_of lasts.old n)) }
{
    if let Some(h) = row_of(lasts, n, v) {
        give_init(lasts, h, init);
        n
    } else {
        add_row(lasts, n, v, init)
    }
}

// What one node adds.
#[tactic(auto, unfolding(crate::specs::LastsAt::find_step))]
fn find_in_node(lasts: &mut [u16], n: usize, m: ExprNode, at: usize) -> usize
    requires { n ≤ 8192 }
    ensures { (result ≤ 8192) × (rows_of lasts.new result ≡ find_step m at (rows_of lasts.old n)) }
{
    let ExprNode::Last { var, init, .. } = m else {
        return n;
    };
    note(lasts, n, var, init)
}

// What an expression adds.
fn find_lasts(pack: &[u8], info: PackInfo, lasts: &mut [u16], count: usize, at: usize) -> usize
    requires { (length pack.now ≤ max_bytes) × (count ≤ 8192) }
    ensures few { result ≤ 8192 }
    ensures rows { (ns : List Name) → length ns ≡ info.names → rows_of lasts.new result ≡ find_lasts_t ns pack.now info.last at (rows_of lasts.old count) }
{
    let mut c = count;
    let mut n: usize = 1;
    let mut p = at;
    while 0 < n {
        let m = read_expr_node(pack, info, p);
        c = find_in_node(lasts, c, m, p);
        n = open(m, n);
        p = onward(m);
    }
    c
}

// What the conditions of branches add.
fn find_in_conditions(pack: &[u8], info: PackInfo, lasts: &mut [u16], count: usize, a: Act) -> usize
    requires { (length pack.now ≤ max_bytes) × (count ≤ 8192) }
    ensures few { result ≤ 8192 }
    ensures rows { (ns : List Name) → length ns ≡ info.names → rows_of lasts.new result ≡ each_branch_t ns pack.now (find_in_condition_t ns pack.now info.last) a.branches (rows_of lasts.old count) }
{
    let f = first_branch(pack, a);
    let mut p = f.next;
    let mut c = count;
    for _ in 0..f.value {
        let i = number(pack, p);
        c = find_lasts(pack, info, lasts, c, i.next);
        p = after_branch(pack, info.names, p);
    }
    c
}

// What a scope adds, whose count of equations stands at `at`.
fn find_in_scope(pack: &[u8], info: PackInfo, lasts: &mut [u16], count: usize, at: usize) -> usize
    requires { (length pack.now ≤ max_bytes) × (count ≤ 8192) }
    ensures few { result ≤ 8192 }
    ensures rows { (ns : List Name) → length ns ≡ info.names → rows_of lasts.new result ≡ find_in_scope_t ns pack.now info.last at (rows_of lasts.old count) }
{
    let f = number(pack, at);
    let mut p = f.next;
    let mut c = count;
    for _ in 0..f.value {
        let e = right_side(pack, info.names, p);
        c = find_lasts(pack, info, lasts, c, e);
        p = after_expr(pack, info.names, e);
    }
    c
}

// What the scopes of branches add.
fn find_in_bodies(pack: &[u8], info: PackInfo, lasts: &mut [u16], count: usize, a: Act) -> usize
    requires { (length pack.now ≤ max_bytes) × (count ≤ 8192) }
    ensures few { result ≤ 8192 }
    ensures rows { (ns : List Name) → length ns ≡ info.names → rows_of lasts.new result ≡ each_branch_t ns pack.now (find_in_body_t ns pack.now info.last) a.branches (rows_of lasts.old count) }
{
    let f = first_branch(pack, a);
    let mut p = f.next;
    let mut c = count;
    for _ in 0..f.value {
        let e = branch_equations(pack, info.names, p);
        c = find_in_scope(pack, info, lasts, c, e);
        p = after_branch(pack, info.names, p);
    }
    c
}

// What all expressions of an activation ask for. Answers how many rows there are.
#[tactic(auto, unfolding(crate::specs::LastsAt::find_all_lasts_t))]
pub fn find_all_lasts(pack: &[u8], info: PackInfo, lasts: &mut [u16], a: Act) -> usize
    requires { length pack.now ≤ max_bytes }
    ensures few { result ≤ 8192 }
    ensures rows { (ns : List Name) → length ns ≡ info.names → rows_of lasts.new result ≡ find_all_lasts_t ns pack.now info.last a (rows_of lasts.old 0) }
{
    let c = find_in_conditions(pack, info, lasts, 0, a);
    let d = find_in_bodies(pack, info, lasts, c, a);
    find_in_scope(pack, info, lasts, d, a.other)
}
