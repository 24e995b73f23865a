// Flags and guards of branches, and the clocks of scopes that are made of them. Of the branch k, from 0 on, of n:
//   flag       b<k+1>: the condition, and from the second branch on that none before it is taken
//   none flag  n<k+1>: none is taken up to k; the last branch has none
//   guard      g<k+1>: the flag, sampled where none before it is taken; the first branch has none, its flag stands for it
//   clock      of a branch's scope: `when` its guard, over `when not` the guards before it; of the else scope `when not` all of them
ghost use Rattle.std.specs.Prelude.{List, [], ◌∷◌, ◌≡◌, ◌<◌, ◌^◌, ◌≤◌, length};
ghost use Rattle.wire.specs.Writer.{state_of};
ghost use Rattle.pack_rules.specs.Syntax.{Expr, e_var};
ghost use Rattle.pack_rules.specs.Write.{each, equation_items, expr_items, list, name_items};
ghost use Rattle.pack.specs.Intern.{render};
ghost use Rattle.activations.specs.Vars.{branch_var, scope_at};
ghost use Rattle.activations.specs.ByNumber.{guard_of, onto_items, under_items, when_items};
ghost use Rattle.pack_rules.specs.Names.{Name};
ghost use Rattle.pack_rules.specs.Limits.{max_bytes};
ghost use Rattle.activations.specs.FlagsAt.{branch_flags_t, flag_t, flags_t, none_flag_t, prior_items};
ghost use Rattle.activation_rules.specs.Clocks.{guard_equations};
ghost use Rattle.activation_rules.specs.Lower.{tail_of};

use crate::made_names::{Var, put_var};
use crate::pack_info::PackInfo;
use crate::parts::after_branch;
use crate::rewrite_last::rewrite_last;
use machines::checked_read::number;
use wire::writer::{Writer, put_byte, put_bytes, put_u16};

// --- Variables of branches as expressions and left sides; the clocks of scopes, up to their argument.

// A branch's variable as an expression.
pub fn put_variable(
    old: &[u8],
    a: &[u8],
    v: Var,
    k: usize,
    out: &mut [u8],
    made: &mut [u8],
    writer: Writer,
) -> Writer
    requires { k < 2 ^ 63 }
    ensures { state_of out.new made.new result ≡ render old.now (expr_items (e_var (branch_var v a.now k))) (state_of out.old made.old writer) }
{
    let c = put_byte(out, writer, 1);
    put_var(old, a, v, k, out, made, c)
}

// A branch's variable as the left side of an equation.
pub fn put_left(
    old: &[u8],
    a: &[u8],
    v: Var,
    k: usize,
    out: &mut [u8],
    made: &mut [u8],
    writer: Writer,
) -> Writer
    requires { k < 2 ^ 63 }
    ensures { state_of out.new made.new result ≡ render old.now (list name_items (branch_var v a.now k ∷ [])) (state_of out.old made.old writer) }
{
    let c = put_u16(out, writer, 1);
    put_var(old, a, v, k, out, made, c)
}

// A `when` on the clock of the branch k, up to its argument.
fn put_when(
    old: &[u8],
    a: &[u8],
    k: usize,
    on: u8,
    out: &mut [u8],
    made: &mut [u8],
    writer: Writer,
) -> Writer
    requires { k < 2 ^ 63 }
    ensures { state_of out.new made.new result ≡ render old.now (when_items a.now k on) (state_of out.old made.old writer) }
{
    let c = put_byte(out, writer, 14);
    let d = put_var(old, a, Var::Clock, k, out, made, c);
    put_byte(out, d, on)
}

// The clock where none of the first `count` branches is taken, up to its argument; the outermost `when` is the last branch's.
pub fn put_under(
    old: &[u8],
    a: &[u8],
    count: usize,
    out: &mut [u8],
    made: &mut [u8],
    writer: Writer,
) -> Writer
    requires { count < 2 ^ 63 }
    ensures { state_of out.new made.new result ≡ render old.now (under_items a.now count) (state_of out.old made.old writer) }
{
    let mut v = writer;
    for k in (0..count).rev() {
        if v.full {
            break;
        }
        v = put_when(old, a, k, 0, out, made, v);
    }
    v
}

// The clock of the scope k of n branches, up to its argument.
pub fn put_onto(
    old: &[u8],
    a: &[u8],
    n: usize,
    k: usize,
    out: &mut [u8],
    made: &mut [u8],
    writer: Writer,
) -> Writer
    requires { n < 2 ^ 63 }
    ensures { state_of out.new made.new result ≡ render old.now (onto_items a.now n (scope_at n k)) (state_of out.old made.old writer) }
{
    if k < n {
        let c = put_when(old, a, k, 1, out, made, writer);
        return put_under(old, a, k, out, made, c);
    }
    put_under(old, a, n, out, made, writer)
}

// What stands before the condition of the branch k: that none before it is taken.
fn put_prior(
    old: &[u8],
    a: &[u8],
    k: usize,
    out: &mut [u8],
    made: &mut [u8],
    writer: Writer,
) -> Writer
    requires { k < 2 ^ 63 }
    ensures { state_of out.new made.new result ≡ render old.now (prior_items a.now k) (state_of out.old made.old writer) }
{
    if k == 0 {
        return writer;
    }
    let c = put_bytes(b"\x03\x00", out, writer);
    put_variable(old, a, Var::Untaken, k - 1, out, made, c)
}

// The flag of the branch k, whose condition stands at `at`.
fn put_flag(
    old: &[u8],
    pack: &[u8],
    info: PackInfo,
    offsets: &[u16],
    a: &[u8],
    k: usize,
    at: usize,
    out: &mut [u8],
    made: &mut [u8],
    writer: Writer,
) -> Writer
    requires { (length pack.now ≤ max_bytes) × (k < 2 ^ 63) }
    ensures { (ns : List Name) → length ns ≡ info.names → state_of out.new made.new result ≡ flag_t ns pack.now info.last old.now offsets.now a.now k at (state_of out.old made.old writer) }
{
    let c = put_left(old, a, Var::Flag, k, out, made, writer);
    let d = put_prior(old, a, k, out, made, c);
    rewrite_last(old, pack, info, offsets, a, at, out, made, d)
}

// That none is taken up to the branch k, where another of n branches follows.
fn put_none_flag(
    old: &[u8],
    pack: &[u8],
    info: PackInfo,
    offsets: &[u16],
    a: &[u8],
    n: usize,
    k: usize,
    at: usize,
    out: &mut [u8],
    made: &mut [u8],
    writer: Writer,
) -> Writer
    requires { (length pack.now ≤ max_bytes) × (k < 2 ^ 63) }
    ensures { (ns : List Name) → length ns ≡ info.names → state_of out.new made.new result ≡ none_flag_t ns pack.now info.last old.now offsets.now a.now n k at (state_of out.old made.old writer) }
{
    if n <= 1 {
        return writer;
    }
    let c = put_left(old, a, Var::Untaken, k, out, made, writer);
    let d = put_prior(old, a, k, out, made, c);
    let e = put_bytes(b"\x02\x00", out, d);
    rewrite_last(old, pack, info, offsets, a, at, out, made, e)
}

// Both, of the branch at p.
#[tactic(auto, unfolding(crate::specs::FlagsAt::branch_flags_t, machines::specs::CheckedReads::with))]
fn put_branch_flags(
    old: &[u8],
    pack: &[u8],
    info: PackInfo,
    offsets: &[u16],
    a: &[u8],
    n: usize,
    k: usize,
    p: usize,
    out: &mut [u8],
    made: &mut [u8],
    writer: Writer,
) -> Writer
    requires { (length pack.now ≤ max_bytes) × (k < 2 ^ 63) }
    ensures { (ns : List Name) → length ns ≡ info.names → state_of out.new made.new result ≡ branch_flags_t ns pack.now info.last old.now offsets.now a.now n k p (state_of out.old made.old writer) }
{
    let i = number(pack, p);
    let c = put_flag(old, pack, info, offsets, a, k, i.next, out, made, writer);
    put_none_flag(old, pack, info, offsets, a, n, k, i.next, out, made, c)
}

// The flags of all branches, whose count stands at `at`.
pub fn put_flags(
    old: &[u8],
    pack: &[u8],
    info: PackInfo,
    offsets: &[u16],
    a: &[u8],
    at: usize,
    out: &mut [u8],
    made: &mut [u8],
    writer: Writer,
) -> Writer
    requires { length pack.now ≤ max_bytes }
    ensures { (ns : List Name) → length ns ≡ info.names → state_of out.new made.new result ≡ flags_t ns pack.now info.last old.now offsets.now a.now at (state_of out.old made.old writer) }
{
    let c = number(pack, at);
    let mut v = writer;
    let mut p = c.next;
    for k in 0..c.value {
        if v.full {
            break;
        }
        v = put_branch_flags(old, pack, info, offsets, a, c.value - k, k, p, out, made, v);
        p = after_branch(pack, info.names, p);
    }
    v
}

// --- The guards of branches: they depend on the number of branches only.

// The guard of the branch k.
fn put_clock_guard(
    old: &[u8],
    a: &[u8],
    k: usize,
    out: &mut [u8],
    made: &mut [u8],
    writer: Writer,
) -> Writer
    requires { k < 2 ^ 63 }
    ensures { state_of out.new made.new result ≡ render old.now (equation_items (guard_of a.now k)) (state_of out.old made.old writer) }
{
    let c = put_left(old, a, Var::Clock, k, out, made, writer);
    let d = put_under(old, a, k, out, made, c);
    put_variable(old, a, Var::Flag, k, out, made, d)
}

// The guards of n branches; the first has none.
pub fn put_clock_guards(
    old: &[u8],
    a: &[u8],
    n: usize,
    out: &mut [u8],
    made: &mut [u8],
    writer: Writer,
) -> Writer
    requires { n < 2 ^ 63 }
    ensures { (cs : List Expr) → length cs ≡ n → state_of out.new made.new result ≡ render old.now (each equation_items (guard_equations a.now 1 (tail_of cs))) (state_of out.old made.old writer) }
{
    let mut v = writer;
    for k in 1..n {
        if v.full {
            break;
        }
        v = put_clock_guard(old, a, k, out, made, v);
    }
    v
}
