// What is refused of an activation before `last` is sought, in this order: NoBranches, NoOutputs, DuplicateBranch, OutputUnassigned,
// LastArgs. EmptyLeft is asked for later, once holders have their types.
// Scopes are gone through once, whatever the number of outputs: a table says by name how many scopes from the first on assign it, which
// is the first scope that does not.
ghost use Rattle.std.specs.Prelude.{◌≡◌, List, ◌<◌, ◌^◌, ◌≤◌, length};
ghost use Rattle.activations.specs.ChecksAt.{assign_branches_t, assign_scope_t, assign_t, assigned_t, checks_t, has_empty_left_t, in_scopes_t, refused_t, repeated_in, scope_has_empty_left_t, scope_name_t};
ghost use Rattle.pack_rules.specs.Names.{Name};
ghost use Rattle.pack_rules.specs.Limits.{max_bytes};
ghost use Rattle.activations.specs.BadLastsAt.{any_bad_last_t, any_branch_t, body_has_bad_last_t, condition_has_bad_last_t, has_bad_last_t, scope_has_bad_last_t};
ghost use Rattle.activations.specs.Refusing.{RoomFor, branch_number, checked_as, numbers_of};

use crate::cells::clear;
use crate::expr_node::{is_bad, onward, open, read_expr_node};
use crate::pack_info::PackInfo;
use crate::parts::{Act, after_branch, branch_equations, first_branch, right_side};
use machines::checked_read::{after_equation, after_expr, after_port, number};
use pack::cells::{cell, put_cell};

// --- What is refused of an activation.

// Why an activation is refused, with what the report names after it, by the indexes of names.
#[derive(Clone, Copy)]
pub enum Refusal {
    NoBranches,
    NoOutputs,
    // An output that this branch does not assign; where none is named, the else scope.
    OutputUnassigned {
        output: usize,
        branch: Option<usize>,
    },
    DuplicateBranch(usize),
    UnknownOwner(usize),
    LastArgs,
    LastUnknown(usize),
    LastNeedsInit(usize),
    EmptyLeft,
}

// The same as a row of the table of activations has it: the kind by the report's number, 0 where nothing is refused, and two names, of
// which the number of names is none and one more is `else`.
#[derive(Clone, Copy)]
pub struct Refused {
    pub kind: usize,
    pub second: usize,
    pub third: usize,
}

pub fn refusing(kind: usize, second: usize, third: usize) -> Refused
    ensures { result ≡ refused_t kind second third }
{
    Refused {
        kind,
        second,
        third,
    }
}

impl Refusal {
    #[tactic(auto, unfolding(crate::specs::Refusing::RoomFor, crate::specs::Refusing::numbers_of, crate::specs::Refusing::branch_number))]
    pub fn numbers(self, names: usize) -> Refused
        requires { RoomFor names self }
        ensures { result ≡ numbers_of names self }
    {
        match self {
            Refusal::NoBranches => refusing(9, names, names),
            Refusal::NoOutputs => refusing(10, names, names),
            Refusal::OutputUnassigned {
                output,
                branch: Some(x),
            } => refusing(11, output, x),
            Refusal::OutputUnassigned {
                output,
                branch: None,
            } => refusing(11, output, names + 1),
            Refusal::DuplicateBranch(x) => refusing(12, x, names),
            Refusal::UnknownOwner(x) => refusing(13, x, names),
            Refusal::LastArgs => refusing(14, names, names),
            Refusal::LastUnknown(x) => refusing(15, x, names),
            Refusal::LastNeedsInit(x) => refusing(16, x, names),
            Refusal::EmptyLeft => refusing(18, names, names),
        }
    }
}

// --- Calls of `last` with arguments that it does not take.

// Whether some call of `last` in an expression has other arguments.
fn has_bad_last(pack: &[u8], info: PackInfo, at: usize) -> bool
    requires { length pack.now ≤ max_bytes }
    ensures { (ns : List Name) → length ns ≡ info.names → result ≡ has_bad_last_t ns pack.now info.last at }
{
    let mut n: usize = 1;
    let mut p = at;
    while 0 < n {
        let m = read_expr_node(pack, info, p);
        if is_bad(m) {
            return true;
        }
        n = open(m, n);
        p = onward(m);
    }
    false
}

// In the conditions of branches.
fn bad_last_in_conditions(pack: &[u8], info: PackInfo, a: Act) -> bool
    requires { length pack.now ≤ max_bytes }
    ensures { (ns : List Name) → length ns ≡ info.names → result ≡ any_branch_t ns pack.now (condition_has_bad_last_t ns pack.now info.last) a.branches }
{
    let c = first_branch(pack, a);
    let mut p = c.next;
    for _ in 0..c.value {
        let i = number(pack, p);
        if has_bad_last(pack, info, i.next) {
            return true;
        }
        p = after_branch(pack, info.names, p);
    }
    false
}

// In a scope whose count of equations stands at `at`.
fn bad_last_in_scope(pack: &[u8], info: PackInfo, at: usize) -> bool
    requires { length pack.now ≤ max_bytes }
    ensures { (ns : List Name) → length ns ≡ info.names → result ≡ scope_has_bad_last_t ns pack.now info.last at }
{
    let c = number(pack, at);
    let mut p = c.next;
    for _ in 0..c.value {
        let e = right_side(pack, info.names, p);
        if has_bad_last(pack, info, e) {
            return true;
        }
        p = after_expr(pack, info.names, e);
    }
    false
}

// In the scopes of branches.
fn bad_last_in_bodies(pack: &[u8], info: PackInfo, a: Act) -> bool
    requires { length pack.now ≤ max_bytes }
    ensures { (ns : List Name) → length ns ≡ info.names → result ≡ any_branch_t ns pack.now (body_has_bad_last_t ns pack.now info.last) a.branches }
{
    let c = first_branch(pack, a);
    let mut p = c.next;
    for _ in 0..c.value {
        let e = branch_equations(pack, info.names, p);
        if bad_last_in_scope(pack, info, e) {
            return true;
        }
        p = after_branch(pack, info.names, p);
    }
    false
}

// In all expressions of an activation.
#[tactic(auto, unfolding(crate::specs::BadLastsAt::any_bad_last_t))]
pub fn any_bad_last(pack: &[u8], info: PackInfo, a: Act) -> bool
    requires { length pack.now ≤ max_bytes }
    ensures { (ns : List Name) → length ns ≡ info.names → result ≡ any_bad_last_t ns pack.now info.last a }
{
    bad_last_in_conditions(pack, info, a)
        || bad_last_in_bodies(pack, info, a)
        || bad_last_in_scope(pack, info, a.other)
}

// The name of a branch that one before it has, the number of names where there is none.
fn repeated(pack: &[u8], names: usize, sampled: &mut [u16], at: usize) -> usize
    requires { length pack.now ≤ max_bytes }
    ensures { (ns : List Name) → length ns ≡ names → result ≡ repeated_in ns pack.now at sampled.old }
{
    clear(sampled, names);
    let c = number(pack, at);
    let mut p = c.next;
    for _ in 0..c.value {
        let i = number(pack, p);
        let m = cell(sampled, i.value);
        if m != 0 {
            return i.value;
        }
        put_cell(sampled, i.value, 1);
        p = after_branch(pack, names, p);
    }
    names
}

// The equation at p of the scope k: a single left name that all scopes before assign is assigned in one more.
#[tactic(auto, unfolding(crate::specs::ChecksAt::assign_t, crate::specs::Cells::put_t, machines::specs::CheckedReads::with))]
fn assign(pack: &[u8], sampled: &mut [u16], k: usize, p: usize)
    requires { k < 2 ^ 63 }
    ensures { sampled.new ≡ assign_t pack.now k p sampled.old }
{
    let l = number(pack, p);
    let x = number(pack, l.next);
    let m = cell(sampled, x.value);
    if l.value == 1 && m == k {
        put_cell(sampled, x.value, k + 1);
    }
}

// The scope k, whose count of equations stands at `at`.
fn assign_scope(pack: &[u8], names: usize, sampled: &mut [u16], k: usize, at: usize)
    requires { (length pack.now ≤ max_bytes) × (k < 2 ^ 63) }
    ensures { (ns : List Name) → length ns ≡ names → sampled.new ≡ assign_scope_t ns pack.now k at sampled.old }
{
    let c = number(pack, at);
    let mut p = c.next;
    for _ in 0..c.value {
        assign(pack, sampled, k, p);
        p = after_equation(pack, names, p);
    }
}

// The scopes of the branches, whose count stands at `at`.
fn assign_branches(pack: &[u8], names: usize, sampled: &mut [u16], at: usize)
    requires { length pack.now ≤ max_bytes }
    ensures { (ns : List Name) → length ns ≡ names → sampled.new ≡ assign_branches_t ns pack.now at sampled.old }
{
    let c = number(pack, at);
    let mut p = c.next;
    for k in 0..c.value {
        let e = branch_equations(pack, names, p);
        assign_scope(pack, names, sampled, k, e);
        p = after_branch(pack, names, p);
    }
}

// For each name the first scope that does not assign it; branches count from 0, and the else scope follows them.
#[tactic(auto, unfolding(crate::specs::ChecksAt::assigned_t))]
fn assign_all(pack: &[u8], names: usize, sampled: &mut [u16], a: Act)
    requires { (length pack.now ≤ max_bytes) × (a.n < 2 ^ 63) }
    ensures { (ns : List Name) → length ns ≡ names → sampled.new ≡ assigned_t ns pack.now a sampled.old }
{
    clear(sampled, names);
    assign_branches(pack, names, sampled, a.branches);
    assign_scope(pack, names, sampled, a.n, a.other);
}

// The name of the scope k, where it is a branch's.
fn scope_name(pack: &[u8], names: usize, a: Act, k: usize) -> Option<usize>
    requires { (length pack.now ≤ max_bytes) × (names < 2 ^ 63) }
    ensures { (ns : List Name) → length ns ≡ names → branch_number names result ≡ scope_name_t ns pack.now a k }
{
    if a.n <= k {
        return None;
    }
    let c = number(pack, a.branches);
    let mut p = c.next;
    for _ in 0..k {
        p = after_branch(pack, names, p);
    }
    let i = number(pack, p);
    Some(i.value)
}

// The first output that some scope does not assign, with the first such scope.
fn in_scopes(pack: &[u8], names: usize, sampled: &mut [u16], a: Act) -> Result<(), Refusal>
    requires { (length pack.now ≤ max_bytes) × (a.n < 2 ^ 63) × (names < 2 ^ 63) }
    ensures { (ns : List Name) → length ns ≡ names → checked_as names result ≡ in_scopes_t ns pack.now a sampled.old }
{
    assign_all(pack, names, sampled, a);
    let c = number(pack, a.outputs);
    let mut p = c.next;
    for _ in 0..c.value {
        let o = number(pack, p);
        let k = cell(sampled, o.value);
        if k <= a.n {
            return Err(Refusal::OutputUnassigned {
                output: o.value,
                branch: scope_name(pack, names, a, k),
            });
        }
        p = after_port(pack, names, p);
    }
    Ok(())
}

// Whether a scope has an equation without left names.
fn scope_has_empty_left(pack: &[u8], names: usize, at: usize) -> bool
    requires { length pack.now ≤ max_bytes }
    ensures { (ns : List Name) → length ns ≡ names → result ≡ scope_has_empty_left_t ns pack.now at }
{
    let c = number(pack, at);
    let mut p = c.next;
    for _ in 0..c.value {
        let l = number(pack, p);
        if l.value == 0 {
            return true;
        }
        p = after_equation(pack, names, p);
    }
    false
}

// Whether a scope of an activation has one.
pub fn has_empty_left(pack: &[u8], names: usize, a: Act) -> bool
    requires { length pack.now ≤ max_bytes }
    ensures { (ns : List Name) → length ns ≡ names → result ≡ has_empty_left_t ns pack.now a }
{
    let c = number(pack, a.branches);
    let mut p = c.next;
    for _ in 0..c.value {
        let e = branch_equations(pack, names, p);
        if scope_has_empty_left(pack, names, e) {
            return true;
        }
        p = after_branch(pack, names, p);
    }
    scope_has_empty_left(pack, names, a.other)
}

// Those of an activation in order, up to `last` being sought. Two tables, since what one check leaves is nothing to the next.
pub fn checks(
    pack: &[u8],
    info: PackInfo,
    marks: &mut [u16],
    sampled: &mut [u16],
    a: Act,
) -> Result<(), Refusal>
    requires { (length pack.now ≤ max_bytes) × (a.n < 2 ^ 63) × (info.names < 2 ^ 63) }
    ensures { (ns : List Name) → length ns ≡ info.names → checked_as info.names result ≡ checks_t ns pack.now info.last a marks.old sampled.old }
{
    if a.n == 0 {
        return Err(Refusal::NoBranches);
    }
    let c = number(pack, a.outputs);
    if c.value == 0 {
        return Err(Refusal::NoOutputs);
    }
    let x = repeated(pack, info.names, marks, a.branches);
    if x < info.names {
        return Err(Refusal::DuplicateBranch(x));
    }
    in_scopes(pack, info.names, sampled, a)?;
    if any_bad_last(pack, info, a) {
        return Err(Refusal::LastArgs);
    }
    Ok(())
}
