// Where the parts of activations stand.
ghost use Rattle.std.specs.Prelude.{List, ◌≡◌, ◌≤◌, length};
ghost use Rattle.pack_rules.specs.Names.{Name};
ghost use Rattle.pack_rules.specs.Read.{type_in};
ghost use Rattle.pack_rules.specs.Limits.{max_bytes};
ghost use Rattle.machines.specs.ResolvedIn.{end_of};
ghost use Rattle.machines.specs.CheckedReads.{number_in};
ghost use Rattle.activations.specs.Places.{first_left_in, right_side_in, body_in, branch_end, branches_end, act_at, act_end};

use machines::added::after_ports;
use machines::checked_read::{after_equations, after_expr, number};
use pack::check::reached;
use pack::parts::skip_index_list;
use pack::types::skip_type;
use wire::answer::Number;

// An activation: its name's index; where its outputs, its branches and its else scope stand; how many branches it has.
#[derive(Clone, Copy)]
pub struct Act {
    pub name: usize,
    pub outputs: usize,
    pub branches: usize,
    pub other: usize,
    pub n: usize,
}

// Past a type.
pub fn after_type(pack: &[u8], names: usize, at: usize) -> usize
    requires { length pack.now ≤ max_bytes }
    ensures { (ns : List Name) → length ns ≡ names → result ≡ end_of (type_in ns pack.now at) }
{
    reached(skip_type(pack, names, at))
}

// From an equation to its right side.
pub fn right_side(pack: &[u8], names: usize, at: usize) -> usize
    ensures { (ns : List Name) → length ns ≡ names → result ≡ right_side_in ns pack.now at }
{
    reached(skip_index_list(pack, names, at))
}

// The first left name of an equation.
#[tactic(auto, unfolding(crate::specs::Places::first_left_in, machines::specs::CheckedReads::with))]
pub fn first_left(pack: &[u8], at: usize) -> usize
    ensures { result ≡ first_left_in pack.now at }
{
    let c = number(pack, at);
    let x = number(pack, c.next);
    x.value
}

// From a branch to its equations.
#[tactic(auto, unfolding(crate::specs::Places::body_in, machines::specs::CheckedReads::with))]
pub fn branch_equations(pack: &[u8], names: usize, at: usize) -> usize
    requires { length pack.now ≤ max_bytes }
    ensures { (ns : List Name) → length ns ≡ names → result ≡ body_in ns pack.now at }
{
    let i = number(pack, at);
    after_expr(pack, names, i.next)
}

// Past a branch.
#[tactic(auto, unfolding(crate::specs::Places::branch_end))]
pub fn after_branch(pack: &[u8], names: usize, at: usize) -> usize
    requires { length pack.now ≤ max_bytes }
    ensures { (ns : List Name) → length ns ≡ names → result ≡ branch_end ns pack.now at }
{
    let e = branch_equations(pack, names, at);
    after_equations(pack, names, e)
}

// From the count of branches past all of them.
pub fn after_branches(pack: &[u8], names: usize, at: usize) -> usize
    requires { length pack.now ≤ max_bytes }
    ensures { (ns : List Name) → length ns ≡ names → result ≡ branches_end ns pack.now at }
{
    let c = number(pack, at);
    let mut p = c.next;
    for _ in 0..c.value {
        p = after_branch(pack, names, p);
    }
    p
}

// The activation at an offset.
#[tactic(auto, unfolding(crate::specs::Places::act_at, crate::specs::Places::act_of, machines::specs::CheckedReads::with))]
pub fn act_at(pack: &[u8], names: usize, at: usize) -> Act
    requires { length pack.now ≤ max_bytes }
    ensures { (ns : List Name) → length ns ≡ names → result ≡ act_at ns pack.now at }
{
    let a = number(pack, at);
    let o = number(pack, a.next);
    let b = after_ports(pack, names, o.next);
    let n = number(pack, b);
    let other = after_branches(pack, names, b);
    Act {
        name: a.value,
        outputs: o.next,
        branches: b,
        other,
        n: n.value,
    }
}

// From an activation past it.
#[tactic(auto, unfolding(crate::specs::Places::act_end))]
pub fn after_act(pack: &[u8], names: usize, at: usize) -> usize
    requires { length pack.now ≤ max_bytes }
    ensures { (ns : List Name) → length ns ≡ names → result ≡ act_end ns pack.now at }
{
    let a = act_at(pack, names, at);
    after_equations(pack, names, a.other)
}

// How many branches there are, and where the first stands.
pub fn first_branch(pack: &[u8], a: Act) -> Number
    ensures { result ≡ number_in pack.now a.branches }
{
    number(pack, a.branches)
}
