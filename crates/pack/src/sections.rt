// The sections after the names: enums, nodes, machines, activations, origins.
#![tactic(auto, unfolding(wire::specs::Answer::bind, wire::specs::Answer::map_a, wire::specs::Code::read_of, wire::specs::Code::skip, pack_rules::specs::Read::enum_in, pack_rules::specs::Read::node_in, pack_rules::specs::Read::machine_in, pack_rules::specs::Read::branch_in, pack_rules::specs::Read::activation_in, pack_rules::specs::Read::origin_in))]

ghost use Rattle.std.specs.Prelude.{◌≡◌, ◌≤◌, List, length};
ghost use Rattle.wire.specs.Code.{skip};
ghost use Rattle.pack_rules.specs.Names.{Name};
ghost use Rattle.wire.specs.Answer.{counted};
ghost use Rattle.pack_rules.specs.Read.{enum_in, node_in, machine_in, branch_in, activation_in, origin_in};
ghost use Rattle.pack_rules.specs.Limits.{max_bytes};

use crate::charts::skip_states;
use crate::exprs::skip_expr;
use crate::parts::{skip_equations, skip_index, skip_index_list, skip_optional, skip_ports};
use wire::answer::Skipped;
use wire::number::{read_below, read_u16, skip_list};

// A name and its variants.
fn skip_enum(pack: &[u8], names: usize, at: usize) -> Skipped
    ensures { (ns : List Name) → length ns ≡ names → result ≡ skip (enum_in ns pack.now at) }
{
    let a = skip_index(pack, names, at)?;
    skip_index_list(pack, names, a)
}

// The enums after their count.
pub fn skip_enums(pack: &[u8], names: usize, at: usize) -> Skipped
    ensures { (ns : List Name) → length ns ≡ names → result ≡ skip (counted (enum_in ns pack.now) pack.now at) }
{
    skip_list(pack, at, |p| skip_enum(pack, names, p))
}

// A name, a kind, an interface and equations.
fn skip_node(pack: &[u8], names: usize, at: usize) -> Skipped
    requires { length pack.now ≤ max_bytes }
    ensures { (ns : List Name) → length ns ≡ names → result ≡ skip (node_in ns pack.now at) }
{
    let a = skip_index(pack, names, at)?;
    let kind = read_below(pack, 3, a)?;
    let inputs = skip_ports(pack, names, kind.next)?;
    let outputs = skip_ports(pack, names, inputs)?;
    let locals = skip_ports(pack, names, outputs)?;
    skip_equations(pack, names, locals)
}

// The nodes after their count.
pub fn skip_nodes(pack: &[u8], names: usize, at: usize) -> Skipped
    requires { length pack.now ≤ max_bytes }
    ensures { (ns : List Name) → length ns ≡ names → result ≡ skip (counted (node_in ns pack.now) pack.now at) }
{
    skip_list(pack, at, |p| skip_node(pack, names, p))
}

// A name, an owner, an interface, an initial state and states.
fn skip_machine(pack: &[u8], names: usize, at: usize) -> Skipped
    requires { length pack.now ≤ max_bytes }
    ensures { (ns : List Name) → length ns ≡ names → result ≡ skip (machine_in ns pack.now at) }
{
    let a = skip_index(pack, names, at)?;
    let owner = skip_optional(pack, names, a)?;
    let inputs = skip_ports(pack, names, owner)?;
    let outputs = skip_ports(pack, names, inputs)?;
    let locals = skip_ports(pack, names, outputs)?;
    let initial = skip_index(pack, names, locals)?;
    skip_states(pack, names, initial)
}

// The machines after their count.
pub fn skip_machines(pack: &[u8], names: usize, at: usize) -> Skipped
    requires { length pack.now ≤ max_bytes }
    ensures { (ns : List Name) → length ns ≡ names → result ≡ skip (counted (machine_in ns pack.now) pack.now at) }
{
    skip_list(pack, at, |p| skip_machine(pack, names, p))
}

// A name, a condition and equations.
fn skip_branch(pack: &[u8], names: usize, at: usize) -> Skipped
    requires { length pack.now ≤ max_bytes }
    ensures { (ns : List Name) → length ns ≡ names → result ≡ skip (branch_in ns pack.now at) }
{
    let a = skip_index(pack, names, at)?;
    let condition = skip_expr(pack, names, a)?;
    skip_equations(pack, names, condition)
}

// Branches after their count.
fn skip_branches(pack: &[u8], names: usize, at: usize) -> Skipped
    requires { length pack.now ≤ max_bytes }
    ensures { (ns : List Name) → length ns ≡ names → result ≡ skip (counted (branch_in ns pack.now) pack.now at) }
{
    skip_list(pack, at, |p| skip_branch(pack, names, p))
}

// A name, an owner, outputs, branches and the equations of else.
fn skip_activation(pack: &[u8], names: usize, at: usize) -> Skipped
    requires { length pack.now ≤ max_bytes }
    ensures { (ns : List Name) → length ns ≡ names → result ≡ skip (activation_in ns pack.now at) }
{
    let a = skip_index(pack, names, at)?;
    let owner = skip_index(pack, names, a)?;
    let outputs = skip_ports(pack, names, owner)?;
    let branches = skip_branches(pack, names, outputs)?;
    skip_equations(pack, names, branches)
}

// The activations after their count.
pub fn skip_activations(pack: &[u8], names: usize, at: usize) -> Skipped
    requires { length pack.now ≤ max_bytes }
    ensures { (ns : List Name) → length ns ≡ names → result ≡ skip (counted (activation_in ns pack.now) pack.now at) }
{
    skip_list(pack, at, |p| skip_activation(pack, names, p))
}

// A node, a kind, a name, two equation numbers and branch names.
fn skip_origin(pack: &[u8], names: usize, at: usize) -> Skipped
    ensures { (ns : List Name) → length ns ≡ names → result ≡ skip (origin_in ns pack.now at) }
{
    let a = skip_index(pack, names, at)?;
    let kind = read_below(pack, 2, a)?;
    let name = skip_index(pack, names, kind.next)?;
    let first = read_u16(pack, name)?;
    let last = read_u16(pack, first.next)?;
    skip_index_list(pack, names, last.next)
}

// The origins after their count.
pub fn skip_origins(pack: &[u8], names: usize, at: usize) -> Skipped
    ensures { (ns : List Name) → length ns ≡ names → result ≡ skip (counted (origin_in ns pack.now) pack.now at) }
{
    skip_list(pack, at, |p| skip_origin(pack, names, p))
}
