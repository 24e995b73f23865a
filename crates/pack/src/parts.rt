// What definitions are made of: names, ports, equations, transitions. Types and expressions have modules of their own.
#![tactic(auto, unfolding(wire::specs::Answer::bind, wire::specs::Answer::map_a, wire::specs::Code::read_of, wire::specs::Code::skip, wire::specs::Answer::guard, pack_rules::specs::Read::name_in, pack_rules::specs::Read::optional_in, pack_rules::specs::Read::port_in, pack_rules::specs::Read::equation_in, pack_rules::specs::Read::transition_in))]

ghost use Rattle.std.specs.Prelude.{◌≡◌, ◌≤◌, ◌||◌, List, length, ◌==◌, nat_lt};
ghost use Rattle.wire.specs.Code.{read_of, skip};
ghost use Rattle.wire.specs.Answer.{guard, u16, counted};
ghost use Rattle.pack_rules.specs.Limits.{absent, max_bytes};
ghost use Rattle.pack_rules.specs.Names.{Name};
ghost use Rattle.pack_rules.specs.Read.{name_in, optional_in, names_in, port_in, ports_in, equation_in, equations_in, transition_in};

use crate::exprs::skip_expr;
use crate::record::Pack;
use crate::types::skip_type;
use wire::answer::{Read, Skipped, Stop};
use wire::number::{read_index, read_u16, skip_list};

// An index of the name section.
pub fn skip_index(pack: &[u8], names: usize, at: usize) -> Skipped
    ensures { (ns : List Name) → length ns ≡ names → result ≡ skip (name_in ns pack.now at) }
{
    Ok(read_index(pack, names, at)?.next)
}

// A name, or `Pack::ABSENT` for none.
fn read_optional(pack: &[u8], names: usize, at: usize) -> Read
    ensures { result ≡ read_of (guard (λ i. nat_lt i names || i == absent) at (u16 pack.now at)) }
{
    let name = read_u16(pack, at)?;
    if name.value < names || name.value == Pack::ABSENT {
        Ok(name)
    } else {
        Err(Stop::Illegal(at))
    }
}

// The same, passed over.
pub fn skip_optional(pack: &[u8], names: usize, at: usize) -> Skipped
    ensures { (ns : List Name) → length ns ≡ names → result ≡ skip (optional_in ns pack.now at) }
{
    Ok(read_optional(pack, names, at)?.next)
}

// Names after their count.
pub fn skip_index_list(pack: &[u8], names: usize, at: usize) -> Skipped
    ensures { (ns : List Name) → length ns ≡ names → result ≡ skip (names_in ns pack.now at) }
{
    skip_list(pack, at, |p| skip_index(pack, names, p))
}

// A name and its type.
pub fn skip_port(pack: &[u8], names: usize, at: usize) -> Skipped
    requires { length pack.now ≤ max_bytes }
    ensures { (ns : List Name) → length ns ≡ names → result ≡ skip (port_in ns pack.now at) }
{
    let a = skip_index(pack, names, at)?;
    skip_type(pack, names, a)
}

// Ports after their count.
pub fn skip_ports(pack: &[u8], names: usize, at: usize) -> Skipped
    requires { length pack.now ≤ max_bytes }
    ensures { (ns : List Name) → length ns ≡ names → result ≡ skip (ports_in ns pack.now at) }
{
    skip_list(pack, at, |p| skip_port(pack, names, p))
}

// Left names and an expression.
pub fn skip_equation(pack: &[u8], names: usize, at: usize) -> Skipped
    requires { length pack.now ≤ max_bytes }
    ensures { (ns : List Name) → length ns ≡ names → result ≡ skip (equation_in ns pack.now at) }
{
    let a = skip_index_list(pack, names, at)?;
    skip_expr(pack, names, a)
}

// Equations after their count.
pub fn skip_equations(pack: &[u8], names: usize, at: usize) -> Skipped
    requires { length pack.now ≤ max_bytes }
    ensures { (ns : List Name) → length ns ≡ names → result ≡ skip (equations_in ns pack.now at) }
{
    skip_list(pack, at, |p| skip_equation(pack, names, p))
}

// A guard and its target.
pub fn skip_transition(pack: &[u8], names: usize, at: usize) -> Skipped
    requires { length pack.now ≤ max_bytes }
    ensures { (ns : List Name) → length ns ≡ names → result ≡ skip (transition_in ns pack.now at) }
{
    let a = skip_expr(pack, names, at)?;
    skip_index(pack, names, a)
}

// Transitions after their count.
pub fn skip_transitions(pack: &[u8], names: usize, at: usize) -> Skipped
    requires { length pack.now ≤ max_bytes }
    ensures { (ns : List Name) → length ns ≡ names → result ≡ skip (counted (transition_in ns pack.now) pack.now at) }
{
    skip_list(pack, at, |p| skip_transition(pack, names, p))
}
