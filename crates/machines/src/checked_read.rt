// Readers on a checked pack. Nothing stops there, so each answers numbers only: 0 where reading would stop.
ghost use Rattle.std.specs.Prelude.{List, ◌≡◌, ◌&&◌, ◌≤◌, length};
ghost use Rattle.wire.specs.Answer.{counted};
ghost use Rattle.pack_rules.specs.Names.{Name};
ghost use Rattle.pack_rules.specs.Read.{equation_in, equations_in, expr_in, port_in, transition_in};
ghost use Rattle.pack_rules.specs.Limits.{max_bytes};
ghost use Rattle.machines.specs.ResolvedIn.{end_of, over_in};
ghost use Rattle.machines.specs.CheckedReads.{sure_of, first_some, number_in, region_in, machine_from};

use pack::charts::skip_state;
use pack::check::reached;
use pack::exprs::skip_expr;
use pack::parts::{skip_equation, skip_equations, skip_port, skip_transitions};
use pack::record::Pack;
use wire::answer::{Number, Read};
use wire::number::{read_byte, read_u16};

// The bytes of a checked pack, which are no more than the check allows, and how many names it has.
#[derive(Clone, Copy)]
pub struct CheckedPack<'a> {
    pub bytes: &'a [u8],
    pub names: usize,
    pub ghost short: { length bytes.now ≤ max_bytes },
}

// What was read, 0 and 0 where reading stopped.
#[tactic(auto, unfolding(crate::specs::CheckedReads::sure_of))]
pub fn read_or_zero(r: Read) -> Number
    ensures { result ≡ sure_of r }
{
    r.unwrap_or(Number { value: 0, next: 0 })
}

// Whether both hold.
pub fn both(a: bool, b: bool) -> bool
    ensures { result ≡ (a && b) }
{
    if a { b } else { false }
}

// The first number, or the second where that is 0.
pub fn first_some(a: usize, b: usize) -> usize
    ensures { result ≡ first_some a b }
{
    if a == 0 { b } else { a }
}

// A count, or a name's index.
pub fn number(pack: &[u8], at: usize) -> Number
    ensures { result ≡ number_in pack.now at }
{
    read_or_zero(read_u16(pack, at))
}

// How many states a region has, after its initial state and its history flag.
pub fn region(pack: &[u8], at: usize) -> Number
    ensures { result ≡ region_in pack.now at }
{
    let i = number(pack, at);
    let h = read_or_zero(read_byte(pack, i.next));
    number(pack, h.next)
}

// How many states a machine has, after its initial state.
pub fn machine(pack: &[u8], at: usize) -> Number
    ensures { result ≡ machine_from pack.now at }
{
    let i = number(pack, at);
    number(pack, i.next)
}

// Past an expression.
pub fn after_expr(pack: &[u8], names: usize, at: usize) -> usize
    requires { length pack.now ≤ max_bytes }
    ensures { (ns : List Name) → length ns ≡ names → result ≡ end_of (expr_in ns pack.now at) }
{
    reached(skip_expr(pack, names, at))
}

// Past a port.
pub fn after_port(pack: &[u8], names: usize, at: usize) -> usize
    requires { length pack.now ≤ max_bytes }
    ensures { (ns : List Name) → length ns ≡ names → result ≡ end_of (port_in ns pack.now at) }
{
    reached(skip_port(pack, names, at))
}

// Past an equation.
pub fn after_equation(pack: &[u8], names: usize, at: usize) -> usize
    requires { length pack.now ≤ max_bytes }
    ensures { (ns : List Name) → length ns ≡ names → result ≡ end_of (equation_in ns pack.now at) }
{
    reached(skip_equation(pack, names, at))
}

// Past equations, which stand after their count.
pub fn after_equations(pack: &[u8], names: usize, at: usize) -> usize
    requires { length pack.now ≤ max_bytes }
    ensures { (ns : List Name) → length ns ≡ names → result ≡ end_of (equations_in ns pack.now at) }
{
    reached(skip_equations(pack, names, at))
}

// Past transitions, which stand after their count.
pub fn after_transitions(pack: &[u8], names: usize, at: usize) -> usize
    requires { length pack.now ≤ max_bytes }
    ensures { (ns : List Name) → length ns ≡ names → result ≡ end_of (counted (transition_in ns pack.now) pack.now at) }
{
    reached(skip_transitions(pack, names, at))
}

// A state with all that is drawn inside.
pub fn after_state(pack: &[u8], names: usize, at: usize) -> usize
    requires { length pack.now ≤ max_bytes }
    ensures { (ns : List Name) → length ns ≡ names → result ≡ over_in ns pack.now at }
{
    reached(skip_state(pack, names, Pack::LEVELS - 1, at))
}
