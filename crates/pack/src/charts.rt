// Charts: reading goes from a state to its regions and back to states, with one level less at each region.
#![tactic(auto, unfolding(wire::specs::Answer::bind, wire::specs::Answer::map_a, wire::specs::Code::read_of, wire::specs::Code::skip, pack_rules::specs::Read::state_with, pack_rules::specs::Read::region_at))]

ghost use Rattle.std.specs.Prelude.{◌≡◌, ◌≤◌, List, length};
ghost use Rattle.wire.specs.Code.{skip};
ghost use Rattle.pack_rules.specs.Names.{Name};
ghost use Rattle.wire.specs.Answer.{counted};
ghost use Rattle.pack_rules.specs.Read.{state_with, region_at, state_at};
ghost use Rattle.pack_rules.specs.Limits.{max_bytes};

use crate::parts::{skip_equations, skip_index, skip_optional, skip_transitions};
use crate::record::Pack;
use wire::answer::{Skipped, Stop};
use wire::number::{read_below, read_u16, skip_list};

// A state, whose regions may open while a level is left.
#[cycle(skip_region_skip_state)]
pub fn skip_state(pack: &[u8], names: usize, levels: usize, at: usize) -> Skipped
    requires { length pack.now ≤ max_bytes }
    ensures { (ns : List Name) → length ns ≡ names → result ≡ skip (state_with (region_at levels ns pack.now) ns pack.now at) }
{
    let a = skip_index(pack, names, at)?;
    let b = skip_equations(pack, names, a)?;
    let regions = read_u16(pack, skip_transitions(pack, names, b)?)?;
    let mut p = regions.next;
    for _ in 0..regions.value {
        p = skip_region(pack, names, levels, p)?;
    }
    skip_optional(pack, names, p)
}

// A region, whose states are one level further down.
#[cycle(skip_region_skip_state)]
pub fn skip_region(pack: &[u8], names: usize, levels: usize, at: usize) -> Skipped
    requires { length pack.now ≤ max_bytes }
    ensures { (ns : List Name) → length ns ≡ names → result ≡ skip (region_at levels ns pack.now at) }
{
    if levels == 0 {
        return Err(Stop::Deep(at));
    }
    let a = skip_index(pack, names, at)?;
    let history = read_below(pack, 2, a)?;
    let states = read_u16(pack, history.next)?;
    let mut p = states.next;
    for _ in 0..states.value {
        p = skip_state(pack, names, levels - 1, p)?;
    }
    Ok(p)
}

// A machine's states after their count: top states are level 1.
pub fn skip_states(pack: &[u8], names: usize, at: usize) -> Skipped
    requires { length pack.now ≤ max_bytes }
    ensures { (ns : List Name) → length ns ≡ names → result ≡ skip (counted (state_at ns pack.now) pack.now at) }
{
    skip_list(pack, at, |p| skip_state(pack, names, Pack::LEVELS - 1, p))
}
