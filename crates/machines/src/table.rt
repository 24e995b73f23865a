// Tables by name index, made once: where a name stands, and where the machine of that name is.
ghost use Rattle.std.specs.Prelude.{List, ◌≡◌, length, get_or, set, Ok};
ghost use Rattle.wire.specs.Code.{onward};
ghost use Rattle.pack_rules.specs.Read.{optional_in, ports_in};
ghost use Rattle.pack_rules.specs.Names.{Name};
ghost use Rattle.machines.specs.Tables.{initial_in, outputs_in, states_end, machines_placed, names_placed, next_name, len_of};

use crate::checked_read::{CheckedPack, number};
use crate::drawing::Drawing;
use pack::cells::{byte_at, cell, put_cell};
use pack::check::reached;
use pack::parts::{skip_optional, skip_ports};
use wire::answer::Skipped;

// The entry i, 0 past the end.
pub fn entry(layout: &[usize], i: usize) -> usize
    ensures { result ≡ get_or layout.now i 0 }
{
    layout.get(i).copied().unwrap_or(0)
}

// Sets the entry i to v; past the end nothing is written.
pub fn put(layout: &mut [usize], i: usize, v: usize)
    ensures { layout.new ≡ set layout.old i v }
{
    if i < layout.len() {
        layout[i] = v;
    }
}

// Where the name after the one at `at` stands.
fn next_name(pack: &[u8], at: usize) -> usize
    ensures { result ≡ next_name pack.now at }
{
    if at < pack.len() {
        at + 1 + pack[at] as usize
    } else {
        at
    }
}

// Where each name's length byte stands.
pub fn place_names(pack: &[u8], names: usize, offsets: &mut [u16])
    ensures { offsets.new ≡ names_placed pack.now names 2 0 offsets.old }
{
    let mut p = 2;
    for k in 0..names {
        put_cell(offsets, k, p);
        p = next_name(pack, p);
    }
}

// How long a name is.
pub fn name_len(pack: &[u8], offsets: &[u16], i: usize) -> usize
    ensures { result ≡ len_of pack.now offsets.now i }
{
    let at = cell(offsets, i);
    byte_at(pack, at)
}

// A machine's owner and its inputs.
#[tactic(auto, unfolding(wire::specs::Code::onward, wire::specs::Code::next, wire::specs::Code::skips))]
fn skip_inputs(pack: &CheckedPack, at: usize) -> Skipped
    ensures { (ns : List Name) → length ns ≡ pack.now.names → result ≡ onward (ports_in ns pack.now.bytes.now) (onward (optional_in ns pack.now.bytes.now) (Ok at)) }
{
    let owner = skip_optional(pack.bytes, pack.names, at)?;
    skip_ports(pack.bytes, pack.names, owner)
}

// A machine's owner and all its ports.
#[tactic(auto, unfolding(wire::specs::Code::onward, wire::specs::Code::next, wire::specs::Code::skips))]
fn skip_interface(pack: &CheckedPack, at: usize) -> Skipped
    ensures { (ns : List Name) → length ns ≡ pack.now.names → result ≡ onward (ports_in ns pack.now.bytes.now) (onward (ports_in ns pack.now.bytes.now) (onward (ports_in ns pack.now.bytes.now) (onward (optional_in ns pack.now.bytes.now) (Ok at)))) }
{
    let inputs = skip_inputs(pack, at)?;
    let outputs = skip_ports(pack.bytes, pack.names, inputs)?;
    skip_ports(pack.bytes, pack.names, outputs)
}

// From a machine's owner, past its inputs: where its outputs are.
pub fn to_outputs(pack: &CheckedPack, at: usize) -> usize
    ensures { (ns : List Name) → length ns ≡ pack.now.names → result ≡ outputs_in ns pack.now.bytes.now at }
{
    reached(skip_inputs(pack, at))
}

// From a machine's owner, past its ports: where its initial state is.
pub fn to_initial(pack: &CheckedPack, at: usize) -> usize
    ensures { (ns : List Name) → length ns ≡ pack.now.names → result ≡ initial_in ns pack.now.bytes.now at }
{
    reached(skip_interface(pack, at))
}

// From a machine's initial state, past its states.
pub fn after_states(drawing: &Drawing, at: usize) -> usize
    ensures { (ns : List Name) → length ns ≡ drawing.now.pack.names → result ≡ states_end ns drawing.now.pack.bytes.now at }
{
    let i = number(drawing.pack.bytes, at);
    drawing.past_states(i.next)
}

// Where the initial state of the last machine of each name is. In a table of zeros, 0 stays where there is none.
pub fn place_machines(drawing: &Drawing, at: usize, machines: &mut [u16])
    ensures { (ns : List Name) → length ns ≡ drawing.now.pack.names → machines.new ≡ machines_placed ns drawing.now.pack.bytes.now at machines.old }
{
    let c = number(drawing.pack.bytes, at);
    let mut p = c.next;
    for _ in 0..c.value {
        let i = number(drawing.pack.bytes, p);
        let w = to_initial(&drawing.pack, i.next);
        put_cell(machines, i.value, w);
        p = after_states(drawing, w);
    }
}
