// All machines of a pack judged, one after the other, by the first refusal that there is:
//   resolving          RefineCycle, UnknownRefine, TooLarge; a machine that resolves is laid out
//   states             NoStates, then DuplicateState (`duplicates`)
//   regions            UnknownInitialState, UnknownTarget (`validate`)
//   outputs            OutputUnassigned (`cover`)
// Of all machines two tables are kept: `defs`, where each is drawn, and `regcounts`, how many regions it has, 0 where it is refused. A
// refusal (`Refusal`) is not kept: the report judges the machine again.
ghost use Rattle.std.specs.Prelude.{List, ◌≡◌, ◌<◌, ℕ, length};
ghost use Rattle.pack_rules.specs.Names.{Name};
ghost use Rattle.pack_rules.specs.Limits.{max_level};
ghost use Rattle.machines.specs.CoverAt.{uncovered_t};
ghost use Rattle.machines.specs.AssignsMemo.{AssignmentSound, AssignsSound};
ghost use Rattle.machines.specs.VerdictAt.{again_called, board_at, called_at, checked_j, judge_at, laid_j, named as named_of, no_name, outputs_j, refused_by, row_of, state_called};
ghost use Rattle.machines.specs.EmitMachineAt.{Long};
ghost use Rattle.machines.specs.OwnersAt.{HasRegions, fill_t, machine_end, nth};

use crate::checked_read::{after_port, number};
use crate::cover::{ASSIGNS_MEMO, require_cover_region};
use crate::drawing::{Drawing, NameTables};
use crate::duplicates::duplicate_name;
use crate::layout::{layout_machine, layout_word};
use crate::resolve::{Resolved, resolve_machine};
use crate::table::{after_states, entry, put, to_initial, to_outputs};
use crate::validate::{Checked, validate_region};
use pack::cells::{byte_at, set_byte};
use pack::record::Pack;

// --- What is judged of a machine: how many regions it has, or why it is refused.

// A name in a refusal: `letters` letters of the layout from `letter` on; or the pack's name, in a region whose names
// have these letters and `_` in front. The name is `Pack::ABSENT` where there is none.
#[derive(Clone, Copy)]
pub struct NameRef {
    pub letter: usize,
    pub letters: usize,
    pub name: usize,
}

// What the report's entry says of a refusal: its kind, and the names after the machine's own. A name of no letters is none.
#[derive(Clone, Copy)]
pub struct VerdictRow {
    pub kind: usize,
    pub second: NameRef,
    pub third: NameRef,
}

// Why a machine is refused. Names of the pack are known by their indexes.
#[derive(Clone, Copy)]
pub enum Refusal {
    NoStates,
    UnknownInitialState(NameRef),
    UnknownTarget { state: NameRef, target: NameRef },
    OutputUnassigned { output: usize, state: NameRef },
    DuplicateState(NameRef),
    UnknownRefine { state: usize, machine: usize },
    RefineCycle(usize),
    UnknownOwner(usize),
    TooLarge,
}

impl Refusal {
    // Its entry, under the report's number for its kind.
    pub fn row(self) -> VerdictRow
        ensures { result ≡ row_of self }
    {
        match self {
            Refusal::NoStates => refused(1, no_name(), no_name()),
            Refusal::UnknownInitialState(name) => refused(2, name, no_name()),
            Refusal::UnknownTarget { state, target } => refused(3, state, target),
            Refusal::OutputUnassigned { output, state } => refused(4, named(output), state),
            Refusal::DuplicateState(name) => refused(5, name, no_name()),
            Refusal::UnknownRefine { state, machine } => refused(6, named(state), named(machine)),
            Refusal::RefineCycle(machine) => refused(7, named(machine), no_name()),
            Refusal::UnknownOwner(owner) => refused(8, named(owner), no_name()),
            Refusal::TooLarge => refused(17, no_name(), no_name()),
        }
    }
}

// --- Whether a machine is accepted, or why it is refused: resolving, then its states' names, initial states and targets,
// then its outputs.

// No name.
pub fn no_name() -> NameRef
    ensures { result ≡ no_name }
{
    NameRef {
        letter: 0,
        letters: 0,
        name: Pack::ABSENT,
    }
}

// The pack's name of index x.
pub fn named(x: usize) -> NameRef
    ensures { result ≡ named_of x }
{
    NameRef {
        letter: 0,
        letters: 0,
        name: x,
    }
}

// The entry of a refusal of this kind, with these names after the machine's own.
pub fn refused(kind: usize, second: NameRef, third: NameRef) -> VerdictRow
    ensures { result ≡ refused_by kind second third }
{
    VerdictRow {
        kind,
        second,
        third,
    }
}

// The name of the state at the word p.
fn state_called(layout: &[usize], p: usize) -> NameRef
    ensures { result ≡ state_called layout.now p }
{
    NameRef {
        letter: layout_word(layout, p, 2),
        letters: layout_word(layout, p, 3),
        name: Pack::ABSENT,
    }
}

// The pack's name x in the region at the word q.
fn called_in(layout: &[usize], q: usize, x: usize) -> NameRef
    ensures { result ≡ called_at layout.now q x }
{
    NameRef {
        letter: layout_word(layout, q, 2),
        letters: layout_word(layout, q, 3),
        name: x,
    }
}

// The name whose length byte stands at d, which is below 2³².
fn again_called(qualified: &[u8], d: usize) -> NameRef
    ensures { result ≡ again_called qualified.now d }
{
    let n = byte_at(qualified, d);
    if 4294967296 <= d {
        return no_name();
    }
    NameRef {
        letter: d + 1,
        letters: n,
        name: Pack::ABSENT,
    }
}

// Where not each state gives the output x, the word of one that does not. Where an output was asked for and is given, it need
// not be asked for again: a machine may have it thousands of times.
fn uncovered_output(
    drawing: &Drawing,
    layout: &[usize],
    hints: &mut [u16],
    given: &mut [u8],
    x: usize,
) -> Option<usize>
    requires { AssignsSound drawing.now.pack.bytes.now drawing.now.pack.names drawing.now.memo.now hints.old × AssignmentSound drawing.now.pack.bytes.now drawing.now.pack.names layout.now given.old }
    ensures value { (ns : List Name) → length ns ≡ drawing.now.pack.names → result ≡ uncovered_t ns drawing.now.pack.bytes.now layout.now x max_level 0 }
    ensures assigns_sound { AssignsSound drawing.now.pack.bytes.now drawing.now.pack.names drawing.now.memo.now hints.new }
    ensures assignment_sound { AssignmentSound drawing.now.pack.bytes.now drawing.now.pack.names layout.now given.new }
{
    if 0 < byte_at(given, x) {
        return None;
    }
    let m = require_cover_region(drawing, layout, hints, x, Pack::LEVELS, 0);
    if m.is_some() {
        return m;
    }
    set_byte(given, x, 1);
    None
}

// The outputs of a machine that is laid out, `count` from the offset `from` on: the first that a state does not give. What drawn
// states give is remembered, and which outputs are given, a cell for each name. A pack has no more, by counting different names of 63
// letters; that is not proved, and an output past the cells would be looked for again.
fn judge_outputs(
    drawing: &Drawing,
    layout: &[usize],
    count: usize,
    from: usize,
    regions: usize,
) -> Result<usize, Refusal>
    ensures { (ns : List Name) → length ns ≡ drawing.now.pack.names → result ≡ outputs_j ns drawing.now.pack.bytes.now layout.now regions count from }
{
    let mut told = [0u16; ASSIGNS_MEMO];
    let mut given = [0u8; 17408];
    let mut p = from;
    for _ in 0..count {
        let x = number(drawing.pack.bytes, p);
        let m = uncovered_output(drawing, layout, &mut told, &mut given, x.value);
        if let Some(p) = m {
            return Err(Refusal::OutputUnassigned {
                output: x.value,
                state: state_called(layout, p),
            });
        }
        p = after_port(drawing.pack.bytes, drawing.pack.names, p);
    }
    Ok(regions)
}

// What checking came to, and then the outputs, whose count stands at `outputs`.
fn judge_checked(
    drawing: &Drawing,
    layout: &[usize],
    c: Checked,
    outputs: usize,
    regions: usize,
) -> Result<usize, Refusal>
    ensures { (ns : List Name) → length ns ≡ drawing.now.pack.names → result ≡ checked_j ns drawing.now.pack.bytes.now layout.now c outputs regions }
{
    match c {
        Checked::Fine => {
            let k = number(drawing.pack.bytes, outputs);
            judge_outputs(drawing, layout, k.value, k.next, regions)
        }
        Checked::Initial(q) => Err(Refusal::UnknownInitialState(called_in(
            layout,
            q,
            entry(layout, q),
        ))),
        Checked::Target {
            state,
            region,
            name,
        } => Err(Refusal::UnknownTarget {
            state: state_called(layout, state),
            target: called_in(layout, region, name),
        }),
    }
}

// A machine that is laid out in `letters` letters and so many regions. Where the table holds fewer letters, its end is refused as a name
// that stands twice: not all names could be compared.
fn judge_laid(
    drawing: &Drawing,
    layout: &[usize],
    qualified: &[u8],
    letters: usize,
    regions: usize,
    outputs: usize,
) -> Result<usize, Refusal>
    ensures { (ns : List Name) → length ns ≡ drawing.now.pack.names → result ≡ laid_j ns drawing.now.pack.bytes.now layout.now qualified.now letters regions outputs }
{
    if entry(layout, 6) == 0 {
        return Err(Refusal::NoStates);
    }
    if let Some(d) = duplicate_name(qualified, letters) {
        return Err(Refusal::DuplicateState(again_called(qualified, d)));
    }
    if qualified.len() < letters {
        return Err(Refusal::DuplicateState(again_called(qualified, qualified.len())));
    }
    let c = validate_region(drawing, layout, Pack::LEVELS, 0);
    judge_checked(drawing, layout, c, outputs, regions)
}

// How many regions the machine at the offset `at` has, or why it is refused. Where it resolves, it is then laid out in the tables.
pub fn judge(
    tables: &NameTables,
    layout: &mut [usize],
    rows: &mut [usize],
    qualified: &mut [u8],
    at: usize,
) -> Result<usize, Refusal>
    ensures value { (ns : List Name) → length ns ≡ tables.now.drawing.pack.names → result ≡ judge_at ns tables.now.drawing.pack.bytes.now tables.now.offsets.now tables.now.machines.now at layout.old rows.old qualified.old }
    ensures qualified_after { (ns : List Name) → length ns ≡ tables.now.drawing.pack.names → qualified.new ≡ (board_at ns tables.now.drawing.pack.bytes.now tables.now.offsets.now tables.now.machines.now at layout.old rows.old qualified.old).qualified }
{
    let m = number(tables.drawing.pack.bytes, at);
    let i = to_initial(&tables.drawing.pack, m.next);
    let w = resolve_machine(tables, m.value, i);
    match w {
        Resolved::Cycle(n) => Err(Refusal::RefineCycle(n)),
        Resolved::Unknown { state, name } => Err(Refusal::UnknownRefine {
            state,
            machine: name,
        }),
        Resolved::Large => Err(Refusal::TooLarge),
        Resolved::Went(_, _, _) => {
            let l = layout_machine(
                &tables.drawing,
                tables.offsets,
                tables.machines,
                layout,
                rows,
                qualified,
                i,
            );
            let o = to_outputs(&tables.drawing.pack, m.next);
            judge_laid(&tables.drawing, layout, qualified, l.letters, l.regions, o)
        }
    }
}

// Past the machine at `at`.
fn after_machine(drawing: &Drawing, at: usize) -> usize
    ensures { (ns : List Name) → length ns ≡ drawing.now.pack.names → result ≡ machine_end ns drawing.now.pack.bytes.now at }
{
    let m = number(drawing.pack.bytes, at);
    let i = to_initial(&drawing.pack, m.next);
    after_states(drawing, i)
}

// Where each of `count` machines from `from` on is drawn, and how many regions it has: 0 where it is refused.
pub fn judge_all(
    tables: &NameTables,
    layout: &mut [usize],
    rows: &mut [usize],
    qualified: &mut [u8],
    count: usize,
    from: usize,
    defs: &mut [usize],
    regcounts: &mut [usize],
)
    requires { Long layout.old rows.old qualified.old }
    ensures defs_after { (ns : List Name) → length ns ≡ tables.now.drawing.pack.names → defs.new ≡ fill_t (nth (machine_end ns tables.now.drawing.pack.bytes.now) from) count 0 defs.old }
    ensures regcounts_after { (ns : List Name) → length ns ≡ tables.now.drawing.pack.names → (gs : ℕ → ℕ) → ((i : ℕ) → i < count → HasRegions ns tables.now.drawing.pack.bytes.now tables.now.offsets.now tables.now.machines.now (nth (machine_end ns tables.now.drawing.pack.bytes.now) from i) (gs i)) → regcounts.new ≡ fill_t gs count 0 regcounts.old }
{
    let mut p = from;
    for i in 0..count {
        let j = judge(tables, layout, rows, qualified, p);
        put(defs, i, p);
        put(regcounts, i, j.unwrap_or(0));
        p = after_machine(&tables.drawing, p);
    }
}
