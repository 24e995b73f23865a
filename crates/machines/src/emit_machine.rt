// What is written of machines that are laid out again: their equations, their enums. Tables between two of them may hold anything.
ghost use Rattle.std.specs.Prelude.{List, ◌≡◌, ℕ, length};
ghost use Rattle.wire.specs.Writer.{state_of};
ghost use Rattle.pack_rules.specs.Names.{Name};
ghost use Rattle.pack_rules.specs.Write.{Item};
ghost use Rattle.pack.specs.Intern.{render};
ghost use Rattle.machines.specs.AddedAt.{each_t};
ghost use Rattle.machines.specs.EmitMachineAt.{AllWrite, Long, added_at, enums_at, equations_at};
ghost use Rattle.machines.specs.WriteNodesAt.{added_equations_t};

use crate::added::next_to;
use crate::checked_read::number;
use crate::drawing::Drawing;
use crate::emit_region::{emit_regions, put_enums};
use crate::layout::{layout_machine, pack_name, remaining};
use crate::table::{entry, to_initial, to_outputs};
use crate::value_of::put_outputs;
use wire::writer::Writer;

// The equations of the machine drawn at `at`: of its regions, then of its outputs.
fn put_equations(
    old: &[u8],
    drawing: &Drawing,
    offsets: &[u16],
    machines: &[u16],
    layout: &mut [usize],
    rows: &mut [usize],
    qualified: &mut [u8],
    at: usize,
    out: &mut [u8],
    made: &mut [u8],
    writer: Writer,
) -> Writer
    ensures { (ns : List Name) → length ns ≡ drawing.now.pack.names → state_of out.new made.new result ≡ render old.now (equations_at ns drawing.now.pack.bytes.now offsets.now machines.now at layout.old rows.old qualified.old) (state_of out.old made.old writer) }
{
    let m = number(drawing.pack.bytes, at);
    let i = to_initial(&drawing.pack, m.next);
    let l = layout_machine(drawing, offsets, machines, layout, rows, qualified, i);
    let o = to_outputs(&drawing.pack, m.next);
    let v = emit_regions(
        old,
        &drawing.pack,
        offsets,
        layout,
        rows,
        qualified,
        l.regions,
        out,
        made,
        writer,
    );
    put_outputs(old, drawing, layout, qualified, o, out, made, v)
}

// Its enums.
fn put_machine_enums(
    old: &[u8],
    drawing: &Drawing,
    offsets: &[u16],
    machines: &[u16],
    layout: &mut [usize],
    rows: &mut [usize],
    qualified: &mut [u8],
    at: usize,
    out: &mut [u8],
    made: &mut [u8],
    writer: Writer,
) -> Writer
    ensures { (ns : List Name) → length ns ≡ drawing.now.pack.names → state_of out.new made.new result ≡ render old.now (enums_at ns drawing.now.pack.bytes.now offsets.now machines.now at layout.old rows.old qualified.old) (state_of out.old made.old writer) }
{
    let m = number(drawing.pack.bytes, at);
    let i = to_initial(&drawing.pack, m.next);
    let l = layout_machine(drawing, offsets, machines, layout, rows, qualified, i);
    let n = pack_name(drawing.pack.bytes, offsets, m.value);
    put_enums(
        old, n, layout, rows, qualified, l.regions, out, made, writer,
    )
}

// The equations of the machine i, where it goes to the node k.
fn put_added_equations(
    old: &[u8],
    drawing: &Drawing,
    offsets: &[u16],
    machines: &[u16],
    layout: &mut [usize],
    rows: &mut [usize],
    qualified: &mut [u8],
    defs: &[usize],
    receivers: &[usize],
    k: usize,
    i: usize,
    out: &mut [u8],
    made: &mut [u8],
    writer: Writer,
) -> Writer
    ensures { (ns : List Name) → length ns ≡ drawing.now.pack.names → state_of out.new made.new result ≡ render old.now (added_at ns drawing.now.pack.bytes.now offsets.now machines.now defs.now receivers.now k i layout.old rows.old qualified.old) (state_of out.old made.old writer) }
{
    let a = entry(receivers, i);
    let m = entry(defs, i);
    if a == k {
        return put_equations(
            old, drawing, offsets, machines, layout, rows, qualified, m, out, made, writer,
        );
    }
    writer
}

// The equations that the first n machines bring to the node k.
pub fn put_all_equations(
    old: &[u8],
    drawing: &Drawing,
    offsets: &[u16],
    machines: &[u16],
    layout: &mut [usize],
    rows: &mut [usize],
    qualified: &mut [u8],
    defs: &[usize],
    receivers: &[usize],
    n: usize,
    k: usize,
    out: &mut [u8],
    made: &mut [u8],
    writer: Writer,
) -> Writer
    requires { Long layout.old rows.old qualified.old }
    ensures { (ns : List Name) → length ns ≡ drawing.now.pack.names → (eqs : ℕ → List Item) → AllWrite old.now (equations_at ns drawing.now.pack.bytes.now offsets.now machines.now) defs.now n eqs → state_of out.new made.new result ≡ render old.now (each_t (added_equations_t receivers.now eqs k) n 0) (state_of out.old made.old writer) }
{
    let mut v = writer;
    let mut c = n;
    let mut i = next_to(receivers, c, k, 0);
    while i < c {
        v = put_added_equations(
            old, drawing, offsets, machines, layout, rows, qualified, defs, receivers, k, i, out,
            made, v,
        );
        c = remaining(v, c);
        i = next_to(receivers, c, k, i + 1);
    }
    v
}

// The enums of the first n machines.
pub fn put_all_enums(
    old: &[u8],
    drawing: &Drawing,
    offsets: &[u16],
    machines: &[u16],
    layout: &mut [usize],
    rows: &mut [usize],
    qualified: &mut [u8],
    defs: &[usize],
    n: usize,
    out: &mut [u8],
    made: &mut [u8],
    writer: Writer,
) -> Writer
    requires { Long layout.old rows.old qualified.old }
    ensures { (ns : List Name) → length ns ≡ drawing.now.pack.names → (ens : ℕ → List Item) → AllWrite old.now (enums_at ns drawing.now.pack.bytes.now offsets.now machines.now) defs.now n ens → state_of out.new made.new result ≡ render old.now (each_t ens n 0) (state_of out.old made.old writer) }
{
    let mut v = writer;
    for i in 0..n {
        if v.full {
            return v;
        }
        let m = entry(defs, i);
        v = put_machine_enums(
            old, drawing, offsets, machines, layout, rows, qualified, m, out, made, v,
        );
    }
    v
}
