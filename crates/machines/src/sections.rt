// The lowered package, all that follows its names, section by section:
//   enums         those that stand, then those of the machines' regions
//   nodes         `write_nodes`
//   machines      none
//   activations   as they stand
//   origins       those that stand, then one for each machine that goes to an owner: owner, machine, its first equation there and the
//                 one after its last, no branches. Equations before it are counted along while the owner stays the same
ghost use Rattle.std.specs.Prelude.{List, ◌≡◌, ◌*◌, ◌+◌, ◌<◌, ◌≤◌, ℕ, length};
ghost use Rattle.wire.specs.Writer.{state_of};
ghost use Rattle.wire.specs.Bytes.{word_range};
ghost use Rattle.pack_rules.specs.Names.{Name};
ghost use Rattle.pack.specs.Intern.{render, started};
ghost use Rattle.pack_rules.specs.Limits.{max_bytes};
ghost use Rattle.machines.specs.AddedAt.{counted_t, each_t, given_origin_t, origin_t, own_origin_t, passed_t};
ghost use Rattle.pack_rules.specs.Write.{Item};
ghost use Rattle.machines.specs.MemoSound.{RowsSound};
ghost use Rattle.machines.specs.EmitMachineAt.{AllWrite, Long, enums_at, equations_at};
ghost use Rattle.machines.specs.WriteNodesAt.{enums_part_t, origins_part_t, sections_t};

use crate::added::{
    added_equations, adds_equations, equation_count, owned, owned_count, small, sum_of,
};
use crate::checked_read::{CheckedPack, number};
use crate::drawing::Drawing;
use crate::emit_machine::put_all_enums;
use crate::layout::between;
use crate::table::entry;
use crate::write_nodes::{old_equations, put_nodes};
use pack::intern::start;
use pack::record::Pack;
use wire::writer::{Writer, put_byte, put_bytes, put_u16};

// --- The origins of the machines that go to an owner.

// What is counted from one machine to the next: the equations of a node before the machine.
#[derive(Clone, Copy)]
pub struct Counted {
    pub node: usize,
    pub first: usize,
}

// An origin: its owner's and its own name, its first equation and how many it has.
fn put_numbers(o: usize, m: usize, f: usize, e: usize, out: &mut [u8], writer: Writer) -> Writer
    requires { (f < 1099511627776) × (e < 1048576) }
    ensures { (old l : List ℕ) → state_of out.new l result ≡ render old (origin_t o m f e) (state_of out.old l writer) }
{
    let a = put_u16(out, writer, o);
    let b = put_byte(out, a, 0);
    let c = put_u16(out, b, m);
    let d = put_u16(out, c, f);
    let x = put_u16(out, d, f + e);
    put_u16(out, x, 0)
}

// The origin of the machine i, where it has an owner and `first` equations come before it.
fn put_origin(
    pack: &CheckedPack,
    defs: &[usize],
    regcounts: &[usize],
    i: usize,
    first: usize,
    out: &mut [u8],
    writer: Writer,
) -> Writer
    requires { first < 1099511627776 }
    ensures { (ns : List Name) → length ns ≡ pack.now.names → (old l : List ℕ) → state_of out.new l result ≡ render old (given_origin_t ns pack.now.bytes.now defs.now regcounts.now first i) (state_of out.old l writer) }
{
    let at = entry(defs, i);
    let m = number(pack.bytes, at);
    let o = number(pack.bytes, m.next);
    if o.value == Pack::ABSENT {
        return writer;
    }
    let g = entry(regcounts, i);
    let e = equation_count(pack, at, g);
    put_numbers(o.value, m.value, first, e, out, writer)
}

// How many equations come before the machine i in its owner. `count` old nodes stand from `from` on; they and the earlier
// machines are asked only where the owner is another node than before.
fn count_before(
    pack: &CheckedPack,
    defs: &[usize],
    receivers: &[usize],
    regcounts: &[usize],
    count: usize,
    from: usize,
    i: usize,
    d: Counted,
) -> Counted
    requires { (i ≤ word_range) × (d.first ≤ word_range + 1048576 * i) }
    ensures { (result.first ≤ word_range + 1048576 * i) × ((ns : List Name) → length ns ≡ pack.now.names → result ≡ counted_t ns pack.now.bytes.now defs.now receivers.now regcounts.now count from d i) }
{
    let o = owned(pack.bytes, defs, i);
    let k = entry(receivers, i);
    if o == 0 {
        return d;
    }
    if d.node == k {
        return d;
    }
    let b = old_equations(pack, count, from, k);
    let c = added_equations(pack, defs, receivers, regcounts, i, k);
    Counted {
        node: k,
        first: b + c,
    }
}

// The same past the machine i.
fn count_past(
    pack: &CheckedPack,
    defs: &[usize],
    receivers: &[usize],
    regcounts: &[usize],
    i: usize,
    d: Counted,
) -> Counted
    requires { (i ≤ word_range) × (d.first ≤ word_range + 1048576 * i) }
    ensures { (result.first ≤ word_range + 1048576 * (i + 1)) × ((ns : List Name) → length ns ≡ pack.now.names → result ≡ passed_t ns pack.now.bytes.now defs.now receivers.now regcounts.now d i) }
{
    let b = adds_equations(pack, defs, receivers, regcounts, d.node, i);
    Counted {
        node: d.node,
        first: d.first + b,
    }
}

// The origins of the first n machines.
pub fn put_origins(
    pack: &CheckedPack,
    defs: &[usize],
    receivers: &[usize],
    regcounts: &[usize],
    n: usize,
    count: usize,
    from: usize,
    out: &mut [u8],
    writer: Writer,
) -> Writer
    requires { n ≤ word_range }
    ensures { (ns : List Name) → length ns ≡ pack.now.names → (old l : List ℕ) → state_of out.new l result ≡ render old (each_t (own_origin_t ns pack.now.bytes.now defs.now receivers.now regcounts.now count from) n 0) (state_of out.old l writer) }
{
    let b = old_equations(pack, count, from, 0);
    let mut d = Counted { node: 0, first: b };
    let mut v = writer;
    for i in 0..n {
        if v.full {
            return v;
        }
        d = count_before(pack, defs, receivers, regcounts, count, from, i, d);
        v = put_origin(pack, defs, regcounts, i, d.first, out, v);
        d = count_past(pack, defs, receivers, regcounts, i, d);
    }
    v
}

// All enums: those from `at` on up to `end`, after their count, and those of the first n machines.
fn put_enums_part(
    old: &[u8],
    drawing: &Drawing,
    offsets: &[u16],
    machines: &[u16],
    layout: &mut [usize],
    rows: &mut [usize],
    qualified: &mut [u8],
    defs: &[usize],
    regcounts: &[usize],
    n: usize,
    at: usize,
    end: usize,
    out: &mut [u8],
    made: &mut [u8],
    writer: Writer,
) -> Writer
    requires { (n ≤ word_range) × Long layout.old rows.old qualified.old }
    ensures { (ns : List Name) → length ns ≡ drawing.now.pack.names → (receivers : List ℕ) (ens : ℕ → List Item) → AllWrite old.now (enums_at ns drawing.now.pack.bytes.now offsets.now machines.now) defs.now n ens → state_of out.new made.new result ≡ render old.now (enums_part_t ns drawing.now.pack.bytes.now defs.now receivers regcounts.now offsets.now n ens at end) (state_of out.old made.old writer) }
{
    let c = number(drawing.pack.bytes, at);
    let o = small(c.value);
    let g = sum_of(regcounts, n);
    let h = between(drawing.pack.bytes, c.next, end);
    let a = put_u16(out, writer, o + g);
    let b = put_bytes(h, out, a);
    put_all_enums(
        old, drawing, offsets, machines, layout, rows, qualified, defs, n, out, made, b,
    )
}

// All origins: those from `at` on up to `end`, after their count, and those of the first n machines. The count of nodes is at `nodes`.
fn put_origins_part(
    pack: &CheckedPack,
    defs: &[usize],
    receivers: &[usize],
    regcounts: &[usize],
    n: usize,
    at: usize,
    end: usize,
    nodes: usize,
    out: &mut [u8],
    writer: Writer,
) -> Writer
    requires { n ≤ word_range }
    ensures { (ns : List Name) → length ns ≡ pack.now.names → (offsets old l : List ℕ) → state_of out.new l result ≡ render old (origins_part_t ns pack.now.bytes.now defs.now receivers.now regcounts.now offsets n at end nodes) (state_of out.old l writer) }
{
    let c = number(pack.bytes, at);
    let o = small(c.value);
    let d = number(pack.bytes, nodes);
    let g = owned_count(pack.bytes, defs, n);
    let h = between(pack.bytes, c.next, end);
    let a = put_u16(out, writer, o + g);
    let b = put_bytes(h, out, a);
    put_origins(pack, defs, receivers, regcounts, n, d.value, d.next, out, b)
}

// All that follows the names: no machines are left, activations stay.
pub fn put_sections(
    old: &[u8],
    pack: &[u8],
    sections: Pack,
    offsets: &[u16],
    machines: &[u16],
    memo: &[u16],
    layout: &mut [usize],
    rows: &mut [usize],
    qualified: &mut [u8],
    defs: &[usize],
    receivers: &[usize],
    regcounts: &[usize],
    n: usize,
    out: &mut [u8],
    made: &mut [u8],
) -> Writer
    requires { (length pack.now ≤ max_bytes) × (n ≤ word_range) × Long layout.old rows.old qualified.old × RowsSound pack.now sections.names memo.now }
    ensures { (ns : List Name) → length ns ≡ sections.names → (eqs ens : ℕ → List Item) → AllWrite old.now (equations_at ns pack.now offsets.now machines.now) defs.now n eqs → AllWrite old.now (enums_at ns pack.now offsets.now machines.now) defs.now n ens → state_of out.new made.new result ≡ render old.now (sections_t ns pack.now defs.now receivers.now regcounts.now offsets.now n eqs ens sections) (started out.old made.old) }
{
    let checked = CheckedPack {
        bytes: pack,
        names: sections.names,
    };
    let drawing = Drawing {
        pack: checked,
        memo,
    };
    let w = start();
    let a = put_enums_part(
        old,
        &drawing,
        offsets,
        machines,
        layout,
        rows,
        qualified,
        defs,
        regcounts,
        n,
        sections.enums,
        sections.nodes,
        out,
        made,
        w,
    );
    let b = put_nodes(
        old,
        &drawing,
        offsets,
        machines,
        layout,
        rows,
        qualified,
        defs,
        receivers,
        regcounts,
        n,
        sections.nodes,
        out,
        made,
        a,
    );
    let c = put_u16(out, b, 0);
    let h = between(pack, sections.activations, sections.origins);
    let d = put_bytes(h, out, c);
    put_origins_part(
        &checked,
        defs,
        receivers,
        regcounts,
        n,
        sections.origins,
        sections.end,
        sections.nodes,
        out,
        d,
    )
}
