// The nodes of the lowered package: first those that stand in the pack, in order, then one for each machine without owner.
//   head        a node that stands: its bytes up to its locals; a new one: the machine's name and ports, as an operator
//   locals      how many, those that stand, and those that machines bring (`added`)
//   equations   how many, those that stand, and those that machines bring (`emit_machine`)
// What machines bring comes in their order. A machine without owner brings its own locals and equations to the node that it begins.
ghost use Rattle.std.specs.Prelude.{List, ◌++◌, ◌≡◌, ◌-◌, ◌<◌, ◌≤◌, ℕ, length, Ok};
ghost use Rattle.wire.specs.Code.{onward};
ghost use Rattle.wire.specs.Bytes.{word_range};
ghost use Rattle.pack_rules.specs.Names.{Name};
ghost use Rattle.pack_rules.specs.Limits.{max_bytes};
ghost use Rattle.machines.specs.AddedAt.{each_t, node_equations_in, node_locals_in, old_t, owned_t, total_t};
ghost use Rattle.wire.specs.Writer.{state_of};
ghost use Rattle.pack.specs.Intern.{render};
ghost use Rattle.machines.specs.NodeHeads.{new_head_t, node_locals_t, old_head_t};
ghost use Rattle.pack_rules.specs.Read.{ports_in};
ghost use Rattle.pack_rules.specs.Write.{Item};
ghost use Rattle.machines.specs.EmitMachineAt.{AllWrite, Long, equations_at};
ghost use Rattle.machines.specs.WriteNodesAt.{new_node_t, node_equations_t, nodes_t, old_node_t, old_nodes_t};

use crate::added::{
    added_equations, added_locals, after_ports, asked, next_receiver, next_to, owned, owned_count,
    put_all_locals, small, span, table_from, to_locals,
};
use crate::checked_read::{CheckedPack, after_equations, number, read_or_zero};
use crate::drawing::Drawing;
use crate::emit_machine::put_all_equations;
use crate::layout::between;
use crate::table::entry;
use pack::check::reached;
use pack::parts::skip_ports;
use wire::answer::Skipped;
use wire::number::read_byte;
use wire::writer::{Writer, put_byte, put_bytes, put_u16};

// --- The nodes of a pack as they stand: where their parts are, and how many equations they have.

// A node's inputs and outputs.
#[tactic(auto, unfolding(wire::specs::Code::onward, wire::specs::Code::next, wire::specs::Code::skips))]
fn skip_two_lists(pack: &[u8], names: usize, at: usize) -> Skipped
    requires { length pack.now ≤ max_bytes }
    ensures { (ns : List Name) → length ns ≡ names → result ≡ onward (ports_in ns pack.now) (onward (ports_in ns pack.now) (Ok at)) }
{
    let inputs = skip_ports(pack, names, at)?;
    skip_ports(pack, names, inputs)
}

// From a node to its locals.
pub fn to_node_locals(pack: &[u8], names: usize, at: usize) -> usize
    requires { length pack.now ≤ max_bytes }
    ensures { (ns : List Name) → length ns ≡ names → result ≡ node_locals_in ns pack.now at }
{
    let i = number(pack, at);
    let k = read_or_zero(read_byte(pack, i.next));
    reached(skip_two_lists(pack, names, k.next))
}

// From a node to its equations.
pub fn to_node_equations(pack: &[u8], names: usize, at: usize) -> usize
    requires { length pack.now ≤ max_bytes }
    ensures { (ns : List Name) → length ns ≡ names → result ≡ node_equations_in ns pack.now at }
{
    let a = to_node_locals(pack, names, at);
    after_ports(pack, names, a)
}

// How many equations the node k of `count` nodes from `from` on has.
pub fn old_equations(pack: &CheckedPack, count: usize, from: usize, k: usize) -> usize
    ensures { (result < word_range) × ((ns : List Name) → length ns ≡ pack.now.names → result ≡ old_t ns pack.now.bytes.now count from k) }
{
    let mut p = from;
    for i in 0..count {
        let e = to_node_equations(pack.bytes, pack.names, p);
        if i == k {
            let c = number(pack.bytes, e);
            return small(c.value);
        }
        p = after_equations(pack.bytes, pack.names, e);
    }
    0
}

// --- Nodes up to their equations: what stands is copied, and the locals that machines bring come after it.

// The locals of the node k: `own` ones that stand from `from` up to `to`, and those that n machines bring.
fn put_node_locals(
    old: &[u8],
    pack: &CheckedPack,
    offsets: &[u16],
    defs: &[usize],
    receivers: &[usize],
    regcounts: &[usize],
    n: usize,
    k: usize,
    own: usize,
    from: usize,
    to: usize,
    out: &mut [u8],
    made: &mut [u8],
    writer: Writer,
) -> Writer
    requires { n ≤ word_range }
    ensures { (ns : List Name) → length ns ≡ pack.now.names → state_of out.new made.new result ≡ render old.now (node_locals_t ns pack.now.bytes.now defs.now receivers.now regcounts.now offsets.now n k own from to) (state_of out.old made.old writer) }
{
    let o = small(own);
    let m = added_locals(pack, defs, receivers, regcounts, n, k);
    let a = put_u16(out, writer, o + m);
    let h = between(pack.bytes, from, to);
    let b = put_bytes(h, out, a);
    put_all_locals(
        old, pack, offsets, defs, receivers, regcounts, n, k, out, made, b,
    )
}

// The node k that stands at `at`.
pub fn put_old_head(
    old: &[u8],
    pack: &CheckedPack,
    offsets: &[u16],
    defs: &[usize],
    receivers: &[usize],
    regcounts: &[usize],
    n: usize,
    k: usize,
    at: usize,
    out: &mut [u8],
    made: &mut [u8],
    writer: Writer,
) -> Writer
    requires { n ≤ word_range }
    ensures { (ns : List Name) → length ns ≡ pack.now.names → state_of out.new made.new result ≡ render old.now (old_head_t ns pack.now.bytes.now defs.now receivers.now regcounts.now offsets.now n k at) (state_of out.old made.old writer) }
{
    let l = to_node_locals(pack.bytes, pack.names, at);
    let e = after_ports(pack.bytes, pack.names, l);
    let c = number(pack.bytes, l);
    let h = between(pack.bytes, at, l);
    let a = put_bytes(h, out, writer);
    put_node_locals(
        old, pack, offsets, defs, receivers, regcounts, n, k, c.value, c.next, e, out, made, a,
    )
}

// The node k that the machine drawn at `at` begins.
pub fn put_new_head(
    old: &[u8],
    pack: &CheckedPack,
    offsets: &[u16],
    defs: &[usize],
    receivers: &[usize],
    regcounts: &[usize],
    n: usize,
    k: usize,
    at: usize,
    out: &mut [u8],
    made: &mut [u8],
    writer: Writer,
) -> Writer
    requires { n ≤ word_range }
    ensures { (ns : List Name) → length ns ≡ pack.now.names → state_of out.new made.new result ≡ render old.now (new_head_t ns pack.now.bytes.now defs.now receivers.now regcounts.now offsets.now n k at) (state_of out.old made.old writer) }
{
    let m = number(pack.bytes, at);
    let o = number(pack.bytes, m.next);
    let l = to_locals(pack, at);
    let h = between(pack.bytes, o.next, l);
    let a = put_u16(out, writer, m.value);
    let b = put_byte(out, a, 1);
    let c = put_bytes(h, out, b);
    put_node_locals(
        old, pack, offsets, defs, receivers, regcounts, n, k, 0, 0, 0, out, made, c,
    )
}

// The equations of the node k: `own` ones that stand from `from` up to `end`, and those that n machines bring.
fn put_node_equations(
    old: &[u8],
    drawing: &Drawing,
    offsets: &[u16],
    machines: &[u16],
    layout: &mut [usize],
    rows: &mut [usize],
    qualified: &mut [u8],
    defs: &[usize],
    receivers: &[usize],
    regcounts: &[usize],
    n: usize,
    k: usize,
    own: usize,
    from: usize,
    end: usize,
    out: &mut [u8],
    made: &mut [u8],
    writer: Writer,
) -> Writer
    requires { (n ≤ word_range) × Long layout.old rows.old qualified.old }
    ensures { (ns : List Name) → length ns ≡ drawing.now.pack.names → (eqs : ℕ → List Item) → AllWrite old.now (equations_at ns drawing.now.pack.bytes.now offsets.now machines.now) defs.now n eqs → state_of out.new made.new result ≡ render old.now (node_equations_t ns drawing.now.pack.bytes.now defs.now receivers.now regcounts.now offsets.now n eqs k own from end) (state_of out.old made.old writer) }
{
    let o = small(own);
    let m = added_equations(&drawing.pack, defs, receivers, regcounts, n, k);
    let h = between(drawing.pack.bytes, from, end);
    let a = put_u16(out, writer, o + m);
    let b = put_bytes(h, out, a);
    put_all_equations(
        old, drawing, offsets, machines, layout, rows, qualified, defs, receivers, n, k, out, made,
        b,
    )
}

// The node k that stands at `at`.
fn put_old_node(
    old: &[u8],
    drawing: &Drawing,
    offsets: &[u16],
    machines: &[u16],
    layout: &mut [usize],
    rows: &mut [usize],
    qualified: &mut [u8],
    defs: &[usize],
    receivers: &[usize],
    regcounts: &[usize],
    n: usize,
    k: usize,
    at: usize,
    out: &mut [u8],
    made: &mut [u8],
    writer: Writer,
) -> Writer
    requires { (n ≤ word_range) × Long layout.old rows.old qualified.old }
    ensures { (ns : List Name) → length ns ≡ drawing.now.pack.names → (eqs : ℕ → List Item) → AllWrite old.now (equations_at ns drawing.now.pack.bytes.now offsets.now machines.now) defs.now n eqs → state_of out.new made.new result ≡ render old.now (old_node_t ns drawing.now.pack.bytes.now defs.now receivers.now regcounts.now offsets.now n eqs k at) (state_of out.old made.old writer) }
{
    let e = to_node_equations(drawing.pack.bytes, drawing.pack.names, at);
    let z = after_equations(drawing.pack.bytes, drawing.pack.names, e);
    let c = number(drawing.pack.bytes, e);
    let a = put_old_head(
        old,
        &drawing.pack,
        offsets,
        defs,
        receivers,
        regcounts,
        n,
        k,
        at,
        out,
        made,
        writer,
    );
    put_node_equations(
        old, drawing, offsets, machines, layout, rows, qualified, defs, receivers, regcounts, n, k,
        c.value, c.next, z, out, made, a,
    )
}

// `count` nodes that stand from `from` on. Up to the next one to which a machine goes no machine is asked.
fn put_old_nodes(
    old: &[u8],
    drawing: &Drawing,
    offsets: &[u16],
    machines: &[u16],
    layout: &mut [usize],
    rows: &mut [usize],
    qualified: &mut [u8],
    defs: &[usize],
    receivers: &[usize],
    regcounts: &[usize],
    n: usize,
    count: usize,
    from: usize,
    out: &mut [u8],
    made: &mut [u8],
    writer: Writer,
) -> Writer
    requires { (n ≤ word_range) × Long layout.old rows.old qualified.old }
    ensures { (ns : List Name) → length ns ≡ drawing.now.pack.names → (eqs : ℕ → List Item) → AllWrite old.now (equations_at ns drawing.now.pack.bytes.now offsets.now machines.now) defs.now n eqs → state_of out.new made.new result ≡ render old.now (old_nodes_t ns drawing.now.pack.bytes.now defs.now receivers.now regcounts.now offsets.now n eqs count 0 from) (state_of out.old made.old writer) }
{
    let mut v = writer;
    let mut p = from;
    let mut b = 0;
    for k in 0..count {
        if v.full {
            return v;
        }
        b = next_receiver(receivers, n, k, b);
        let m = asked(k, b, n);
        v = put_old_node(
            old, drawing, offsets, machines, layout, rows, qualified, defs, receivers, regcounts,
            m, k, p, out, made, v,
        );
        let e = to_node_equations(drawing.pack.bytes, drawing.pack.names, p);
        p = after_equations(drawing.pack.bytes, drawing.pack.names, e);
    }
    v
}

// The node k that the machine drawn at `at` begins. Only machines from the first to the last one that go to it are asked.
fn put_begun(
    old: &[u8],
    drawing: &Drawing,
    offsets: &[u16],
    machines: &[u16],
    layout: &mut [usize],
    rows: &mut [usize],
    qualified: &mut [u8],
    defs: &[usize],
    receivers: &[usize],
    regcounts: &[usize],
    n: usize,
    k: usize,
    at: usize,
    out: &mut [u8],
    made: &mut [u8],
    writer: Writer,
) -> Writer
    requires { (n ≤ word_range) × Long layout.old rows.old qualified.old }
    ensures { (ns : List Name) → length ns ≡ drawing.now.pack.names → (eqs : ℕ → List Item) → AllWrite old.now (equations_at ns drawing.now.pack.bytes.now offsets.now machines.now) defs.now n eqs → state_of out.new made.new result ≡ render old.now (new_head_t ns drawing.now.pack.bytes.now defs.now receivers.now regcounts.now offsets.now n k at ++ node_equations_t ns drawing.now.pack.bytes.now defs.now receivers.now regcounts.now offsets.now n eqs k 0 0 0) (state_of out.old made.old writer) }
{
    let f = next_to(receivers, n, k, 0);
    let m = span(receivers, n, k, f);
    let ms = table_from(defs, f);
    let gs = table_from(receivers, f);
    let rs = table_from(regcounts, f);
    let a = put_new_head(
        old,
        &drawing.pack,
        offsets,
        ms,
        gs,
        rs,
        m,
        k,
        at,
        out,
        made,
        writer,
    );
    put_node_equations(
        old, drawing, offsets, machines, layout, rows, qualified, ms, gs, rs, m, k, 0, 0, 0, out,
        made, a,
    )
}

// The node that the machine i begins, where it has no owner.
fn put_new_node(
    old: &[u8],
    drawing: &Drawing,
    offsets: &[u16],
    machines: &[u16],
    layout: &mut [usize],
    rows: &mut [usize],
    qualified: &mut [u8],
    defs: &[usize],
    receivers: &[usize],
    regcounts: &[usize],
    n: usize,
    i: usize,
    out: &mut [u8],
    made: &mut [u8],
    writer: Writer,
) -> Writer
    requires { (n ≤ word_range) × Long layout.old rows.old qualified.old }
    ensures { (ns : List Name) → length ns ≡ drawing.now.pack.names → (eqs : ℕ → List Item) → AllWrite old.now (equations_at ns drawing.now.pack.bytes.now offsets.now machines.now) defs.now n eqs → state_of out.new made.new result ≡ render old.now (new_node_t ns drawing.now.pack.bytes.now defs.now receivers.now regcounts.now offsets.now n eqs i) (state_of out.old made.old writer) }
{
    let o = owned(drawing.pack.bytes, defs, i);
    let k = entry(receivers, i);
    let at = entry(defs, i);
    if o == 0 {
        return put_begun(
            old, drawing, offsets, machines, layout, rows, qualified, defs, receivers, regcounts,
            n, k, at, out, made, writer,
        );
    }
    writer
}

// The nodes that the first n machines begin.
fn put_new_nodes(
    old: &[u8],
    drawing: &Drawing,
    offsets: &[u16],
    machines: &[u16],
    layout: &mut [usize],
    rows: &mut [usize],
    qualified: &mut [u8],
    defs: &[usize],
    receivers: &[usize],
    regcounts: &[usize],
    n: usize,
    out: &mut [u8],
    made: &mut [u8],
    writer: Writer,
) -> Writer
    requires { (n ≤ word_range) × Long layout.old rows.old qualified.old }
    ensures { (ns : List Name) → length ns ≡ drawing.now.pack.names → (eqs : ℕ → List Item) → AllWrite old.now (equations_at ns drawing.now.pack.bytes.now offsets.now machines.now) defs.now n eqs → state_of out.new made.new result ≡ render old.now (each_t (new_node_t ns drawing.now.pack.bytes.now defs.now receivers.now regcounts.now offsets.now n eqs) n 0) (state_of out.old made.old writer) }
{
    let mut v = writer;
    for i in 0..n {
        if v.full {
            return v;
        }
        v = put_new_node(
            old, drawing, offsets, machines, layout, rows, qualified, defs, receivers, regcounts,
            n, i, out, made, v,
        );
    }
    v
}

// How many of the first n machines begin a node.
fn begun(pack: &[u8], defs: &[usize], n: usize) -> usize
    requires { n ≤ word_range }
    ensures { (result ≤ n) × (result ≡ n - total_t (owned_t pack.now defs.now) n 0) }
{
    let o = owned_count(pack, defs, n);
    if o < n { n - o } else { 0 }
}

// All nodes; the count of those that stand is at `at`.
pub fn put_nodes(
    old: &[u8],
    drawing: &Drawing,
    offsets: &[u16],
    machines: &[u16],
    layout: &mut [usize],
    rows: &mut [usize],
    qualified: &mut [u8],
    defs: &[usize],
    receivers: &[usize],
    regcounts: &[usize],
    n: usize,
    at: usize,
    out: &mut [u8],
    made: &mut [u8],
    writer: Writer,
) -> Writer
    requires { (n ≤ word_range) × Long layout.old rows.old qualified.old }
    ensures { (ns : List Name) → length ns ≡ drawing.now.pack.names → (eqs : ℕ → List Item) → AllWrite old.now (equations_at ns drawing.now.pack.bytes.now offsets.now machines.now) defs.now n eqs → state_of out.new made.new result ≡ render old.now (nodes_t ns drawing.now.pack.bytes.now defs.now receivers.now regcounts.now offsets.now n eqs at) (state_of out.old made.old writer) }
{
    let c = number(drawing.pack.bytes, at);
    let o = small(c.value);
    let g = begun(drawing.pack.bytes, defs, n);
    let a = put_u16(out, writer, o + g);
    let b = put_old_nodes(
        old, drawing, offsets, machines, layout, rows, qualified, defs, receivers, regcounts, n,
        c.value, c.next, out, made, a,
    );
    put_new_nodes(
        old, drawing, offsets, machines, layout, rows, qualified, defs, receivers, regcounts, n,
        out, made, b,
    )
}
