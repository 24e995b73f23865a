// The nodes of the lowered package: each as it stands, with what activations bring to it.
ghost use Rattle.std.specs.Prelude.{List, ◌≡◌, ℕ, ◌≤◌, length};
ghost use Rattle.wire.specs.Writer.{state_of};
ghost use Rattle.wire.specs.Bytes.{word_range};
ghost use Rattle.pack_rules.specs.Names.{Name};
ghost use Rattle.pack_rules.specs.Syntax.{Activation, Enum, Node};
ghost use Rattle.pack_rules.specs.Write.{each, node_items};
ghost use Rattle.pack.specs.Intern.{render};
ghost use Rattle.pack_rules.specs.Limits.{max_bytes};
ghost use Rattle.machines.specs.ReceivingNodes.{Idle};
ghost use Rattle.machines.specs.Sections.{node_names};
ghost use Rattle.activations.specs.ActTable.{goal_t};
ghost use Rattle.activations.specs.Joining.{each_at, joined};
ghost use Rattle.activations.specs.PackInfoAt.{Basis, Scratch};
ghost use Rattle.activations.specs.Fates.{Drawn, NodeRead};
ghost use Rattle.activations.specs.AddedParts.{AllMade, Counted, Settled, head_items, tail_items};

use crate::added::{
    added_equations, added_locals, next_receiver, put_added_equations, put_added_locals,
};
use crate::pack_info::PackInfo;
use crate::types::note_variables;
use machines::added::after_ports;
use machines::checked_read::{after_equations, number};
use machines::layout::between;
use machines::write_nodes::{to_node_equations, to_node_locals};
use pack::cells::cell;
use wire::writer::{Writer, put_bytes, put_u16};

// The node k, which stands at `at`, up to its equations.
fn put_head(
    old: &[u8],
    pack: &[u8],
    info: PackInfo,
    offsets: &[u16],
    acts: &[u16],
    n: usize,
    k: usize,
    at: usize,
    types: &mut [u16],
    outs: &mut [u16],
    lasts: &mut [u16],
    reads: &mut [u16],
    sampled: &mut [u16],
    later: &mut [u16],
    out: &mut [u8],
    made: &mut [u8],
    writer: Writer,
) -> Writer
    requires { (length pack.now ≤ max_bytes) × (info.names ≤ word_range) × (n ≤ 6656) × Scratch later.old types.old outs.old lasts.old reads.old sampled.old }
    ensures { (ns : List Name) (es : List Enum) (N : List Node) (As : List Activation) (m : Node) → Basis ns es old.now pack.now offsets.now info → NodeRead ns pack.now at m → Drawn ns pack.now es N As acts.now → length As ≡ n → AllMade es N As k m → Counted pack.now es N As k m acts.now n → state_of out.new made.new result ≡ render old.now (head_items (joined es (node_names N) k As m)) (state_of out.old made.old writer) }
{
    let l = to_node_locals(pack, info.names, at);
    let e = after_ports(pack, info.names, l);
    let c = number(pack, l);
    let more = added_locals(acts, n, k);
    let d = put_bytes(between(pack, at, l), out, writer);
    let f = put_u16(out, d, c.value + more);
    let g = put_bytes(between(pack, c.next, e), out, f);
    note_variables(pack, info.names, later, at);
    put_added_locals(
        old, pack, info, offsets, acts, n, k, types, outs, lasts, reads, sampled, later, out, made,
        g,
    )
}

// Its equations.
fn put_tail(
    old: &[u8],
    pack: &[u8],
    info: PackInfo,
    offsets: &[u16],
    acts: &[u16],
    n: usize,
    k: usize,
    at: usize,
    types: &mut [u16],
    outs: &mut [u16],
    lasts: &mut [u16],
    reads: &mut [u16],
    sampled: &mut [u16],
    later: &mut [u16],
    out: &mut [u8],
    made: &mut [u8],
    writer: Writer,
) -> Writer
    requires { (length pack.now ≤ max_bytes) × (info.names ≤ word_range) × (n ≤ 6656) × Scratch later.old types.old outs.old lasts.old reads.old sampled.old }
    ensures { (ns : List Name) (es : List Enum) (N : List Node) (As : List Activation) (m : Node) → Basis ns es old.now pack.now offsets.now info → NodeRead ns pack.now at m → Drawn ns pack.now es N As acts.now → length As ≡ n → AllMade es N As k m → Counted pack.now es N As k m acts.now n → state_of out.new made.new result ≡ render old.now (tail_items (joined es (node_names N) k As m)) (state_of out.old made.old writer) }
{
    let e = to_node_equations(pack, info.names, at);
    let z = after_equations(pack, info.names, e);
    let c = number(pack, e);
    let more = added_equations(pack, acts, n, k);
    let d = put_u16(out, writer, c.value + more);
    let f = put_bytes(between(pack, c.next, z), out, d);
    note_variables(pack, info.names, later, at);
    put_added_equations(
        old, pack, info, offsets, acts, n, k, types, outs, lasts, reads, sampled, later, out, made,
        f,
    )
}

// The node k with what n activations bring to it.
fn put_node(
    old: &[u8],
    pack: &[u8],
    info: PackInfo,
    offsets: &[u16],
    acts: &[u16],
    n: usize,
    k: usize,
    at: usize,
    types: &mut [u16],
    outs: &mut [u16],
    lasts: &mut [u16],
    reads: &mut [u16],
    sampled: &mut [u16],
    later: &mut [u16],
    out: &mut [u8],
    made: &mut [u8],
    writer: Writer,
) -> Writer
    requires { (length pack.now ≤ max_bytes) × (info.names ≤ word_range) × (n ≤ 6656) × Scratch later.old types.old outs.old lasts.old reads.old sampled.old }
    ensures { (ns : List Name) (es : List Enum) (N : List Node) (As : List Activation) (m : Node) → Basis ns es old.now pack.now offsets.now info → NodeRead ns pack.now at m → Drawn ns pack.now es N As acts.now → length As ≡ n → AllMade es N As k m → Counted pack.now es N As k m acts.now n → state_of out.new made.new result ≡ render old.now (node_items (joined es (node_names N) k As m)) (state_of out.old made.old writer) }
{
    let c = put_head(
        old, pack, info, offsets, acts, n, k, at, types, outs, lasts, reads, sampled, later, out,
        made, writer,
    );
    put_tail(
        old, pack, info, offsets, acts, n, k, at, types, outs, lasts, reads, sampled, later, out,
        made, c,
    )
}

// A node to which no activation goes, as it stands at `at`.
fn copy_node(pack: &[u8], info: PackInfo, at: usize, out: &mut [u8], writer: Writer) -> Writer
    requires { length pack.now ≤ max_bytes }
    ensures { (ns : List Name) (es : List Enum) (old offsets made : List ℕ) (m : Node) → Basis ns es old pack.now offsets info → NodeRead ns pack.now at m → state_of out.new made result ≡ render old (node_items m) (state_of out.old made writer) }
{
    let e = to_node_equations(pack, info.names, at);
    let z = after_equations(pack, info.names, e);
    put_bytes(between(pack, at, z), out, writer)
}

// The node k, where up to `next` no node is one to which an activation goes.
fn put_next(
    old: &[u8],
    pack: &[u8],
    info: PackInfo,
    offsets: &[u16],
    acts: &[u16],
    n: usize,
    k: usize,
    next: usize,
    at: usize,
    types: &mut [u16],
    outs: &mut [u16],
    lasts: &mut [u16],
    reads: &mut [u16],
    sampled: &mut [u16],
    later: &mut [u16],
    out: &mut [u8],
    made: &mut [u8],
    writer: Writer,
) -> Writer
    requires { (length pack.now ≤ max_bytes) × (info.names ≤ word_range) × (n ≤ 6656) × Scratch later.old types.old outs.old lasts.old reads.old sampled.old }
    ensures { (ns : List Name) (es : List Enum) (N : List Node) (As : List Activation) (m : Node) → Basis ns es old.now pack.now offsets.now info → NodeRead ns pack.now at m → Drawn ns pack.now es N As acts.now → length As ≡ n → AllMade es N As k m → Counted pack.now es N As k m acts.now n → Idle (goal_t acts.now) n k next → state_of out.new made.new result ≡ render old.now (node_items (joined es (node_names N) k As m)) (state_of out.old made.old writer) }
{
    if k < next {
        return copy_node(pack, info, at, out, writer);
    }
    put_node(
        old, pack, info, offsets, acts, n, k, at, types, outs, lasts, reads, sampled, later, out,
        made, writer,
    )
}

// The m nodes.
pub fn put_nodes(
    old: &[u8],
    pack: &[u8],
    info: PackInfo,
    offsets: &[u16],
    acts: &[u16],
    n: usize,
    nodes: &[u16],
    count: usize,
    types: &mut [u16],
    outs: &mut [u16],
    lasts: &mut [u16],
    reads: &mut [u16],
    sampled: &mut [u16],
    later: &mut [u16],
    out: &mut [u8],
    made: &mut [u8],
    writer: Writer,
) -> Writer
    requires { (length pack.now ≤ max_bytes) × (info.names ≤ word_range) × (n ≤ 6656) × Scratch later.old types.old outs.old lasts.old reads.old sampled.old }
    ensures { (ns : List Name) (es : List Enum) (N : List Node) (As : List Activation) → Basis ns es old.now pack.now offsets.now info → Settled ns pack.now es N As nodes.now acts.now count n → state_of out.new made.new result ≡ render old.now (each node_items (each_at (λ j. joined es (node_names N) j As) 0 N)) (state_of out.old made.old writer) }
{
    let mut v = writer;
    let mut next = 0;
    for k in 0..count {
        if v.full {
            break;
        }
        let at = cell(nodes, k);
        next = next_receiver(acts, n, k, next);
        v = put_next(
            old, pack, info, offsets, acts, n, k, next, at, types, outs, lasts, reads, sampled,
            later, out, made, v,
        );
    }
    v
}
