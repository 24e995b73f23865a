// What activations bring to nodes: how many locals and equations, these themselves, and which node is the next to receive some; the
// others stay as they are. All activations are accepted here. Each is prepared anew, in their order, and leaves the types of its locals
// to the next one of its owner (`later`).
ghost use Rattle.std.specs.Prelude.{◌≡◌, ◌<◌, ◌≤◌, List, length};
ghost use Rattle.wire.specs.Bytes.{word_range};
ghost use Rattle.machines.specs.AddedAt.{total_t};
ghost use Rattle.activations.specs.CountsAt.{adds_equations_t, adds_locals_t, equation_count_t};
ghost use Rattle.wire.specs.Writer.{state_of};
ghost use Rattle.pack_rules.specs.Names.{Name};
ghost use Rattle.pack_rules.specs.Syntax.{Activation, Enum, Node};
ghost use Rattle.pack_rules.specs.Write.{each, equation_items, port_items};
ghost use Rattle.pack.specs.Intern.{render};
ghost use Rattle.pack_rules.specs.Limits.{max_bytes};
ghost use Rattle.machines.specs.Sections.{node_names};
ghost use Rattle.activation_rules.specs.Lower.{lowered};
ghost use Rattle.activations.specs.Places.{act_at};
ghost use Rattle.activations.specs.ActTable.{goal_t, spot_t};
ghost use Rattle.activations.specs.PackInfoAt.{Basis, ReadAt, Scratch, Types};
ghost use Rattle.activations.specs.Fates.{Drawn};
ghost use Rattle.activations.specs.AddedParts.{AllMade, IsMade, RowWritten, brought, equations_of, ports_of};
ghost use Rattle.machines.specs.ReceivingNodes.{next_receiver_t, no_node, receives_t};

use crate::locals::{Passed, put_act_locals};
use crate::lower::{prepare, put_act_equations};
use crate::owners::{act_locals, act_node, act_of, act_spot};
use crate::pack_info::PackInfo;
use crate::verdicts::count_and_type_locals;
use machines::added::{NO_NODE, nearer};
use machines::checked_read::number;
use machines::layout::pack_name;
use wire::writer::Writer;

// --- How many locals and equations activations bring to nodes.

// How many equations the activation i makes: one for each local, and one for each output.
pub fn equation_count(pack: &[u8], acts: &[u16], i: usize) -> usize
    ensures { (result < 131072) × (result ≡ equation_count_t pack.now acts.now i) }
{
    let at = act_spot(acts, i);
    let a = number(pack, at);
    let o = number(pack, a.next);
    let c = number(pack, o.next);
    let l = act_locals(acts, i);
    l + c.value
}

// How many locals it brings to the node k.
#[tactic(auto, unfolding(crate::specs::CountsAt::adds_locals_t))]
fn adds_locals(acts: &[u16], k: usize, i: usize) -> usize
    ensures { (result < word_range) × (result ≡ adds_locals_t acts.now k i) }
{
    let g = act_node(acts, i);
    if g == k { act_locals(acts, i) } else { 0 }
}

// How many equations.
#[tactic(auto, unfolding(crate::specs::CountsAt::adds_equations_t))]
fn adds_equations(pack: &[u8], acts: &[u16], k: usize, i: usize) -> usize
    ensures { (result < 131072) × (result ≡ adds_equations_t pack.now acts.now k i) }
{
    let g = act_node(acts, i);
    if g == k {
        equation_count(pack, acts, i)
    } else {
        0
    }
}

// How many locals the first n activations bring to the node k.
pub fn added_locals(acts: &[u16], n: usize, k: usize) -> usize
    requires { n ≤ word_range }
    ensures { (result ≤ 4294967296) × (result ≡ total_t (adds_locals_t acts.now k) n 0) }
{
    let mut c = 0;
    for i in 0..n {
        c += adds_locals(acts, k, i);
    }
    c
}

// How many equations.
pub fn added_equations(pack: &[u8], acts: &[u16], n: usize, k: usize) -> usize
    requires { n ≤ word_range }
    ensures { (result ≤ 8589934592) × (result ≡ total_t (adds_equations_t pack.now acts.now k) n 0) }
{
    let mut c = 0;
    for i in 0..n {
        c += adds_equations(pack, acts, k, i);
    }
    c
}

// --- What activations bring to their nodes, written. All are accepted here, and each is prepared anew.

// The locals of the activation of the row i, where it goes to the node k; it is left to the next of its owner.
fn put_row_locals(
    old: &[u8],
    pack: &[u8],
    info: PackInfo,
    offsets: &[u16],
    acts: &[u16],
    k: usize,
    i: usize,
    types: &mut [u16],
    outs: &mut [u16],
    lasts: &mut [u16],
    reads: &mut [u16],
    sampled: &mut [u16],
    later: &mut [u16],
    out: &mut [u8],
    made: &mut [u8],
    writer: Writer,
) -> Writer
    requires { (length pack.now ≤ max_bytes) × (info.names ≤ word_range) × Scratch later.old types.old outs.old lasts.old reads.old sampled.old }
    ensures past { (goal_t acts.now i ≡ k → ⊥) → (state_of out.new made.new result ≡ state_of out.old made.old writer) × (later.new ≡ later.old) }
    ensures written { goal_t acts.now i ≡ k → (ns : List Name) (es : List Enum) (A : Activation) (n : Node) → Basis ns es old.now pack.now offsets.now info → ReadAt ns pack.now (spot_t acts.now i) A (act_at ns pack.now (spot_t acts.now i)) → Types ns pack.now n later.old → IsMade (lowered es A n) → RowWritten ns es pack.now old.now A n (each port_items (ports_of (lowered es A n))) (state_of out.old made.old writer) (state_of out.new made.new result) later.new }
{
    let g = act_node(acts, i);
    if g != k {
        return writer;
    }
    let act = act_of(pack, info.names, acts, i);
    let a = pack_name(pack, offsets, act.name);
    let rows = prepare(old, pack, info, offsets, a, act, later, types, outs, lasts).rows;
    let p = Passed {
        w: writer,
        count: 0,
    };
    let r = put_act_locals(
        old, pack, info, a, offsets, lasts, rows, types, outs, act, reads, sampled, later, out,
        made, p,
    );
    r.w
}

// Its equations.
fn put_row_equations(
    old: &[u8],
    pack: &[u8],
    info: PackInfo,
    offsets: &[u16],
    acts: &[u16],
    k: usize,
    i: usize,
    types: &mut [u16],
    outs: &mut [u16],
    lasts: &mut [u16],
    reads: &mut [u16],
    sampled: &mut [u16],
    later: &mut [u16],
    out: &mut [u8],
    made: &mut [u8],
    writer: Writer,
) -> Writer
    requires { (length pack.now ≤ max_bytes) × (info.names ≤ word_range) × Scratch later.old types.old outs.old lasts.old reads.old sampled.old }
    ensures past { (goal_t acts.now i ≡ k → ⊥) → (state_of out.new made.new result ≡ state_of out.old made.old writer) × (later.new ≡ later.old) }
    ensures written { goal_t acts.now i ≡ k → (ns : List Name) (es : List Enum) (A : Activation) (n : Node) → Basis ns es old.now pack.now offsets.now info → ReadAt ns pack.now (spot_t acts.now i) A (act_at ns pack.now (spot_t acts.now i)) → Types ns pack.now n later.old → IsMade (lowered es A n) → RowWritten ns es pack.now old.now A n (each equation_items (equations_of (lowered es A n))) (state_of out.old made.old writer) (state_of out.new made.new result) later.new }
{
    let g = act_node(acts, i);
    if g != k {
        return writer;
    }
    let act = act_of(pack, info.names, acts, i);
    let a = pack_name(pack, offsets, act.name);
    let rows = prepare(old, pack, info, offsets, a, act, later, types, outs, lasts).rows;
    let v = put_act_equations(
        old, pack, info, offsets, a, act, lasts, rows, types, outs, reads, sampled, out, made,
        writer,
    );
    count_and_type_locals(
        old, pack, info, a, offsets, lasts, rows, types, outs, act, reads, sampled, later,
    );
    v
}

// The locals that `count` activations bring to the node k, whose variables' types `later` has.
pub fn put_added_locals(
    old: &[u8],
    pack: &[u8],
    info: PackInfo,
    offsets: &[u16],
    acts: &[u16],
    count: usize,
    k: usize,
    types: &mut [u16],
    outs: &mut [u16],
    lasts: &mut [u16],
    reads: &mut [u16],
    sampled: &mut [u16],
    later: &mut [u16],
    out: &mut [u8],
    made: &mut [u8],
    writer: Writer,
) -> Writer
    requires { (length pack.now ≤ max_bytes) × (info.names ≤ word_range) × (count ≤ 6656) × Scratch later.old types.old outs.old lasts.old reads.old sampled.old }
    ensures { (ns : List Name) (es : List Enum) (N : List Node) (As : List Activation) (m : Node) → Basis ns es old.now pack.now offsets.now info → Drawn ns pack.now es N As acts.now → length As ≡ count → AllMade es N As k m → Types ns pack.now m later.old → state_of out.new made.new result ≡ render old.now (each port_items (brought es (node_names N) ports_of k As m)) (state_of out.old made.old writer) }
{
    let mut v = writer;
    for i in 0..count {
        if v.full {
            break;
        }
        v = put_row_locals(
            old, pack, info, offsets, acts, k, i, types, outs, lasts, reads, sampled, later, out,
            made, v,
        );
    }
    v
}

// The equations that they bring to it.
pub fn put_added_equations(
    old: &[u8],
    pack: &[u8],
    info: PackInfo,
    offsets: &[u16],
    acts: &[u16],
    count: usize,
    k: usize,
    types: &mut [u16],
    outs: &mut [u16],
    lasts: &mut [u16],
    reads: &mut [u16],
    sampled: &mut [u16],
    later: &mut [u16],
    out: &mut [u8],
    made: &mut [u8],
    writer: Writer,
) -> Writer
    requires { (length pack.now ≤ max_bytes) × (info.names ≤ word_range) × (count ≤ 6656) × Scratch later.old types.old outs.old lasts.old reads.old sampled.old }
    ensures { (ns : List Name) (es : List Enum) (N : List Node) (As : List Activation) (m : Node) → Basis ns es old.now pack.now offsets.now info → Drawn ns pack.now es N As acts.now → length As ≡ count → AllMade es N As k m → Types ns pack.now m later.old → state_of out.new made.new result ≡ render old.now (each equation_items (brought es (node_names N) equations_of k As m)) (state_of out.old made.old writer) }
{
    let mut v = writer;
    for i in 0..count {
        if v.full {
            break;
        }
        v = put_row_equations(
            old, pack, info, offsets, acts, k, i, types, outs, lasts, reads, sampled, later, out,
            made, v,
        );
    }
    v
}

// --- The nodes to which activations go: the others stay as they are.

// The first node from k on to which one of n activations goes, `NO_NODE` where there is none.
fn receives(acts: &[u16], n: usize, k: usize) -> usize
    ensures { result ≡ receives_t (goal_t acts.now) k n 0 no_node }
{
    let mut b = NO_NODE;
    for i in 0..n {
        let a = act_node(acts, i);
        b = nearer(k, a, b);
    }
    b
}

// The same, where b was found before: activations are asked again only once k is past it.
#[tactic(auto, unfolding(machines::specs::ReceivingNodes::next_receiver_t))]
pub fn next_receiver(acts: &[u16], n: usize, k: usize, b: usize) -> usize
    ensures { result ≡ next_receiver_t (goal_t acts.now) n k b }
{
    if b < k { receives(acts, n, k) } else { b }
}
