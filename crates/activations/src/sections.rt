// The lowered package, all that follows its names, section by section:
//   enums         as they stand
//   nodes         `nodes`
//   machines      as they stand
//   activations   none
//   origins       those that stand, then one for each activation: owner, activation, its first equation there and the one after its
//                 last, the names of its branches and `else`
ghost use Rattle.std.specs.Prelude.{List, ◌≡◌, ◌<◌, ◌≤◌, ℕ, length};
ghost use Rattle.wire.specs.Writer.{state_of};
ghost use Rattle.wire.specs.Bytes.{word_range};
ghost use Rattle.pack_rules.specs.Names.{Name};
ghost use Rattle.pack.specs.Intern.{render, started};
ghost use Rattle.pack_rules.specs.Limits.{max_bytes};
ghost use Rattle.machines.specs.AddedAt.{each_t};
ghost use Rattle.activations.specs.OriginsAt.{branches_t, numbers_t, origin_t, scope_names_t};
ghost use Rattle.pack_rules.specs.Syntax.{Package};
ghost use Rattle.pack.specs.Verdict.{SectionsAt};
ghost use Rattle.pack_rules.specs.Write.{package_items};
ghost use Rattle.activation_rules.specs.Activations.{activations_lowered, made_activations};
ghost use Rattle.activations.specs.PackInfoAt.{Basis, Scratch};
ghost use Rattle.activations.specs.AddedParts.{Settled};

use crate::added::{added_equations, equation_count};
use crate::nodes::put_nodes;
use crate::owners::{act_node, act_of, act_spot};
use crate::pack_info::PackInfo;
use crate::parts::{Act, after_branch, first_branch};
use machines::checked_read::number;
use machines::layout::between;
use machines::write_nodes::to_node_equations;
use pack::cells::cell;
use pack::intern::{put_name, start};
use pack::record::Pack;
use wire::writer::{Writer, put_byte, put_bytes, put_u16};

// --- The origins of activations.

// The names of count branches from `from` on.
fn put_branches(
    pack: &[u8],
    names: usize,
    count: usize,
    from: usize,
    out: &mut [u8],
    writer: Writer,
) -> Writer
    requires { length pack.now ≤ max_bytes }
    ensures { (ns : List Name) → length ns ≡ names → (old l : List ℕ) → state_of out.new l result ≡ render old (branches_t ns pack.now count from) (state_of out.old l writer) }
{
    let mut v = writer;
    let mut p = from;
    for _ in 0..count {
        if v.full {
            break;
        }
        let i = number(pack, p);
        v = put_u16(out, v, i.value);
        p = after_branch(pack, names, p);
    }
    v
}

// Those of all scopes, after their count: the else scope comes last.
fn put_scope_names(
    old: &[u8],
    pack: &[u8],
    names: usize,
    a: Act,
    out: &mut [u8],
    made: &mut [u8],
    writer: Writer,
) -> Writer
    requires { length pack.now ≤ max_bytes }
    ensures { (ns : List Name) → length ns ≡ names → state_of out.new made.new result ≡ render old.now (scope_names_t ns pack.now a) (state_of out.old made.old writer) }
{
    let f = first_branch(pack, a);
    let c = put_u16(out, writer, f.value + 1);
    let v = put_branches(pack, names, f.value, f.next, out, c);
    put_name(old, b"else", out, made, v)
}

// An origin's numbers: of its node's and its own name, of its first equation, and of its equations.
fn put_numbers(o: usize, a: usize, f: usize, e: usize, out: &mut [u8], writer: Writer) -> Writer
    requires { (f < 1099511627776) × (e < 1048576) }
    ensures { (old l : List ℕ) → state_of out.new l result ≡ render old (numbers_t o a f e) (state_of out.old l writer) }
{
    let b = put_u16(out, writer, o);
    let c = put_byte(out, b, 1);
    let d = put_u16(out, c, a);
    let g = put_u16(out, d, f);
    put_u16(out, g, f + e)
}

// The origin of the activation i.
fn put_origin(
    old: &[u8],
    pack: &[u8],
    names: usize,
    nodes: &[u16],
    acts: &[u16],
    i: usize,
    out: &mut [u8],
    made: &mut [u8],
    writer: Writer,
) -> Writer
    requires { (length pack.now ≤ max_bytes) × (i ≤ word_range) }
    ensures { (ns : List Name) → length ns ≡ names → state_of out.new made.new result ≡ render old.now (origin_t ns pack.now nodes.now acts.now i) (state_of out.old made.old writer) }
{
    let at = act_spot(acts, i);
    let k = act_node(acts, i);
    let a = number(pack, at);
    let o = number(pack, a.next);
    let n = cell(nodes, k);
    let q = to_node_equations(pack, names, n);
    let e = number(pack, q);
    let b = added_equations(pack, acts, i, k);
    let m = equation_count(pack, acts, i);
    let t = act_of(pack, names, acts, i);
    let v = put_numbers(o.value, a.value, e.value + b, m, out, writer);
    put_scope_names(old, pack, names, t, out, made, v)
}

// Those of the first n activations.
pub fn put_origins(
    old: &[u8],
    pack: &[u8],
    names: usize,
    nodes: &[u16],
    acts: &[u16],
    n: usize,
    out: &mut [u8],
    made: &mut [u8],
    writer: Writer,
) -> Writer
    requires { (length pack.now ≤ max_bytes) × (n ≤ word_range) }
    ensures { (ns : List Name) → length ns ≡ names → state_of out.new made.new result ≡ render old.now (each_t (origin_t ns pack.now nodes.now acts.now) n 0) (state_of out.old made.old writer) }
{
    let mut v = writer;
    for i in 0..n {
        if v.full {
            break;
        }
        v = put_origin(old, pack, names, nodes, acts, i, out, made, v);
    }
    v
}

// All that follows the names: enums and machines as they stand, m nodes with what n activations bring to them, no activations, the
// origins with theirs.
pub fn put_sections(
    old: &[u8],
    pack: &[u8],
    sections: Pack,
    info: PackInfo,
    offsets: &[u16],
    acts: &[u16],
    n: usize,
    nodes: &[u16],
    m: usize,
    types: &mut [u16],
    outs: &mut [u16],
    lasts: &mut [u16],
    reads: &mut [u16],
    sampled: &mut [u16],
    later: &mut [u16],
    out: &mut [u8],
    made: &mut [u8],
) -> Writer
    requires { (length pack.now ≤ max_bytes) × (info.names ≤ word_range) × (n ≤ 6656) × Scratch later.old types.old outs.old lasts.old reads.old sampled.old }
    ensures { (p : Package) → SectionsAt pack.now sections p → Basis p.names p.enums old.now pack.now offsets.now info → Settled p.names pack.now p.enums p.nodes p.activations nodes.now acts.now m n → state_of out.new made.new result ≡ render old.now (package_items (activations_lowered p (made_activations p))) (started out.old made.old) }
{
    let o = number(pack, sections.origins);
    let c = put_bytes(between(pack, sections.enums, sections.nodes), out, start());
    let d = put_u16(out, c, m);
    let e = put_nodes(
        old, pack, info, offsets, acts, n, nodes, m, types, outs, lasts, reads, sampled, later,
        out, made, d,
    );
    let f = put_bytes(
        between(pack, sections.machines, sections.activations),
        out,
        e,
    );
    let g = put_u16(out, f, 0);
    let h = put_u16(out, g, o.value + n);
    let i = put_bytes(between(pack, o.next, sections.end), out, h);
    put_origins(old, pack, info.names, nodes, acts, n, out, made, i)
}
