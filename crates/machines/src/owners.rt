// To which node each accepted machine goes: a node of its own, or its owner among the nodes made so far. Nodes are
// known by their names' indexes.
ghost use Rattle.std.specs.Prelude.{List, ◌≡◌, ◌+◌, ◌≤◌, length};
ghost use Rattle.wire.specs.Bytes.{word_range};
ghost use Rattle.pack_rules.specs.Names.{Name};
ghost use Rattle.pack_rules.specs.Limits.{max_bytes};
ghost use Rattle.machines.specs.AddedAt.{total_t};
ghost use Rattle.machines.specs.OwnersAt.{fill_t, node_end, node_name_t, find_t, goes_to, nodes_of, settled_t, settle_t, refused_t};

use crate::checked_read::{after_equations, number};
use crate::table::{entry, put};
use crate::write_nodes::to_node_equations;
use pack::cells::{cell, put_cell};
use pack::record::Pack;

// Past the node at `at`.
fn after_node(pack: &[u8], names: usize, at: usize) -> usize
    requires { length pack.now ≤ max_bytes }
    ensures { (ns : List Name) → length ns ≡ names → result ≡ node_end ns pack.now at }
{
    let e = to_node_equations(pack, names, at);
    after_equations(pack, names, e)
}

// The names of `count` nodes from `from` on.
pub fn place_nodes(pack: &[u8], names: usize, count: usize, from: usize, nodes: &mut [u16])
    requires { length pack.now ≤ max_bytes }
    ensures { (ns : List Name) → length ns ≡ names → nodes.new ≡ fill_t (node_name_t ns pack.now from) count 0 nodes.old }
{
    let mut p = from;
    for k in 0..count {
        let i = number(pack, p);
        put_cell(nodes, k, i.value);
        p = after_node(pack, names, p);
    }
}

// The index of the first of n nodes of the name x, n where there is none.
fn find_node(nodes: &[u16], n: usize, x: usize) -> usize
    ensures { result ≡ find_t nodes.now x n 0 }
{
    for i in 0..n {
        if cell(nodes, i) == x {
            return i;
        }
    }
    n
}

// Where a machine of so many regions and the owner o goes among n nodes; `Pack::ABSENT` where it is refused or its owner is not
// there.
fn goes_to(nodes: &[u16], n: usize, regions: usize, o: usize) -> usize
    ensures { result ≡ goes_to nodes.now n regions o }
{
    if regions == 0 {
        return Pack::ABSENT;
    }
    if o == Pack::ABSENT {
        return n;
    }
    let k = find_node(nodes, n, o);
    if k < n { k } else { Pack::ABSENT }
}

// Assigns the machine i to one of n nodes, or to a new one: how many there are then.
fn assign_node(
    pack: &[u8],
    defs: &[usize],
    regcounts: &[usize],
    i: usize,
    receivers: &mut [usize],
    nodes: &mut [u16],
    n: usize,
) -> usize
    requires { n ≤ 4294967296 }
    ensures { (result ≤ n + 1) × (nodes_of receivers.new nodes.new result ≡ settled_t pack.now defs.now regcounts.now i (nodes_of receivers.old nodes.old n)) }
{
    let at = entry(defs, i);
    let g = entry(regcounts, i);
    let m = number(pack, at);
    let o = number(pack, m.next);
    let k = goes_to(nodes, n, g, o.value);
    put(receivers, i, k);
    if k == n {
        put_cell(nodes, n, m.value);
        return n + 1;
    }
    n
}

// The same for the first `count` machines, where there are `old` nodes before.
pub fn assign_nodes(
    pack: &[u8],
    defs: &[usize],
    regcounts: &[usize],
    count: usize,
    receivers: &mut [usize],
    nodes: &mut [u16],
    old: usize,
) -> usize
    requires { (count ≤ word_range) × (old ≤ word_range) }
    ensures { nodes_of receivers.new nodes.new result ≡ settle_t pack.now defs.now regcounts.now count 0 (nodes_of receivers.old nodes.old old) }
{
    let mut n = old;
    for i in 0..count {
        n = assign_node(pack, defs, regcounts, i, receivers, nodes, n);
    }
    n
}

// Whether the machine i is refused, as a number.
fn refused(receivers: &[usize], i: usize) -> usize
    ensures { (result ≤ 1) × (result ≡ refused_t receivers.now i) }
{
    let e = entry(receivers, i);
    if e == Pack::ABSENT { 1 } else { 0 }
}

// How many of the first n machines are refused.
pub fn refused_count(receivers: &[usize], n: usize) -> usize
    requires { n ≤ word_range }
    ensures { result ≡ total_t (refused_t receivers.now) n 0 }
{
    let mut c = 0;
    for i in 0..n {
        c += refused(receivers, i);
    }
    c
}
