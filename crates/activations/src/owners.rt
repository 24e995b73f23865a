// Where the nodes and activations of a pack stand, and whose each activation is. Nodes are a table of offsets. Activations are a table
// of six columns of 6,656 words, the activation i being the row i: one takes at least 10 bytes, so that a pack has at most 6,553.
//   0               where it stands
//   NODE            the index of its owner among the nodes
//   KIND            what is refused of it, 0 for nothing; refused for its owner until it is judged
//   SECOND, THIRD   the names of the refusal
//   LOCALS          how many locals it makes
ghost use Rattle.std.specs.Prelude.{unwrap_or, List, ◌≡◌, ◌+◌, ◌<◌, ◌≤◌, length};
ghost use Rattle.wire.specs.Bytes.{word_range};
ghost use Rattle.pack_rules.specs.Names.{Name};
ghost use Rattle.pack_rules.specs.Limits.{max_bytes};
ghost use Rattle.activations.specs.Cells.{put_t};
ghost use Rattle.activations.specs.Places.{act_at};
ghost use Rattle.activations.specs.ActTable.{goal_t, judged_t, made_t, refusal_t, spot_t};
ghost use Rattle.machines.specs.CheckedReads.{number_in};
ghost use Rattle.activations.specs.OwnersAt.{draw_t, named_t, place_acts_t, place_nodes_t};

use crate::cells::{put_word, word};
use crate::checks::{Refusal, Refused, refusing};
use crate::parts::{Act, act_at, after_act};
use machines::checked_read::{after_equations, number};
use machines::write_nodes::to_node_equations;
use pack::cells::{cell, put_cell};

// --- The activations of a pack in a table of six columns: where one stands, its node, its judgement (kind, two names), how many locals
// it makes.

// The columns after the first: an activation takes at least 10 bytes, so that a pack has at most 6,553.
const NODE: usize = 6656;

const KIND: usize = 13312;

const SECOND: usize = 19968;

const THIRD: usize = 26624;

const LOCALS: usize = 33280;

// Where the activation i stands.
#[tactic(auto, unfolding(crate::specs::ActTable::spot_t))]
pub fn act_spot(acts: &[u16], i: usize) -> usize
    ensures { result ≡ spot_t acts.now i }
{
    cell(acts, i)
}

// The node that it goes to.
#[tactic(auto, unfolding(crate::specs::ActTable::goal_t))]
pub fn act_node(acts: &[u16], i: usize) -> usize
    ensures { (result < word_range) × (result ≡ goal_t acts.now i) }
{
    word(acts, NODE, i)
}

// How many locals it makes.
#[tactic(auto, unfolding(crate::specs::ActTable::made_t))]
pub fn act_locals(acts: &[u16], i: usize) -> usize
    ensures { (result < word_range) × (result ≡ made_t acts.now i) }
{
    word(acts, LOCALS, i)
}

// What was judged of it.
#[tactic(auto, unfolding(crate::specs::ActTable::refusal_t))]
pub fn judged(acts: &[u16], i: usize) -> Refused
    ensures { result ≡ refusal_t acts.now i }
{
    let kind = word(acts, KIND, i);
    let second = word(acts, SECOND, i);
    let third = word(acts, THIRD, i);
    refusing(kind, second, third)
}

// Its parts.
pub fn act_of(pack: &[u8], names: usize, acts: &[u16], i: usize) -> Act
    requires { length pack.now ≤ max_bytes }
    ensures few { result.n < word_range }
    ensures parts { (ns : List Name) → length ns ≡ names → result ≡ act_at ns pack.now (spot_t acts.now i) }
{
    let at = act_spot(acts, i);
    act_at(pack, names, at)
}

// Where it stands now, and its node.
#[tactic(auto, unfolding(crate::specs::Cells::put_t))]
pub fn put_spot(acts: &mut [u16], i: usize, at: usize, node: usize)
    ensures { acts.new ≡ put_t (put_t acts.old i at) (6656 + i) node }
{
    put_cell(acts, i, at);
    put_word(acts, NODE, i, node);
}

// What is judged of it now.
#[tactic(auto, unfolding(crate::specs::ActTable::judged_t))]
pub fn put_judged(acts: &mut [u16], i: usize, r: Refused, locals: usize)
    ensures { acts.new ≡ judged_t acts.old i r locals }
{
    put_word(acts, KIND, i, r.kind);
    put_word(acts, SECOND, i, r.second);
    put_word(acts, THIRD, i, r.third);
    put_word(acts, LOCALS, i, locals);
}

// Where the nodes stand, whose count is at `at`. Answers how many there are.
pub fn place_nodes(pack: &[u8], names: usize, at: usize, nodes: &mut [u16]) -> usize
    requires { length pack.now ≤ max_bytes }
    ensures count { (result < word_range) × (result ≡ (number_in pack.now at).value) }
    ensures placed { (ns : List Name) → length ns ≡ names → nodes.new ≡ place_nodes_t ns pack.now at nodes.old }
{
    let c = number(pack, at);
    let mut p = c.next;
    for k in 0..c.value {
        put_cell(nodes, k, p);
        let e = to_node_equations(pack, names, p);
        p = after_equations(pack, names, e);
    }
    c.value
}

// The first of n nodes of the name x.
fn node_named(pack: &[u8], nodes: &[u16], n: usize, x: usize) -> Option<usize>
    ensures { unwrap_or result n ≡ named_t pack.now nodes.now n x }
{
    for k in 0..n {
        let at = cell(nodes, k);
        let i = number(pack, at);
        if i.value == x {
            return Some(k);
        }
    }
    None
}

// The activation at p, among n nodes, is that of the row i. It is refused for its owner until it is judged.
#[tactic(auto, unfolding(crate::specs::Refusing::RoomFor))]
fn draw(pack: &[u8], names: usize, nodes: &[u16], n: usize, acts: &mut [u16], i: usize, p: usize)
    ensures { acts.new ≡ draw_t names pack.now nodes.now n i p acts.old }
{
    let a = number(pack, p);
    let o = number(pack, a.next);
    let k = node_named(pack, nodes, n, o.value).unwrap_or(n);
    let r = Refusal::UnknownOwner(o.value);
    put_spot(acts, i, p, k);
    put_judged(acts, i, r.numbers(names), 0);
}

// Where the activations stand, whose count is at `at`, and the node of each among n nodes. Answers how many there are.
pub fn place_acts(
    pack: &[u8],
    names: usize,
    at: usize,
    nodes: &[u16],
    n: usize,
    acts: &mut [u16],
) -> usize
    requires { length pack.now ≤ max_bytes }
    ensures count { (result < word_range) × (result ≡ (number_in pack.now at).value) }
    ensures placed { (ns : List Name) → length ns ≡ names → acts.new ≡ place_acts_t ns pack.now nodes.now n at acts.old }
{
    let c = number(pack, at);
    let mut p = c.next;
    for i in 0..c.value {
        draw(pack, names, nodes, n, acts, i, p);
        p = after_act(pack, names, p);
    }
    c.value
}
