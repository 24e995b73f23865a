// A node of an expression as lowering meets it. Calls of `last` are told apart here. Every pass over an expression is a loop that
// meets its nodes in preorder; it does not enter a call that is replaced.
ghost use Rattle.std.specs.Prelude.{List, ◌≡◌, ◌≤◌, ◌<◌, length};
ghost use Rattle.pack_rules.specs.Names.{Name};
ghost use Rattle.pack_rules.specs.Limits.{max_bytes};
ghost use Rattle.activations.specs.ExprNodes.{last_two_t, last_rest_t, last_shape_t, call_t, plain_t, expr_node_at, grown_t, open_t, onward_t, is_bad, is_const};

use crate::pack_info::PackInfo;
use machines::checked_read::after_expr;
use pack::cells::byte_at;
use pack::exprs::{Decoded, Node, read_node};
use pack::record::Pack;

// A call of `last` that is replaced, with its variable, where its initial value stands (0 where none is given) and where it
// ends; one with other arguments; a constant; a variable; a node with its clock; any other node, with how many expressions stand
// under it and where they begin. Nothing is met where reading stops.
#[derive(Clone, Copy)]
pub enum ExprNode {
    Last {
        var: usize,
        init: usize,
        next: usize,
    },
    Bad {
        under: usize,
        next: usize,
    },
    Const(usize),
    Var {
        name: usize,
        next: usize,
    },
    Clocked {
        clock: usize,
        under: usize,
        next: usize,
    },
    Other {
        under: usize,
        next: usize,
    },
    Nothing,
}

// A call of `last` with an initial value from `at` up to e: where e is not past `at` it was not read.
#[tactic(auto, unfolding(crate::specs::ExprNodes::last_two_t))]
fn last_two(var: usize, at: usize, e: usize) -> ExprNode
    ensures { result ≡ last_two_t var at e }
{
    if at < e {
        ExprNode::Last {
            var,
            init: at,
            next: e,
        }
    } else {
        ExprNode::Nothing
    }
}

// A call of `last` with so many arguments from `first` on, which begin with the variable var; the next stands at `at`.
#[tactic(auto, unfolding(crate::specs::ExprNodes::last_rest_t))]
fn last_rest(
    pack: &[u8],
    names: usize,
    var: usize,
    under: usize,
    first: usize,
    at: usize,
) -> ExprNode
    requires { length pack.now ≤ max_bytes }
    ensures { (ns : List Name) → length ns ≡ names → result ≡ last_rest_t ns pack.now var under first at }
{
    match under {
        1 => ExprNode::Last {
            var,
            init: 0,
            next: at,
        },
        2 => last_two(var, at, after_expr(pack, names, at)),
        _ => ExprNode::Bad { under, next: first },
    }
}

// A call of `last` with so many arguments, which stand at `at`.
#[tactic(auto, unfolding(crate::specs::ExprNodes::last_shape_t, crate::specs::ExprNodes::first_t, crate::specs::ExprNodes::on_node, crate::specs::ExprNodes::on_var))]
fn last_shape(pack: &[u8], names: usize, under: usize, at: usize) -> ExprNode
    requires { length pack.now ≤ max_bytes }
    ensures { (ns : List Name) → length ns ≡ names → result ≡ last_shape_t ns pack.now under at }
{
    if under == 0 {
        return ExprNode::Bad { under, next: at };
    }
    let Ok(first) = read_node(pack, names, at) else {
        return ExprNode::Nothing;
    };
    let Node::Var(var) = first.node else {
        return ExprNode::Bad { under, next: at };
    };
    last_rest(pack, names, var, under, at, first.next)
}

// A call of the node f with so many arguments, which stand at `at`.
#[tactic(auto, unfolding(crate::specs::ExprNodes::call_t))]
fn call_kind(pack: &[u8], info: PackInfo, f: usize, under: usize, at: usize) -> ExprNode
    requires { length pack.now ≤ max_bytes }
    ensures { (ns : List Name) → length ns ≡ info.names → result ≡ call_t ns pack.now info.last f under at }
{
    if f == info.last {
        last_shape(pack, info.names, under, at)
    } else {
        ExprNode::Other { under, next: at }
    }
}

// A node of which only the number of expressions under it was read; a constant by its tag.
#[tactic(auto, unfolding(crate::specs::ExprNodes::plain_t))]
fn plain(pack: &[u8], at: usize, under: usize, next: usize) -> ExprNode
    ensures { result ≡ plain_t pack.now at under next }
{
    if byte_at(pack, at) == 0 {
        ExprNode::Const(next)
    } else {
        ExprNode::Other { under, next }
    }
}

// The node at an offset.
#[tactic(auto, unfolding(crate::specs::ExprNodes::expr_node_at, crate::specs::ExprNodes::expr_node, crate::specs::ExprNodes::on_node))]
pub fn read_expr_node(pack: &[u8], info: PackInfo, at: usize) -> ExprNode
    requires { length pack.now ≤ max_bytes }
    ensures { (ns : List Name) → length ns ≡ info.names → result ≡ expr_node_at ns pack.now info.last at }
{
    let Ok(Decoded { node, next }) = read_node(pack, info.names, at) else {
        return ExprNode::Nothing;
    };
    match node {
        Node::Var(name) => ExprNode::Var { name, next },
        Node::Clocked { clock, under } => ExprNode::Clocked { clock, under, next },
        Node::Call { node: f, under } => call_kind(pack, info, f, under, next),
        Node::Other(under) => plain(pack, at, under, next),
    }
}

// One expression less and `under` more. No pack has more to come than bytes.
#[tactic(auto, unfolding(crate::specs::ExprNodes::grown_t))]
fn grown(n: usize, under: usize) -> usize
    requires { 0 < n }
    ensures { result ≡ grown_t n under }
{
    if Pack::BYTES < n || Pack::BYTES < under {
        0
    } else {
        n - 1 + under
    }
}

// How many expressions are to come after a node, where n were with it; none where reading stopped.
#[tactic(auto, unfolding(crate::specs::ExprNodes::open_t))]
pub fn open(m: ExprNode, n: usize) -> usize
    requires { 0 < n }
    ensures { result ≡ open_t m n }
{
    match m {
        ExprNode::Last { .. } | ExprNode::Const(_) | ExprNode::Var { .. } => n - 1,
        ExprNode::Bad { under, .. }
        | ExprNode::Clocked { under, .. }
        | ExprNode::Other { under, .. } => grown(n, under),
        ExprNode::Nothing => 0,
    }
}

// Where the next node stands.
#[tactic(auto, unfolding(crate::specs::ExprNodes::onward_t))]
pub fn onward(m: ExprNode) -> usize
    ensures { result ≡ onward_t m }
{
    match m {
        ExprNode::Last { next, .. }
        | ExprNode::Bad { next, .. }
        | ExprNode::Const(next)
        | ExprNode::Var { next, .. }
        | ExprNode::Clocked { next, .. }
        | ExprNode::Other { next, .. } => next,
        ExprNode::Nothing => 0,
    }
}

// Whether it is a call of `last` with arguments that it does not take.
#[tactic(auto, unfolding(crate::specs::ExprNodes::is_bad))]
pub fn is_bad(m: ExprNode) -> bool
    ensures { result ≡ is_bad m }
{
    matches!(m, ExprNode::Bad { .. })
}

// Whether it is a constant.
#[tactic(auto, unfolding(crate::specs::ExprNodes::is_const))]
pub fn is_const(m: ExprNode) -> bool
    ensures { result ≡ is_const m }
{
    matches!(m, ExprNode::Const(_))
}
