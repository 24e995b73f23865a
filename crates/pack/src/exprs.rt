// Expressions: a loop over nodes in preorder, since an expression may nest as deep as the pack is long.
#![tactic(auto, unfolding(wire::specs::Answer::bind, wire::specs::Answer::map_a, wire::specs::Code::read_of, wire::specs::Code::skip, pack_rules::specs::Forms::literal, pack_rules::specs::Forms::literal_of, pack_rules::specs::Forms::call_fields, pack_rules::specs::Forms::struct_fields, pack_rules::specs::Forms::when_fields, pack_rules::specs::Forms::iterate_fields, pack_rules::specs::Forms::expr_arity, crate::specs::Nodes::named_of, crate::specs::Nodes::by_tag, crate::specs::Heads::expr_more, pack_rules::specs::Forms::expr_head))]

ghost use Rattle.std.specs.Prelude.{◌≡◌, ◌≤◌, List, length};
ghost use Rattle.wire.specs.Answer.{map_a, index, many};
ghost use Rattle.wire.specs.Code.{read_of, skip};
ghost use Rattle.pack_rules.specs.Forms.{literal, expr_arity, call_fields, struct_fields, when_fields, iterate_fields, expr_fields, expr_head, expr_at};
ghost use Rattle.pack.specs.Heads.{expr_more, expr_left};
ghost use Rattle.pack.specs.Nodes.{decoded, named_of};
ghost use Rattle.pack_rules.specs.Names.{Name};
ghost use Rattle.pack_rules.specs.Read.{expr_in};
ghost use Rattle.pack_rules.specs.Limits.{max_bytes};

use crate::types::skip_type;
use wire::answer::{Number, Read, Skipped, Stop};
use wire::number::{read_below, read_byte, read_index, read_u16, skip_u64};

// A node taken apart: the names that a lowering looks at, and how many expressions stand under it.
#[derive(Clone, Copy, Debug, PartialEq, Eq)]
pub enum Node {
    Var(usize),
    Clocked { clock: usize, under: usize },
    Call { node: usize, under: usize },
    Other(usize),
}

// A node, and the offset of what stands under it.
#[derive(Clone, Copy, Debug, PartialEq, Eq)]
pub struct Decoded {
    pub node: Node,
    pub next: usize,
}

// As many name indexes as count says.
pub fn skip_indexes(pack: &[u8], names: usize, count: usize, at: usize) -> Skipped
    ensures { result ≡ skip (many (index names pack.now) count at) }
{
    let mut p = at;
    for _ in 0..count {
        p = read_index(pack, names, p)?.next;
    }
    Ok(p)
}

// A literal: its tag, then its value.
fn skip_literal(pack: &[u8], at: usize) -> Skipped
    ensures { result ≡ skip (literal pack.now at) }
{
    let tag = read_below(pack, 4, at)?;
    match tag.value {
        0 => Ok(read_below(pack, 2, tag.next)?.next),
        1 => skip_u64(pack, tag.next),
        2 => skip_u64(pack, tag.next),
        _ => Ok(read_byte(pack, tag.next)?.next),
    }
}

// A call's node and the count of its arguments.
fn call_fields(pack: &[u8], names: usize, at: usize) -> Read
    ensures { result ≡ read_of (map_a expr_arity (call_fields names pack.now at)) }
{
    let node = read_index(pack, names, at)?;
    read_u16(pack, node.next)
}

// A struct's type, and its field names after their count.
fn struct_fields(pack: &[u8], names: usize, at: usize) -> Read
    ensures { result ≡ read_of (map_a expr_arity (struct_fields names pack.now at)) }
{
    let name = read_index(pack, names, at)?;
    let count = read_u16(pack, name.next)?;
    let next = skip_indexes(pack, names, count.value, count.next)?;
    Ok(Number { next, ..count })
}

// A clock and the flag at which its argument is there.
fn when_fields(pack: &[u8], names: usize, at: usize) -> Read
    ensures { result ≡ read_of (map_a expr_arity (when_fields names pack.now at)) }
{
    let clock = read_index(pack, names, at)?;
    let flag = read_below(pack, 2, clock.next)?;
    Ok(Number { value: 1, ..flag })
}

// An iterate's kind, node and flag for an initial value, which is one more sub-expression than the arrays counted after it.
fn iterate_fields(pack: &[u8], names: usize, at: usize) -> Read
    ensures { result ≡ read_of (map_a expr_arity (iterate_fields names pack.now at)) }
{
    let kind = read_below(pack, 2, at)?;
    let node = read_index(pack, names, kind.next)?;
    let initial = read_below(pack, 2, node.next)?;
    let arrays = read_u16(pack, initial.next)?;
    Ok(Number {
        value: initial.value + arrays.value,
        next: arrays.next,
    })
}

// How many expressions stand under a node of this tag.
#[tactic(auto)]
fn expr_fields(pack: &[u8], names: usize, tag: usize, at: usize) -> Read
    requires { length pack.now ≤ max_bytes }
    ensures { result ≡ read_of (map_a expr_arity (expr_fields names tag pack.now at)) }
{
    let (value, next) = match tag {
        0 => (0, skip_literal(pack, at)?),
        1 => (0, read_index(pack, names, at)?.next),
        2 => (1, read_below(pack, 2, at)?.next),
        3 => (2, read_below(pack, 20, at)?.next),
        4 => (3, at),
        5 => (1, at),
        6 => (2, at),
        7 => return call_fields(pack, names, at),
        8 => (1, read_index(pack, names, at)?.next),
        9 => (2, at),
        10 => return read_u16(pack, at),
        11 => return read_u16(pack, at),
        12 => return struct_fields(pack, names, at),
        13 => (1, skip_type(pack, names, at)?),
        14 => return when_fields(pack, names, at),
        15 => (2, read_index(pack, names, at)?.next),
        16 => return iterate_fields(pack, names, at),
        _ => return Err(Stop::Illegal(at)),
    };
    Ok(Number { value, next })
}

// How many expressions stand under the node at an offset.
fn expr_head(pack: &[u8], names: usize, at: usize) -> Read
    requires { length pack.now ≤ max_bytes }
    ensures { result ≡ read_of (expr_more names pack.now at) }
{
    let tag = read_below(pack, 17, at)?;
    expr_fields(pack, names, tag.value, tag.next)
}

// The first node of an expression, or all its nodes: how many expressions are to come after what was read. One function does both,
// since the fields of 17 tags are compiled into the loop only where nothing else calls them.
fn expr_nodes(pack: &[u8], names: usize, one: bool, at: usize) -> Read
    requires { length pack.now ≤ max_bytes }
    ensures { result ≡ read_of (expr_left one names pack.now at) }
{
    let mut n = 1;
    let mut p = at;
    while 0 < n {
        let head = expr_head(pack, names, p)?;
        if one {
            return Ok(head);
        }
        n = n - 1 + head.value;
        p = head.next;
    }
    Ok(Number { value: 0, next: p })
}

// A node of this tag, by the number that its fields begin with where that is a name to look at.
fn named(tag: usize, under: usize, first: Read) -> Node
    ensures { result ≡ named_of tag under first }
{
    let Ok(name) = first else {
        return Node::Other(under);
    };
    match tag {
        1 => Node::Var(name.value),
        7 => Node::Call {
            node: name.value,
            under,
        },
        14 => Node::Clocked {
            clock: name.value,
            under,
        },
        15 => Node::Clocked {
            clock: name.value,
            under,
        },
        _ => Node::Other(under),
    }
}

// The node at an offset.
pub fn read_node(pack: &[u8], names: usize, at: usize) -> Result<Decoded, Stop>
    requires { length pack.now ≤ max_bytes }
    ensures { result ≡ decoded (expr_head names pack.now at) }
{
    let head = expr_nodes(pack, names, true, at)?;
    let tag = usize::from(pack[at]);
    Ok(Decoded {
        node: named(tag, head.value, read_u16(pack, at + 1)),
        next: head.next,
    })
}

// An expression, with all its nodes.
pub fn skip_expr(pack: &[u8], names: usize, at: usize) -> Skipped
    requires { length pack.now ≤ max_bytes }
    ensures by_number { result ≡ skip (expr_at names pack.now at) }
    ensures by_names { (ns : List Name) → length ns ≡ names → result ≡ skip (expr_in ns pack.now at) }
{
    Ok(expr_nodes(pack, names, false, at)?.next)
}
