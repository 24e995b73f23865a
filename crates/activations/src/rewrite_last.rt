// Expressions as they are written with calls of `last` replaced: what stays is copied as it stands, node by node.
ghost use Rattle.std.specs.Prelude.{List, ◌≡◌, ◌≤◌, length};
ghost use Rattle.wire.specs.Writer.{state_of};
ghost use Rattle.pack_rules.specs.Names.{Name};
ghost use Rattle.pack.specs.Intern.{render};
ghost use Rattle.pack_rules.specs.Limits.{max_bytes};
ghost use Rattle.activations.specs.RewriteLastAt.{met_items, rewrite_last_t};

use crate::expr_node::{ExprNode, onward, open, read_expr_node};
use crate::made_names::put_last;
use crate::pack_info::PackInfo;
use machines::layout::{between, pack_name, remaining};
use wire::writer::{Writer, put_byte, put_bytes};

// The node m that stands at `at`: a call of `last` becomes its holder, what is none is copied.
pub fn rewrite_node(
    old: &[u8],
    pack: &[u8],
    offsets: &[u16],
    a: &[u8],
    m: ExprNode,
    at: usize,
    out: &mut [u8],
    made: &mut [u8],
    writer: Writer,
) -> Writer
    ensures { state_of out.new made.new result ≡ render old.now (met_items pack.now offsets.now a.now m at) (state_of out.old made.old writer) }
{
    let q = onward(m);
    let ExprNode::Last { var, .. } = m else {
        let h = between(pack, at, q);
        return put_bytes(h, out, writer);
    };
    let v = pack_name(pack, offsets, var);
    let c = put_byte(out, writer, 1);
    put_last(old, a, v, out, made, c)
}

// The expression at an offset.
pub fn rewrite_last(
    old: &[u8],
    pack: &[u8],
    info: PackInfo,
    offsets: &[u16],
    a: &[u8],
    at: usize,
    out: &mut [u8],
    made: &mut [u8],
    writer: Writer,
) -> Writer
    requires { length pack.now ≤ max_bytes }
    ensures { (ns : List Name) → length ns ≡ info.names → state_of out.new made.new result ≡ rewrite_last_t ns pack.now info.last old.now offsets.now a.now at (state_of out.old made.old writer) }
{
    let mut v = writer;
    let mut n: usize = 1;
    let mut p = at;
    while 0 < n {
        let m = read_expr_node(pack, info, p);
        v = rewrite_node(old, pack, offsets, a, m, p, out, made, v);
        n = remaining(v, open(m, n));
        p = onward(m);
    }
    v
}
