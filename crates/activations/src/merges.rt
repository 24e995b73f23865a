// Outputs, merged from the scopes.
ghost use Rattle.std.specs.Prelude.{List, ◌≡◌, ◌<◌, ◌≤◌, ◌^◌, length};
ghost use Rattle.wire.specs.Writer.{state_of};
ghost use Rattle.pack_rules.specs.Names.{Name};
ghost use Rattle.pack_rules.specs.Syntax.{Expr, e_var};
ghost use Rattle.pack_rules.specs.Write.{expr_items};
ghost use Rattle.pack.specs.Intern.{render};
ghost use Rattle.pack_rules.specs.Limits.{max_bytes};
ghost use Rattle.activation_rules.specs.MadeNames.{value_var};
ghost use Rattle.activations.specs.Vars.{scope_at};
ghost use Rattle.activation_rules.specs.Merges.{merge_from};
ghost use Rattle.activations.specs.ByNumber.{merge_head_items, merge_items, port_merges_t};

use crate::made_names::{Var, put_value, put_var};
use machines::checked_read::{after_port, number};
use machines::layout::pack_name;
use wire::writer::{Writer, put_byte, put_u16};

// What the scope k of n branches gives o, as an expression.
fn put_scope_value(
    old: &[u8],
    a: &[u8],
    n: usize,
    k: usize,
    o: &[u8],
    out: &mut [u8],
    made: &mut [u8],
    writer: Writer,
) -> Writer
    ensures { state_of out.new made.new result ≡ render old.now (expr_items (e_var (value_var a.now (scope_at n k) o.now))) (state_of out.old made.old writer) }
{
    let c = put_byte(out, writer, 1);
    put_value(old, a, n, k, o, out, made, c)
}

// The merge of the branch k of n, up to its last argument.
fn put_merge_head(
    old: &[u8],
    a: &[u8],
    n: usize,
    k: usize,
    o: &[u8],
    out: &mut [u8],
    made: &mut [u8],
    writer: Writer,
) -> Writer
    requires { k < 2 ^ 63 }
    ensures { state_of out.new made.new result ≡ render old.now (merge_head_items a.now o.now n k) (state_of out.old made.old writer) }
{
    let c = put_byte(out, writer, 15);
    let d = put_var(old, a, Var::Clock, k, out, made, c);
    put_scope_value(old, a, n, k, o, out, made, d)
}

// The output o from the scopes of n branches and the else scope.
fn put_merged(
    old: &[u8],
    a: &[u8],
    n: usize,
    o: &[u8],
    out: &mut [u8],
    made: &mut [u8],
    writer: Writer,
) -> Writer
    requires { n < 2 ^ 63 }
    ensures { (cs : List Expr) → length cs ≡ n → state_of out.new made.new result ≡ render old.now (expr_items (merge_from a.now o.now 0 cs)) (state_of out.old made.old writer) }
{
    let mut v = writer;
    for k in 0..n {
        if v.full {
            break;
        }
        v = put_merge_head(old, a, n, k, o, out, made, v);
    }
    put_scope_value(old, a, n, n, o, out, made, v)
}

// The equation of the output o, whose index among the names is x.
pub fn put_merge(
    old: &[u8],
    a: &[u8],
    n: usize,
    x: usize,
    o: &[u8],
    out: &mut [u8],
    made: &mut [u8],
    writer: Writer,
) -> Writer
    requires { n < 2 ^ 63 }
    ensures { (cs : List Expr) → length cs ≡ n → state_of out.new made.new result ≡ render old.now (merge_items a.now x o.now cs) (state_of out.old made.old writer) }
{
    let c = put_u16(out, writer, 1);
    let d = put_u16(out, c, x);
    put_merged(old, a, n, o, out, made, d)
}

// The equations of the outputs whose count stands at `at`.
pub fn put_merges(
    old: &[u8],
    pack: &[u8],
    names: usize,
    offsets: &[u16],
    a: &[u8],
    count: usize,
    at: usize,
    out: &mut [u8],
    made: &mut [u8],
    writer: Writer,
) -> Writer
    requires pack_len_bound { length pack.now ≤ max_bytes }
    requires count_bound { count < 2 ^ 63 }
    ensures { (ns : List Name) → length ns ≡ names → (cs : List Expr) → length cs ≡ count → state_of out.new made.new result ≡ render old.now (port_merges_t ns pack.now offsets.now a.now cs at) (state_of out.old made.old writer) }
{
    let c = number(pack, at);
    let mut p = c.next;
    let mut v = writer;
    for _ in 0..c.value {
        if v.full {
            break;
        }
        let x = number(pack, p);
        v = put_merge(
            old,
            a,
            count,
            x.value,
            pack_name(pack, offsets, x.value),
            out,
            made,
            v,
        );
        p = after_port(pack, names, p);
    }
    v
}
