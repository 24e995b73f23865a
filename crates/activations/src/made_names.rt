// The names that lowering an activation makes.
ghost use Rattle.std.specs.Prelude.{List, [], ◌∷◌, ◌++◌, ◌≡◌, ℕ, suc, ◌<◌, ◌^◌};
ghost use Rattle.wire.specs.Decimal.{decimal};
ghost use Rattle.wire.specs.Writer.{state_of, puts};
ghost use Rattle.pack.specs.Intern.{put_name};
ghost use Rattle.activation_rules.specs.MadeNames.{act_prefix, last_var, sample_var, tag, value_var};
ghost use Rattle.activations.specs.Vars.{branch_var, scope_at};

use pack::intern::put_built;
use pack::record::Pack;
use wire::writer::{Writer, put_bytes, put_digits};

// A variable made for a branch.
#[derive(Clone, Copy)]
pub enum Var {
    Flag,
    Untaken,
    Clock,
}

// `__act_` and the activation's name a.
#[tactic(auto, unfolding(wire::specs::Writer::puts, activation_rules::specs::MadeNames::act_prefix))]
fn put_start(out: &mut [u8], writer: Writer, a: &[u8]) -> Writer
    ensures { (m : List ℕ) → state_of out.new m result ≡ puts (act_prefix ++ a.now) (state_of out.old m writer) }
{
    let b = put_bytes(b"__act_", out, writer);
    put_bytes(a, out, b)
}

// The text of the name of the holder of v.
pub fn put_last_text(out: &mut [u8], writer: Writer, a: &[u8], v: &[u8]) -> Writer
    ensures { (m : List ℕ) → state_of out.new m result ≡ puts (last_var a.now v.now) (state_of out.old m writer) }
{
    let b = put_start(out, writer, a);
    let c = put_bytes(b"_last_", out, b);
    put_bytes(v, out, c)
}

// The holder of v, by its number among the names.
pub fn put_last(
    old: &[u8],
    a: &[u8],
    v: &[u8],
    out: &mut [u8],
    made: &mut [u8],
    writer: Writer,
) -> Writer
    ensures { state_of out.new made.new result ≡ put_name old.now (last_var a.now v.now) (state_of out.old made.old writer) }
{
    let mut buf = [0u8; Pack::NAME];
    let t = put_last_text(&mut buf, Writer::start(), a, v);
    put_built(old, &buf, t, out, made, writer)
}

// `__act_<a>`, some letters, and the number of the branch k.
fn put_numbered(out: &mut [u8], writer: Writer, a: &[u8], letters: &[u8], k: usize) -> Writer
    requires { k < 2 ^ 63 }
    ensures { (m : List ℕ) → state_of out.new m result ≡ puts (act_prefix ++ (a.now ++ (letters.now ++ decimal (suc k)))) (state_of out.old m writer) }
{
    let b = put_start(out, writer, a);
    let c = put_bytes(letters, out, b);
    put_digits(out, c, k + 1)
}

// The text of the name of a branch's variable; the clock of the first branch is its flag.
pub fn put_branch_text(out: &mut [u8], writer: Writer, a: &[u8], v: Var, k: usize) -> Writer
    requires { k < 2 ^ 63 }
    ensures { (m : List ℕ) → state_of out.new m result ≡ puts (branch_var v a.now k) (state_of out.old m writer) }
{
    match v {
        Var::Flag => put_numbered(out, writer, a, b"_b", k),
        Var::Untaken => put_numbered(out, writer, a, b"_n", k),
        Var::Clock => {
            if k == 0 {
                return put_numbered(out, writer, a, b"_b", k);
            }
            put_numbered(out, writer, a, b"_g", k)
        }
    }
}

// A branch's variable, by its number among the names.
pub fn put_var(
    old: &[u8],
    a: &[u8],
    v: Var,
    k: usize,
    out: &mut [u8],
    made: &mut [u8],
    writer: Writer,
) -> Writer
    requires { k < 2 ^ 63 }
    ensures { state_of out.new made.new result ≡ put_name old.now (branch_var v a.now k) (state_of out.old made.old writer) }
{
    let mut buf = [0u8; Pack::NAME];
    let t = put_branch_text(&mut buf, Writer::start(), a, v, k);
    put_built(old, &buf, t, out, made, writer)
}

// The tag of the scope k of n branches; what follows the branches is the else scope.
#[tactic(auto, unfolding(activation_rules::specs::MadeNames::tag, crate::specs::Vars::scope_at))]
fn put_tag(out: &mut [u8], writer: Writer, n: usize, k: usize) -> Writer
    ensures { (m : List ℕ) → state_of out.new m result ≡ puts (tag (scope_at n k)) (state_of out.old m writer) }
{
    if k < n {
        put_digits(out, writer, k + 1)
    } else {
        put_bytes(b"e", out, writer)
    }
}

// `__act_<a>`, some letters, the scope's tag, an underscore and the name v.
fn put_scoped(
    out: &mut [u8],
    writer: Writer,
    a: &[u8],
    letters: &[u8],
    n: usize,
    k: usize,
    v: &[u8],
) -> Writer
    ensures { (m : List ℕ) → state_of out.new m result ≡ puts (act_prefix ++ (a.now ++ (letters.now ++ (tag (scope_at n k) ++ (95 ∷ v.now))))) (state_of out.old m writer) }
{
    let b = put_start(out, writer, a);
    let c = put_bytes(letters, out, b);
    let d = put_tag(out, c, n, k);
    let e = put_bytes(b"_", out, d);
    put_bytes(v, out, e)
}

// How the names of the samples in the scope k of n branches begin: all but the variable's name.
pub fn put_sample_start(out: &mut [u8], writer: Writer, a: &[u8], n: usize, k: usize) -> Writer
    ensures { (m : List ℕ) → state_of out.new m result ≡ puts (sample_var a.now (scope_at n k) []) (state_of out.old m writer) }
{
    put_scoped(out, writer, a, b"_s", n, k, b"")
}

// The text of the name of what the scope k of n branches gives o.
pub fn put_value_text(
    out: &mut [u8],
    writer: Writer,
    a: &[u8],
    n: usize,
    k: usize,
    o: &[u8],
) -> Writer
    ensures { (m : List ℕ) → state_of out.new m result ≡ puts (value_var a.now (scope_at n k) o.now) (state_of out.old m writer) }
{
    put_scoped(out, writer, a, b"_x", n, k, o)
}

// What the scope k of n branches gives o, by its number among the names.
pub fn put_value(
    old: &[u8],
    a: &[u8],
    n: usize,
    k: usize,
    o: &[u8],
    out: &mut [u8],
    made: &mut [u8],
    writer: Writer,
) -> Writer
    ensures { state_of out.new made.new result ≡ put_name old.now (value_var a.now (scope_at n k) o.now) (state_of out.old made.old writer) }
{
    let mut buf = [0u8; Pack::NAME];
    let t = put_value_text(&mut buf, Writer::start(), a, n, k, o);
    put_built(old, &buf, t, out, made, writer)
}
