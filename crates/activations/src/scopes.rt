// The equations of scopes, branch by branch and the else scope last. Of each equation of a scope: the samples of what it reads that the
// scope has not sampled yet, then its value, the right side over samples (`over_samples`). Two tables of numbers of names:
//   reads     what the equation reads, each once, in order
//   sampled   what the scope has sampled so far
ghost use Rattle.std.specs.Prelude.{List, [], ◌∷◌, ◌≡◌, ◌<◌, ◌^◌, ◌≤◌, length};
ghost use Rattle.wire.specs.Writer.{state_of};
ghost use Rattle.pack.specs.Intern.{render};
ghost use Rattle.activations.specs.ScopesAt.{equation_t, new_items, sample_items, scope_t, scopes_t, value_items};
ghost use Rattle.wire.specs.Bytes.{word_range};
ghost use Rattle.pack_rules.specs.Names.{Name};
ghost use Rattle.pack_rules.specs.Limits.{max_bytes};

use crate::flags::put_onto;
use crate::free_vars::{is_in, join, list_reads};
use crate::made_names::put_value;
use crate::name_ids::{put_id, put_sample_of};
use crate::over_samples::put_over_samples;
use crate::pack_info::PackInfo;
use crate::parts::{after_branch, branch_equations, first_left, right_side};
use machines::checked_read::{after_expr, number};
use machines::layout::pack_name;
use wire::writer::{Writer, put_byte, put_u16};

// --- The samples that are new in a scope.

// The equation of the sample of x in the scope k of n branches.
fn put_sample_equation(
    old: &[u8],
    pack: &[u8],
    offsets: &[u16],
    names: usize,
    a: &[u8],
    n: usize,
    k: usize,
    x: usize,
    out: &mut [u8],
    made: &mut [u8],
    writer: Writer,
) -> Writer
    requires { n < 2 ^ 63 }
    ensures { state_of out.new made.new result ≡ render old.now (sample_items pack.now offsets.now names a.now n k x) (state_of out.old made.old writer) }
{
    let c = put_u16(out, writer, 1);
    let d = put_sample_of(old, pack, offsets, names, a, n, k, x, out, made, c);
    let e = put_onto(old, a, n, k, out, made, d);
    let f = put_byte(out, e, 1);
    put_id(old, pack, offsets, names, a, x, out, made, f)
}

// The same, where x is not among those sampled before; a full writer needs no search.
fn put_new_sample(
    old: &[u8],
    pack: &[u8],
    offsets: &[u16],
    names: usize,
    a: &[u8],
    n: usize,
    k: usize,
    sampled: &[u16],
    x: usize,
    out: &mut [u8],
    made: &mut [u8],
    writer: Writer,
) -> Writer
    requires { n < 2 ^ 63 }
    ensures { state_of out.new made.new result ≡ render old.now (new_items pack.now offsets.now names a.now n k sampled.now (x ∷ [])) (state_of out.old made.old writer) }
{
    if writer.full {
        return writer;
    }
    if is_in(sampled, x) {
        return writer;
    }
    put_sample_equation(old, pack, offsets, names, a, n, k, x, out, made, writer)
}

// The equations of those of the numbers that are not among those sampled before.
pub fn put_new_samples(
    old: &[u8],
    pack: &[u8],
    offsets: &[u16],
    names: usize,
    a: &[u8],
    n: usize,
    k: usize,
    sampled: &[u16],
    ids: &[u16],
    out: &mut [u8],
    made: &mut [u8],
    writer: Writer,
) -> Writer
    requires { n < 2 ^ 63 }
    ensures { state_of out.new made.new result ≡ render old.now (new_items pack.now offsets.now names a.now n k sampled.now ids.now) (state_of out.old made.old writer) }
{
    let mut v = writer;
    for id in ids {
        let x = usize::from(*id);
        v = put_new_sample(old, pack, offsets, names, a, n, k, sampled, x, out, made, v);
    }
    v
}

// The left side of the equation at p, in the scope k of n branches.
fn put_left_value(
    old: &[u8],
    pack: &[u8],
    offsets: &[u16],
    names: usize,
    a: &[u8],
    n: usize,
    k: usize,
    p: usize,
    out: &mut [u8],
    made: &mut [u8],
    writer: Writer,
) -> Writer
    ensures { state_of out.new made.new result ≡ render old.now (value_items pack.now offsets.now names a.now n k p) (state_of out.old made.old writer) }
{
    let c = put_u16(out, writer, 1);
    let x = first_left(pack, p);
    let o = pack_name(pack, offsets, x);
    put_value(old, a, n, k, o, out, made, c)
}

// The equation at p, which reads these, after the samples that are new.
#[tactic(auto, unfolding(crate::specs::ScopesAt::equation_t))]
fn put_equation(
    old: &[u8],
    pack: &[u8],
    offsets: &[u16],
    info: PackInfo,
    lasts: &[u16],
    rows: usize,
    a: &[u8],
    n: usize,
    k: usize,
    ids: &[u16],
    sampled: &[u16],
    p: usize,
    out: &mut [u8],
    made: &mut [u8],
    writer: Writer,
) -> Writer
    requires pack_len_bound { length pack.now ≤ max_bytes }
    requires rows_lt_word_range { rows < word_range }
    requires n_bound { n < 2 ^ 63 }
    ensures { (ns : List Name) → length ns ≡ info.names → state_of out.new made.new result ≡ equation_t old.now pack.now offsets.now info.names info.made ns info.last lasts.now rows a.now n k ids.now sampled.now p (state_of out.old made.old writer) }
{
    let c = put_new_samples(
        old, pack, offsets, info.names, a, n, k, sampled, ids, out, made, writer,
    );
    let d = put_left_value(old, pack, offsets, info.names, a, n, k, p, out, made, c);
    let e = right_side(pack, info.names, p);
    put_over_samples(
        old, pack, offsets, info, a, n, k, ids, lasts, rows, e, out, made, d,
    )
}

// The scope k of n branches, whose count of equations stands at `at`.
fn put_scope_equations(
    old: &[u8],
    pack: &[u8],
    offsets: &[u16],
    info: PackInfo,
    lasts: &[u16],
    rows: usize,
    types: &[u16],
    outs: &[u16],
    a: &[u8],
    n: usize,
    k: usize,
    at: usize,
    reads: &mut [u16],
    sampled: &mut [u16],
    out: &mut [u8],
    made: &mut [u8],
    writer: Writer,
) -> Writer
    requires pack_len_bound { length pack.now ≤ max_bytes }
    requires rows_lt_word_range { rows < word_range }
    requires n_bound { n < 2 ^ 63 }
    requires in_bounds { 21848 ≤ length reads.old }
    requires in_bounds_2 { 21848 ≤ length sampled.old }
    ensures { (ns : List Name) → length ns ≡ info.names → state_of out.new made.new result ≡ scope_t old.now pack.now offsets.now info.names info.made ns info.last lasts.now rows types.now outs.now a.now n k at (state_of out.old made.old writer) }
{
    let f = number(pack, at);
    let mut v = writer;
    let mut p = f.next;
    let mut m = 0;
    for _ in 0..f.value {
        if v.full {
            break;
        }
        let e = right_side(pack, info.names, p);
        let r = list_reads(pack, info, lasts, rows, types, outs, e, reads);
        v = put_equation(
            old,
            pack,
            offsets,
            info,
            lasts,
            rows,
            a,
            n,
            k,
            &reads[..r],
            &sampled[..m],
            p,
            out,
            made,
            v,
        );
        m = join(&reads[..r], sampled, m);
        p = after_expr(pack, info.names, e);
    }
    v
}

// The scopes of the n branches whose count stands at `branches`, and the else scope.
pub fn put_scopes(
    old: &[u8],
    pack: &[u8],
    offsets: &[u16],
    info: PackInfo,
    lasts: &[u16],
    rows: usize,
    types: &[u16],
    outs: &[u16],
    a: &[u8],
    n: usize,
    branches: usize,
    other: usize,
    reads: &mut [u16],
    sampled: &mut [u16],
    out: &mut [u8],
    made: &mut [u8],
    writer: Writer,
) -> Writer
    requires pack_len_bound { length pack.now ≤ max_bytes }
    requires rows_lt_word_range { rows < word_range }
    requires n_bound { n < 2 ^ 63 }
    requires in_bounds { 21848 ≤ length reads.old }
    requires in_bounds_2 { 21848 ≤ length sampled.old }
    ensures { (ns : List Name) → length ns ≡ info.names → state_of out.new made.new result ≡ scopes_t old.now pack.now offsets.now info.names info.made ns info.last lasts.now rows types.now outs.now a.now n branches other (state_of out.old made.old writer) }
{
    let f = number(pack, branches);
    let mut v = writer;
    let mut p = f.next;
    for k in 0..n {
        if v.full {
            break;
        }
        let e = branch_equations(pack, info.names, p);
        v = put_scope_equations(
            old, pack, offsets, info, lasts, rows, types, outs, a, n, k, e, reads, sampled, out,
            made, v,
        );
        p = after_branch(pack, info.names, p);
    }
    put_scope_equations(
        old, pack, offsets, info, lasts, rows, types, outs, a, n, n, other, reads, sampled, out,
        made, v,
    )
}
