// The locals of an activation, in the order of its equations without the merges: holders, flags, guards, and scope by scope the samples
// and values. Each is written, counted, and left to the owner's next activation (`later`) where its name is an old one. A full writer
// stops nothing, since what is left and counted is wanted all the same: judging counts them by a writer that is full from the start.
ghost use Rattle.std.specs.Prelude.{List, [], ◌≡◌, ◌-◌, ◌<◌, ◌^◌, ◌≤◌, length};
ghost use Rattle.wire.specs.Writer.{puts, state_of};
ghost use Rattle.wire.specs.Bytes.{word_range};
ghost use Rattle.pack_rules.specs.Names.{Name};
ghost use Rattle.pack.specs.Intern.{put_built};
ghost use Rattle.pack_rules.specs.Limits.{max_bytes};
ghost use Rattle.activations.specs.Lookups.{place_built, place_in};
ghost use Rattle.activations.specs.TypesAt.{type_bytes};
ghost use Rattle.activations.specs.LocalsAt.{act_locals_t, branch_local_t, branch_locals_t, clock_locals_t, equation_local_t, flag_locals_t, holder_local_t, holder_locals_t, leave_t, left_of, local_t, more_t, new_local_t, new_locals_t, sample_local_t, scope_locals_t, value_local_t};

use crate::free_vars::{is_in, join, list_reads};
use crate::made_names::{Var, put_branch_text, put_last_text, put_value_text};
use crate::name_ids::put_sample_text;
use crate::pack_info::{PackInfo, lookup_made};
use crate::parts::{Act, after_branch, branch_equations, first_left, right_side};
use crate::types::{put_type, typed, value_type};
use machines::checked_read::{after_expr, number};
use machines::layout::pack_name;
use pack::cells::{cell, put_cell};
use pack::intern::put_built;
use pack::record::Pack;
use wire::number::WORD_RANGE;
use wire::writer::Writer;

// The writer, and how many locals there were, by 16 bits.
#[derive(Clone, Copy)]
pub struct Passed {
    pub w: Writer,
    pub count: usize,
}

// One local more, by 16 bits.
#[tactic(auto, unfolding(crate::specs::LocalsAt::more_t))]
fn one_more(n: usize) -> usize
    ensures { result ≡ more_t n }
{
    (n % WORD_RANGE + 1) % WORD_RANGE
}

// The type's code c for a made name, where that is an old one.
#[tactic(auto, unfolding(crate::specs::LocalsAt::leave_t, crate::specs::Lookups::place_built, crate::specs::Lookups::place_in, crate::specs::Cells::put_t))]
fn leave(old: &[u8], info: PackInfo, buf: &[u8], t: Writer, c: usize, later: &mut [u16])
    ensures { later.new ≡ leave_t info.names (place_built (place_in old.now) info.names info.made (state_of buf.now [] t)) c later.old }
{
    let x = lookup_made(old, info, buf, t);
    if x < info.names {
        put_cell(later, x, c);
    }
}

// A made name with the type of the code c; for a full writer nothing is looked up.
fn put_port(
    old: &[u8],
    pack: &[u8],
    names: usize,
    buf: &[u8],
    t: Writer,
    c: usize,
    out: &mut [u8],
    made: &mut [u8],
    writer: Writer,
) -> Writer
    requires { length pack.now ≤ max_bytes }
    ensures { (ns : List Name) → length ns ≡ names → state_of out.new made.new result ≡ puts (type_bytes ns pack.now c) (put_built old.now (state_of buf.now [] t) (state_of out.old made.old writer)) }
{
    if writer.full {
        return writer;
    }
    let v = put_built(old, buf, t, out, made, writer);
    put_type(pack, names, c, out, v)
}

// The local of the made name in `buf` and the type of the code c.
#[tactic(auto, unfolding(crate::specs::LocalsAt::local_t, wire::specs::Writer::state_of))]
pub fn put_local(
    old: &[u8],
    pack: &[u8],
    info: PackInfo,
    buf: &[u8],
    t: Writer,
    c: usize,
    later: &mut [u16],
    out: &mut [u8],
    made: &mut [u8],
    p: Passed,
) -> Passed
    requires { length pack.now ≤ max_bytes }
    ensures { (ns : List Name) → length ns ≡ info.names → left_of later.new out.new made.new result ≡ local_t ns pack.now old.now info.made (state_of buf.now [] t) c (left_of later.old out.old made.old p) }
{
    leave(old, info, buf, t, c, later);
    let n = one_more(p.count);
    let w = put_port(old, pack, info.names, buf, t, c, out, made, p.w);
    Passed { w, count: n }
}

// That of a branch's variable.
fn put_branch_local(
    old: &[u8],
    pack: &[u8],
    info: PackInfo,
    a: &[u8],
    v: Var,
    k: usize,
    later: &mut [u16],
    out: &mut [u8],
    made: &mut [u8],
    p: Passed,
) -> Passed
    requires { (length pack.now ≤ max_bytes) × (k < 2 ^ 63) }
    ensures { (ns : List Name) → length ns ≡ info.names → left_of later.new out.new made.new result ≡ branch_local_t ns pack.now old.now info.made a.now v k (left_of later.old out.old made.old p) }
{
    let mut buf = [0u8; Pack::NAME];
    let t = put_branch_text(&mut buf, Writer::start(), a, v, k);
    put_local(old, pack, info, &buf, t, 1, later, out, made, p)
}

// Those of the flags of n branches; the last has one only.
pub fn put_flag_locals(
    old: &[u8],
    pack: &[u8],
    info: PackInfo,
    a: &[u8],
    n: usize,
    later: &mut [u16],
    out: &mut [u8],
    made: &mut [u8],
    p: Passed,
) -> Passed
    requires { (length pack.now ≤ max_bytes) × (n < 2 ^ 63) }
    ensures { (ns : List Name) → length ns ≡ info.names → left_of later.new out.new made.new result ≡ flag_locals_t ns pack.now old.now info.made a.now 0 n (left_of later.old out.old made.old p) }
{
    let mut q = p;
    for k in 0..n {
        q = put_branch_local(old, pack, info, a, Var::Flag, k, later, out, made, q);
        if k + 1 < n {
            q = put_branch_local(old, pack, info, a, Var::Untaken, k, later, out, made, q);
        }
    }
    q
}

// Those of the guards of n branches: the first has none.
pub fn put_guard_locals(
    old: &[u8],
    pack: &[u8],
    info: PackInfo,
    a: &[u8],
    n: usize,
    later: &mut [u16],
    out: &mut [u8],
    made: &mut [u8],
    p: Passed,
) -> Passed
    requires { (length pack.now ≤ max_bytes) × (n < 2 ^ 63) }
    ensures { (ns : List Name) → length ns ≡ info.names → left_of later.new out.new made.new result ≡ clock_locals_t ns pack.now old.now info.made a.now 1 (n - 1) (left_of later.old out.old made.old p) }
{
    let mut q = p;
    for k in 1..n {
        q = put_branch_local(old, pack, info, a, Var::Clock, k, later, out, made, q);
    }
    q
}

// That of the holder whose row begins at h.
fn put_holder_local(
    old: &[u8],
    pack: &[u8],
    info: PackInfo,
    a: &[u8],
    offsets: &[u16],
    lasts: &[u16],
    types: &[u16],
    h: usize,
    later: &mut [u16],
    out: &mut [u8],
    made: &mut [u8],
    p: Passed,
) -> Passed
    requires { (length pack.now ≤ max_bytes) × (h < 2 ^ 63) }
    ensures { (ns : List Name) → length ns ≡ info.names → left_of later.new out.new made.new result ≡ holder_local_t ns pack.now old.now info.made a.now offsets.now lasts.now types.now h (left_of later.old out.old made.old p) }
{
    let v = pack_name(pack, offsets, cell(lasts, h));
    let c = cell(types, cell(lasts, h + 2));
    let mut buf = [0u8; Pack::NAME];
    let t = put_last_text(&mut buf, Writer::start(), a, v);
    put_local(old, pack, info, &buf, t, c, later, out, made, p)
}

// Those of all holders.
pub fn put_holder_locals(
    old: &[u8],
    pack: &[u8],
    info: PackInfo,
    a: &[u8],
    offsets: &[u16],
    lasts: &[u16],
    rows: usize,
    types: &[u16],
    later: &mut [u16],
    out: &mut [u8],
    made: &mut [u8],
    p: Passed,
) -> Passed
    requires { (length pack.now ≤ max_bytes) × (rows < word_range) }
    ensures { (ns : List Name) → length ns ≡ info.names → left_of later.new out.new made.new result ≡ holder_locals_t ns pack.now old.now info.made a.now offsets.now lasts.now types.now 0 rows (left_of later.old out.old made.old p) }
{
    let mut q = p;
    for row in 0..rows {
        q = put_holder_local(
            old,
            pack,
            info,
            a,
            offsets,
            lasts,
            types,
            3 * row,
            later,
            out,
            made,
            q,
        );
    }
    q
}

// --- The locals of scopes: equation by equation those of the samples that are new in the scope, then that of the value.

// That of the sample of x in the scope k of n branches.
fn put_sample_local(
    old: &[u8],
    pack: &[u8],
    info: PackInfo,
    a: &[u8],
    offsets: &[u16],
    types: &[u16],
    outs: &[u16],
    n: usize,
    k: usize,
    x: usize,
    later: &mut [u16],
    out: &mut [u8],
    made: &mut [u8],
    p: Passed,
) -> Passed
    requires { length pack.now ≤ max_bytes }
    ensures { (ns : List Name) → length ns ≡ info.names → left_of later.new out.new made.new result ≡ sample_local_t ns pack.now old.now info.made a.now offsets.now types.now outs.now n k x (left_of later.old out.old made.old p) }
{
    let c = typed(types, outs, info.names, x);
    let mut buf = [0u8; Pack::NAME];
    let t = put_sample_text(
        &mut buf,
        Writer::start(),
        pack,
        offsets,
        info.names,
        a,
        n,
        k,
        x,
    );
    put_local(old, pack, info, &buf, t, c, later, out, made, p)
}

// The same, where x is not among those sampled before.
#[tactic(auto, unfolding(crate::specs::LocalsAt::new_local_t))]
fn put_new_local(
    old: &[u8],
    pack: &[u8],
    info: PackInfo,
    a: &[u8],
    offsets: &[u16],
    types: &[u16],
    outs: &[u16],
    n: usize,
    k: usize,
    sampled: &[u16],
    x: usize,
    later: &mut [u16],
    out: &mut [u8],
    made: &mut [u8],
    p: Passed,
) -> Passed
    requires { length pack.now ≤ max_bytes }
    ensures { (ns : List Name) → length ns ≡ info.names → left_of later.new out.new made.new result ≡ new_local_t ns pack.now old.now info.made a.now offsets.now types.now outs.now n k sampled.now x (left_of later.old out.old made.old p) }
{
    if is_in(sampled, x) {
        p
    } else {
        put_sample_local(
            old, pack, info, a, offsets, types, outs, n, k, x, later, out, made, p,
        )
    }
}

// Those of the numbers that are not among those sampled before.
fn put_new_locals(
    old: &[u8],
    pack: &[u8],
    info: PackInfo,
    a: &[u8],
    offsets: &[u16],
    types: &[u16],
    outs: &[u16],
    n: usize,
    k: usize,
    sampled: &[u16],
    ids: &[u16],
    later: &mut [u16],
    out: &mut [u8],
    made: &mut [u8],
    p: Passed,
) -> Passed
    requires { length pack.now ≤ max_bytes }
    ensures { (ns : List Name) → length ns ≡ info.names → left_of later.new out.new made.new result ≡ new_locals_t ns pack.now old.now info.made a.now offsets.now types.now outs.now n k sampled.now ids.now (left_of later.old out.old made.old p) }
{
    let mut q = p;
    for id in ids {
        let x = usize::from(*id);
        q = put_new_local(
            old, pack, info, a, offsets, types, outs, n, k, sampled, x, later, out, made, q,
        );
    }
    q
}

// That of the value of the equation at p.
fn put_value_local(
    old: &[u8],
    pack: &[u8],
    info: PackInfo,
    a: &[u8],
    offsets: &[u16],
    types: &[u16],
    outs: &[u16],
    n: usize,
    k: usize,
    at: usize,
    later: &mut [u16],
    out: &mut [u8],
    made: &mut [u8],
    p: Passed,
) -> Passed
    requires { length pack.now ≤ max_bytes }
    ensures { (ns : List Name) → length ns ≡ info.names → left_of later.new out.new made.new result ≡ value_local_t ns pack.now old.now info.made a.now offsets.now types.now outs.now n k at (left_of later.old out.old made.old p) }
{
    let x = first_left(pack, at);
    let c = value_type(types, outs, info.names, x);
    let o = pack_name(pack, offsets, x);
    let mut buf = [0u8; Pack::NAME];
    let t = put_value_text(&mut buf, Writer::start(), a, n, k, o);
    put_local(old, pack, info, &buf, t, c, later, out, made, p)
}

// Those of the equation at `at`, which reads these.
#[tactic(auto, unfolding(crate::specs::LocalsAt::equation_local_t))]
fn put_equation_locals(
    old: &[u8],
    pack: &[u8],
    info: PackInfo,
    a: &[u8],
    offsets: &[u16],
    types: &[u16],
    outs: &[u16],
    n: usize,
    k: usize,
    ids: &[u16],
    sampled: &[u16],
    at: usize,
    later: &mut [u16],
    out: &mut [u8],
    made: &mut [u8],
    p: Passed,
) -> Passed
    requires { length pack.now ≤ max_bytes }
    ensures { (ns : List Name) → length ns ≡ info.names → left_of later.new out.new made.new result ≡ equation_local_t ns pack.now old.now info.made a.now offsets.now types.now outs.now n k ids.now sampled.now at (left_of later.old out.old made.old p) }
{
    let q = put_new_locals(
        old, pack, info, a, offsets, types, outs, n, k, sampled, ids, later, out, made, p,
    );
    put_value_local(
        old, pack, info, a, offsets, types, outs, n, k, at, later, out, made, q,
    )
}

// Those of the scope k of n branches, whose count of equations stands at `at`.
fn put_scope_locals(
    old: &[u8],
    pack: &[u8],
    info: PackInfo,
    a: &[u8],
    offsets: &[u16],
    lasts: &[u16],
    rows: usize,
    types: &[u16],
    outs: &[u16],
    n: usize,
    k: usize,
    at: usize,
    reads: &mut [u16],
    sampled: &mut [u16],
    later: &mut [u16],
    out: &mut [u8],
    made: &mut [u8],
    p: Passed,
) -> Passed
    requires { (length pack.now ≤ max_bytes) × (rows < word_range) × (21848 ≤ length reads.old) × (21848 ≤ length sampled.old) }
    ensures { (ns : List Name) → length ns ≡ info.names → left_of later.new out.new made.new result ≡ scope_locals_t ns pack.now old.now info.made a.now offsets.now types.now outs.now n info.last lasts.now rows k at (left_of later.old out.old made.old p) }
{
    let f = number(pack, at);
    let mut q = p;
    let mut g = f.next;
    let mut m = 0;
    for _ in 0..f.value {
        let e = right_side(pack, info.names, g);
        let r = list_reads(pack, info, lasts, rows, types, outs, e, reads);
        q = put_equation_locals(
            old,
            pack,
            info,
            a,
            offsets,
            types,
            outs,
            n,
            k,
            &reads[..r],
            &sampled[..m],
            g,
            later,
            out,
            made,
            q,
        );
        m = join(&reads[..r], sampled, m);
        g = after_expr(pack, info.names, e);
    }
    q
}

// Those of the scopes of n branches, whose count stands at `at`.
fn put_branch_locals(
    old: &[u8],
    pack: &[u8],
    info: PackInfo,
    a: &[u8],
    offsets: &[u16],
    lasts: &[u16],
    rows: usize,
    types: &[u16],
    outs: &[u16],
    n: usize,
    at: usize,
    reads: &mut [u16],
    sampled: &mut [u16],
    later: &mut [u16],
    out: &mut [u8],
    made: &mut [u8],
    p: Passed,
) -> Passed
    requires { (length pack.now ≤ max_bytes) × (rows < word_range) × (21848 ≤ length reads.old) × (21848 ≤ length sampled.old) × (n < 2 ^ 63) }
    ensures { (ns : List Name) → length ns ≡ info.names → left_of later.new out.new made.new result ≡ branch_locals_t ns pack.now old.now info.made a.now offsets.now types.now outs.now n info.last lasts.now rows 0 n at (left_of later.old out.old made.old p) }
{
    let mut q = p;
    let mut g = at;
    for k in 0..n {
        let e = branch_equations(pack, info.names, g);
        q = put_scope_locals(
            old, pack, info, a, offsets, lasts, rows, types, outs, n, k, e, reads, sampled, later,
            out, made, q,
        );
        g = after_branch(pack, info.names, g);
    }
    q
}

// All locals of the activation A of the name a.
#[tactic(auto, unfolding(crate::specs::LocalsAt::act_locals_t))]
pub fn put_act_locals(
    old: &[u8],
    pack: &[u8],
    info: PackInfo,
    a: &[u8],
    offsets: &[u16],
    lasts: &[u16],
    rows: usize,
    types: &[u16],
    outs: &[u16],
    act: Act,
    reads: &mut [u16],
    sampled: &mut [u16],
    later: &mut [u16],
    out: &mut [u8],
    made: &mut [u8],
    p: Passed,
) -> Passed
    requires { (length pack.now ≤ max_bytes) × (rows < word_range) × (21848 ≤ length reads.old) × (21848 ≤ length sampled.old) × (act.n < 2 ^ 63) }
    ensures { (ns : List Name) → length ns ≡ info.names → left_of later.new out.new made.new result ≡ act_locals_t ns pack.now old.now info.made a.now offsets.now types.now outs.now info.last lasts.now rows act (left_of later.old out.old made.old p) }
{
    let f = number(pack, act.branches);
    let c = put_holder_locals(
        old, pack, info, a, offsets, lasts, rows, types, later, out, made, p,
    );
    let d = put_flag_locals(old, pack, info, a, act.n, later, out, made, c);
    let e = put_guard_locals(old, pack, info, a, act.n, later, out, made, d);
    let g = put_branch_locals(
        old, pack, info, a, offsets, lasts, rows, types, outs, act.n, f.next, reads, sampled,
        later, out, made, e,
    );
    put_scope_locals(
        old, pack, info, a, offsets, lasts, rows, types, outs, act.n, act.n, act.other, reads,
        sampled, later, out, made, g,
    )
}
