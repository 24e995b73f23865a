// One activation: what it needs is prepared (types, the variables that `last` asks for, their holders), then its equations are written
// in the order of the Rust: holders, flags, guards, scopes, merges. It is prepared anew for judging, for locals and for equations, so
// that every table is that of one activation.
ghost use Rattle.std.specs.Prelude.{List, ◌≡◌, ◌<◌, ◌^◌, ◌≤◌, length};
ghost use Rattle.wire.specs.Bytes.{word_range};
ghost use Rattle.pack_rules.specs.Names.{Name};
ghost use Rattle.pack_rules.specs.Limits.{max_bytes};
ghost use Rattle.activations.specs.Refusing.{OfVariable};
ghost use Rattle.activations.specs.PreparedAt.{preparation_of, prepared_t};
ghost use Rattle.wire.specs.Writer.{state_of};
ghost use Rattle.pack_rules.specs.Syntax.{Expr};
ghost use Rattle.activations.specs.EquationsAt.{act_equations_t};

use crate::cells::copy;
use crate::checks::Refusal;
use crate::find_lasts::find_all_lasts;
use crate::flags::{put_clock_guards, put_flags};
use crate::holders::{put_holders, type_holders};
use crate::merges::put_merges;
use crate::pack_info::PackInfo;
use crate::parts::Act;
use crate::scopes::put_scopes;
use crate::types::note_outputs;
use wire::writer::Writer;

// --- An activation prepared: the types of what it may read, the variables that `last` asks for, and their holders.

// How many holders there are, also where one of them is refused.
#[derive(Clone, Copy)]
pub struct Prepared {
    pub rows: usize,
    pub verdict: Result<(), Refusal>,
}

// `later` has the types of the owner's variables.
pub fn prepare(
    old: &[u8],
    pack: &[u8],
    info: PackInfo,
    offsets: &[u16],
    a: &[u8],
    act: Act,
    later: &[u16],
    types: &mut [u16],
    outs: &mut [u16],
    lasts: &mut [u16],
) -> Prepared
    requires { (length pack.now ≤ max_bytes) × (info.names ≤ word_range) }
    ensures few { result.rows ≤ 8192 }
    ensures alone { OfVariable result.verdict }
    ensures begun { (ns : List Name) → length ns ≡ info.names → preparation_of info.names types.new outs.new lasts.new result ≡ prepared_t ns old.now pack.now info offsets.now a.now act later.now types.old outs.old lasts.old }
{
    copy(later, types, info.names);
    note_outputs(pack, info.names, outs, act.outputs);
    let rows = find_all_lasts(pack, info, lasts, act);
    let verdict = type_holders(old, pack, info, offsets, a, outs, types, lasts, rows);
    Prepared { rows, verdict }
}

// --- The equations of an activation: holders, flags, guards, scopes, merges.

pub fn put_act_equations(
    old: &[u8],
    pack: &[u8],
    info: PackInfo,
    offsets: &[u16],
    a: &[u8],
    act: Act,
    lasts: &[u16],
    rows: usize,
    types: &[u16],
    outs: &[u16],
    reads: &mut [u16],
    sampled: &mut [u16],
    out: &mut [u8],
    made: &mut [u8],
    writer: Writer,
) -> Writer
    requires { (length pack.now ≤ max_bytes) × (rows ≤ 8192) × (act.n < 2 ^ 63) × (21848 ≤ length reads.old) × (21848 ≤ length sampled.old) }
    ensures { (ns : List Name) → length ns ≡ info.names → (cs : List Expr) → length cs ≡ act.n → state_of out.new made.new result ≡ act_equations_t ns old.now pack.now info offsets.now a.now lasts.now rows types.now outs.now act cs (state_of out.old made.old writer) }
{
    let c = put_holders(
        old, pack, info, offsets, a, types, lasts, rows, out, made, writer,
    );
    let d = put_flags(old, pack, info, offsets, a, act.branches, out, made, c);
    let e = put_clock_guards(old, a, act.n, out, made, d);
    let f = put_scopes(
        old,
        pack,
        offsets,
        info,
        lasts,
        rows,
        types,
        outs,
        a,
        act.n,
        act.branches,
        act.other,
        reads,
        sampled,
        out,
        made,
        e,
    );
    put_merges(
        old,
        pack,
        info.names,
        offsets,
        a,
        act.n,
        act.outputs,
        out,
        made,
        f,
    )
}
