// All activations judged, node by node, by the first refusal that there is: the checks (`checks`), the holders (`prepare`), an equation
// without left names. Of one that is accepted the locals are counted. What it leaves to the next of the same owner, the types of locals
// with old names, stays in `later`, which has the types of the owner's variables; a refused one leaves nothing. The verdicts go into
// the table of activations (`owners`).
ghost use Rattle.std.specs.Prelude.{List, ◌≡◌, ◌<◌, ◌^◌, ◌≤◌, ℕ, length};
ghost use Rattle.wire.specs.Bytes.{word_range};
ghost use Rattle.pack_rules.specs.Names.{Name};
ghost use Rattle.pack_rules.specs.Syntax.{Activation, Enum, Node};
ghost use Rattle.pack_rules.specs.Limits.{max_bytes};
ghost use Rattle.activations.specs.LocalsAt.{act_locals_t};
ghost use Rattle.activations.specs.PackInfoAt.{Basis, ReadAt, Scratch, Types};
ghost use Rattle.activations.specs.Verdicts.{locals_of, row_judged, row_refused};
ghost use Rattle.activations.specs.Verdicts.{JudgedIn, LeftAs, NodeJudged, RowJudged, quiet, within_t};
ghost use Rattle.activations.specs.Places.{act_at};
ghost use Rattle.activations.specs.ActTable.{goal_t, spot_t};
ghost use Rattle.activations.specs.Fates.{Drawn, Fates, NodesFrom, Unowned};

use crate::checks::{Refusal, Refused, checks, has_empty_left, refusing};
use crate::locals::{Passed, put_act_locals};
use crate::lower::prepare;
use crate::owners::{act_node, act_of, put_judged};
use crate::pack_info::PackInfo;
use crate::parts::Act;
use crate::types::note_variables;
use machines::layout::pack_name;
use pack::cells::cell;
use wire::writer::{Writer, stopped};

// --- One activation judged in its owner: what is refused of it, or how many locals it makes. What it leaves to the next activation of
// the same owner stays in `later`.

// A name's number, which fits 16 bits.
#[tactic(auto, unfolding(crate::specs::Verdicts::within_t))]
fn within(names: usize, x: usize) -> usize
    requires { names ≤ word_range }
    ensures { result ≡ within_t names x }
{
    x.min(names + 1)
}

// What is refused, by numbers that fit 16 bits.
#[tactic(auto, using(crate::proofs::RefusalNumbers::room_for), unfolding(crate::specs::Verdicts::row_refused, crate::specs::Verdicts::refused_in))]
fn refuse(names: usize, r: Refusal) -> Refused
    requires { names ≤ word_range }
    ensures { result ≡ row_refused names r }
{
    let row = r.numbers(names);
    refusing(
        row.kind,
        within(names, row.second),
        within(names, row.third),
    )
}

// All locals left to the next, and counted; nothing is written.
#[tactic(auto, unfolding(crate::specs::LocalsAt::act_locals_t, crate::specs::Verdicts::quiet))]
pub fn count_and_type_locals(
    old: &[u8],
    pack: &[u8],
    info: PackInfo,
    a: &[u8],
    offsets: &[u16],
    lasts: &[u16],
    rows: usize,
    types: &[u16],
    outs: &[u16],
    act: Act,
    reads: &mut [u16],
    sampled: &mut [u16],
    later: &mut [u16],
) -> usize
    requires { (length pack.now ≤ max_bytes) × (rows < word_range) × (21848 ≤ length reads.old) × (21848 ≤ length sampled.old) × (act.n < 2 ^ 63) }
    ensures { (ns : List Name) → length ns ≡ info.names → LeftAs result later.new (act_locals_t ns pack.now old.now info.made a.now offsets.now types.now outs.now info.last lasts.now rows act (quiet later.old)) }
{
    let mut out = [0u8; 1];
    let mut made = [0u8; 1];
    let p = Passed {
        w: stopped(Writer::start()),
        count: 0,
    };
    let r = put_act_locals(
        old, pack, info, a, offsets, lasts, rows, types, outs, act, reads, sampled, later,
        &mut out, &mut made, p,
    );
    r.count
}

// An activation in an owner whose variables' types `later` has.
pub fn judge_act(
    old: &[u8],
    pack: &[u8],
    info: PackInfo,
    offsets: &[u16],
    act: Act,
    types: &mut [u16],
    outs: &mut [u16],
    lasts: &mut [u16],
    reads: &mut [u16],
    sampled: &mut [u16],
    later: &mut [u16],
) -> Result<usize, Refusal>
    requires { (length pack.now ≤ max_bytes) × (info.names ≤ word_range) × (act.n < 2 ^ 63) × Scratch later.old types.old outs.old lasts.old reads.old sampled.old }
    ensures { (ns : List Name) (es : List Enum) (at : ℕ) (A : Activation) (n : Node) → Basis ns es old.now pack.now offsets.now info → ReadAt ns pack.now at A act → Types ns pack.now n later.old → JudgedIn ns es pack.now A n (row_judged info.names result) (locals_of result) later.new }
{
    checks(pack, info, types, outs, act)?;
    let a = pack_name(pack, offsets, act.name);
    let prepared = prepare(old, pack, info, offsets, a, act, later, types, outs, lasts);
    prepared.verdict?;
    if has_empty_left(pack, info.names, act) {
        return Err(Refusal::EmptyLeft);
    }
    let rows = prepared.rows;
    let locals = count_and_type_locals(
        old, pack, info, a, offsets, lasts, rows, types, outs, act, reads, sampled, later,
    );
    Ok(locals)
}

// The activation of the row i, where it goes to the node k, whose variables' types `later` has.
fn judge_row(
    old: &[u8],
    pack: &[u8],
    info: PackInfo,
    offsets: &[u16],
    k: usize,
    types: &mut [u16],
    outs: &mut [u16],
    lasts: &mut [u16],
    reads: &mut [u16],
    sampled: &mut [u16],
    later: &mut [u16],
    acts: &mut [u16],
    i: usize,
)
    requires { (length pack.now ≤ max_bytes) × (info.names ≤ word_range) × Scratch later.old types.old outs.old lasts.old reads.old sampled.old }
    ensures past { (goal_t acts.old i ≡ k → ⊥) → (acts.new ≡ acts.old) × (later.new ≡ later.old) }
    ensures judged { goal_t acts.old i ≡ k → (ns : List Name) (es : List Enum) (A : Activation) (n : Node) → Basis ns es old.now pack.now offsets.now info → ReadAt ns pack.now (spot_t acts.old i) A (act_at ns pack.now (spot_t acts.old i)) → Types ns pack.now n later.old → RowJudged ns es pack.now A n i acts.old acts.new later.new }
{
    let g = act_node(acts, i);
    if g != k {
        return;
    }
    let act = act_of(pack, info.names, acts, i);
    let judged = judge_act(
        old, pack, info, offsets, act, types, outs, lasts, reads, sampled, later,
    );
    match judged {
        Ok(locals) => put_judged(acts, i, refusing(0, info.names, info.names), locals),
        Err(r) => put_judged(acts, i, refuse(info.names, r), 0),
    }
}

// Those of n activations that go to the node k, whose variables' types `later` has.
fn judge_node(
    old: &[u8],
    pack: &[u8],
    info: PackInfo,
    offsets: &[u16],
    k: usize,
    types: &mut [u16],
    outs: &mut [u16],
    lasts: &mut [u16],
    reads: &mut [u16],
    sampled: &mut [u16],
    later: &mut [u16],
    acts: &mut [u16],
    n: usize,
)
    requires { (length pack.now ≤ max_bytes) × (info.names ≤ word_range) × (n ≤ 6656) × (39936 ≤ length acts.old) × Scratch later.old types.old outs.old lasts.old reads.old sampled.old }
    ensures { (ns : List Name) (es : List Enum) (N : List Node) (As : List Activation) (m : Node) → Basis ns es old.now pack.now offsets.now info → Drawn ns pack.now es N As acts.old → length As ≡ n → Types ns pack.now m later.old → NodeJudged ns es N As k m acts.old acts.new }
{
    for i in 0..n {
        judge_row(
            old, pack, info, offsets, k, types, outs, lasts, reads, sampled, later, acts, i,
        );
    }
}

// Those of n activations that go to one of m nodes; all others are refused for their owner before.
pub fn judge_nodes(
    old: &[u8],
    pack: &[u8],
    info: PackInfo,
    offsets: &[u16],
    nodes: &[u16],
    m: usize,
    types: &mut [u16],
    outs: &mut [u16],
    lasts: &mut [u16],
    reads: &mut [u16],
    sampled: &mut [u16],
    later: &mut [u16],
    acts: &mut [u16],
    n: usize,
)
    requires { (length pack.now ≤ max_bytes) × (info.names ≤ word_range) × (n ≤ 6656) × (39936 ≤ length acts.old) × Scratch later.old types.old outs.old lasts.old reads.old sampled.old }
    ensures { (ns : List Name) (es : List Enum) (N : List Node) (As : List Activation) → Basis ns es old.now pack.now offsets.now info → NodesFrom ns pack.now nodes.now 0 N → length N ≡ m → Drawn ns pack.now es N As acts.old → length As ≡ n → Unowned ns pack.now es N As acts.old → Drawn ns pack.now es N As acts.new × Fates ns pack.now es N As acts.new }
{
    for k in 0..m {
        let at = cell(nodes, k);
        note_variables(pack, info.names, later, at);
        judge_node(
            old, pack, info, offsets, k, types, outs, lasts, reads, sampled, later, acts, n,
        );
    }
}
