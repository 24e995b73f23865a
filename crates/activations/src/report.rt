// The report of refused activations. Entries are those of machines: a refusal's names are the pack's, or the letters of `else`.
ghost use Rattle.std.specs.Prelude.{cond, List, ◌++◌, ◌≡◌, ℕ, ◌+◌, ◌*◌, ◌<◌, ◌≤◌, length};
ghost use Rattle.wire.specs.Bytes.{two, word_range};
ghost use Rattle.wire.specs.Writer.{overwritten};
ghost use Rattle.pack_rules.specs.Outcome.{Answers, reported};
ghost use Rattle.pack.specs.Finish.{number_for, value_for};
ghost use Rattle.pack_rules.specs.Limits.{max_bytes};
ghost use Rattle.machines.specs.AddedAt.{total_t};
ghost use Rattle.machines.specs.ReportAt.{bytes_t};
ghost use Rattle.activations.specs.ReportAt.{called_t, entry_t, is_refused_t, judged_as};

use crate::checks::Refused;
use crate::owners::{act_spot, judged};
use machines::checked_read::number;
use machines::report::{entry_len, put_count, put_entry};
use machines::verdicts::{NameRef, VerdictRow, named, no_name, refused};
use pack::finish::{CallError, Outcome};
use pack::record::Pack;

// A name by its number: the number of names is none, past it is `else`.
#[tactic(auto, unfolding(crate::specs::ReportAt::called_t))]
fn called(names: usize, x: usize) -> NameRef
    ensures { result ≡ called_t names x }
{
    if x < names {
        named(x)
    } else if x == names {
        no_name()
    } else {
        NameRef {
            letter: 0,
            letters: 4,
            name: Pack::ABSENT,
        }
    }
}

// A refusal as one of a machine.
#[tactic(auto, unfolding(crate::specs::ReportAt::judged_as))]
fn judged_of(names: usize, r: Refused) -> VerdictRow
    ensures { result ≡ judged_as names r }
{
    refused(r.kind, called(names, r.second), called(names, r.third))
}

// Whether the activation i is refused.
#[tactic(auto, unfolding(crate::specs::ReportAt::is_refused_t))]
fn is_refused(acts: &[u16], i: usize) -> bool
    ensures { is_refused_t acts.now i ≡ cond result 1 0 }
{
    judged(acts, i).kind != 0
}

// How many of the first n activations are refused.
pub fn refused_count(acts: &[u16], n: usize) -> usize
    requires { n ≤ word_range }
    ensures { result ≡ total_t (is_refused_t acts.now) n 0 }
{
    let mut c = 0;
    for i in 0..n {
        if is_refused(acts, i) {
            c += 1;
        }
    }
    c
}

// How many bytes the entry of the activation i takes: none where it is not refused.
fn refusal_len(pack: &[u8], names: usize, offsets: &[u16], acts: &[u16], i: usize) -> usize
    requires { length pack.now ≤ max_bytes }
    ensures { (result ≤ 200000) × (result ≡ length (entry_t names pack.now offsets.now acts.now i)) }
{
    let r = judged(acts, i);
    if r.kind == 0 {
        return 0;
    }
    let at = act_spot(acts, i);
    let a = number(pack, at);
    let j = judged_of(names, r);
    entry_len(pack, offsets, b"else", a.value, j)
}

// How many bytes the report of the first n activations takes.
pub fn report_len(pack: &[u8], names: usize, offsets: &[u16], acts: &[u16], n: usize) -> usize
    requires { (length pack.now ≤ max_bytes) × (n ≤ word_range) }
    ensures value { result ≡ 2 + length (bytes_t (entry_t names pack.now offsets.now acts.now) n 0) }
    ensures upper_bound { result ≤ 2 + n * 200000 }
{
    let mut c = 2;
    for i in 0..n {
        c += refusal_len(pack, names, offsets, acts, i);
    }
    c
}

// The entry of the activation i, where it is refused.
fn put_refusal(
    pack: &[u8],
    names: usize,
    offsets: &[u16],
    acts: &[u16],
    i: usize,
    report: &mut [u8],
    at: usize,
) -> usize
    requires { at + length (entry_t names pack.now offsets.now acts.now i) ≤ length report.old }
    ensures { (result ≡ at + length (entry_t names pack.now offsets.now acts.now i)) × (report.new ≡ overwritten at (entry_t names pack.now offsets.now acts.now i) report.old) }
{
    let r = judged(acts, i);
    if r.kind == 0 {
        return at;
    }
    let p = act_spot(acts, i);
    let a = number(pack, p);
    let j = judged_of(names, r);
    put_entry(pack, offsets, b"else", a.value, j, report, at)
}

// The report of the first n activations, of which so many are refused.
fn put_report(
    pack: &[u8],
    names: usize,
    offsets: &[u16],
    acts: &[u16],
    n: usize,
    refused: usize,
    report: &mut [u8],
)
    requires { 2 + length (bytes_t (entry_t names pack.now offsets.now acts.now) n 0) ≤ length report.old }
    ensures { report.new ≡ overwritten 0 (two refused ++ bytes_t (entry_t names pack.now offsets.now acts.now) n 0) report.old }
{
    put_count(refused, report);
    let mut e = 2;
    for i in 0..n {
        e = put_refusal(pack, names, offsets, acts, i, report, e);
    }
}

// The answer where so many activations are refused: the report, where the caller's buffer holds it.
pub fn answer_report(
    pack: &[u8],
    names: usize,
    offsets: &[u16],
    acts: &[u16],
    n: usize,
    refused: usize,
    report: &mut [u8],
) -> Outcome
    requires { (length pack.now ≤ max_bytes) × (n ≤ 6656) }
    ensures by_index { (output : List ℕ) → Answers (reported (length report.old) (two refused ++ bytes_t (entry_t names pack.now offsets.now acts.now) n 0)) (number_for result) (value_for result) output output report.old report.new }
    ensures number_bound { (number_for result ≤ 9) × (value_for result < 4294967296) }
{
    let b = report_len(pack, names, offsets, acts, n);
    if report.len() < b {
        return Err(CallError::ReportRoom(b));
    }
    put_report(pack, names, offsets, acts, n, refused, report);
    Err(CallError::Refused(b))
}
