// The report of refused machines: how many there are, then the entry of each, a byte for the kind and its names, each after a byte for
// its length. First come the bytes of one entry, then the report of all machines. A caller's buffer is written only where it holds all
// of it, so entries are first counted and then written; a refused machine is judged again for each. Counting bounds what it is lent,
// so that no sum wraps.
ghost use Rattle.std.specs.Prelude.{List, [], ◌++◌, ◌∷◌, ◌≡◌, ◌%◌, ◌+◌, ◌<◌, ◌≤◌, ℕ, length};
ghost use Rattle.wire.specs.Bytes.{two, word_range};
ghost use Rattle.wire.specs.Writer.{overwritten};
ghost use Rattle.pack_rules.specs.Limits.{max_bytes};
ghost use Rattle.machines.specs.Layout.{prefix_of};
ghost use Rattle.machines.specs.ReportEntries.{called_of, entry_bytes, name_bytes, names_bytes};
ghost use Rattle.pack_rules.specs.Names.{Name};
ghost use Rattle.machines.specs.EmitMachineAt.{Long};
ghost use Rattle.machines.specs.ReportAt.{EntersAll, RoomAt, RoomForAll, bytes_t, judged_row, letters_t, of_refused, refusal_t, refused_entry_t};

use crate::checked_read::number;
use crate::drawing::NameTables;
use crate::layout::{pack_name, part};
use crate::table::entry;
use crate::verdicts::{NameRef, Refusal, VerdictRow, judge, no_name, refused};
use pack::record::Pack;
use wire::writer::append;

// How long the prefix is of names inside a state of the name p.
fn prefix_len(p: &[u8]) -> usize
    ensures { result ≡ length (prefix_of p.now) }
{
    if p.len() == 0 { 0 } else { p.len() + 1 }
}

// How many bytes a name takes, where there is one.
fn called_len(pack: &[u8], offsets: &[u16], qualified: &[u8], c: NameRef) -> usize
    requires { (length pack.now ≤ max_bytes) × (length qualified.now ≤ 4294967296) }
    ensures { result ≡ length (names_bytes (called_of pack.now offsets.now qualified.now c)) }
{
    let letters = c.letters;
    let name = c.name;
    let p = part(qualified, c.letter, letters);
    if name == Pack::ABSENT {
        if letters == 0 {
            return 0;
        }
        return 1 + p.len();
    }
    let n = pack_name(pack, offsets, name);
    1 + prefix_len(p) + n.len()
}

// How many bytes the refusal of the machine of the name m takes.
pub fn entry_len(pack: &[u8], offsets: &[u16], qualified: &[u8], m: usize, j: VerdictRow) -> usize
    requires { (length pack.now ≤ max_bytes) × (length qualified.now ≤ 4294967296) }
    ensures { result ≡ length (entry_bytes pack.now offsets.now qualified.now m j) }
{
    let second = j.second;
    let third = j.third;
    let n = pack_name(pack, offsets, m);
    let a = called_len(pack, offsets, qualified, second);
    let b = called_len(pack, offsets, qualified, third);
    2 + n.len() + a + b
}

// The lowest byte of a number.
fn put_low(k: usize, report: &mut [u8], at: usize) -> usize
    requires { at + 1 ≤ length report.old }
    ensures value { result ≡ at + 1 }
    ensures report_after { report.new ≡ overwritten at (k % 256 ∷ []) report.old }
{
    let one = [(k % 256) as u8];
    append(&one, report, at)
}

// A name after its length byte.
fn put_name(n: &[u8], report: &mut [u8], at: usize) -> usize
    requires { at + length (name_bytes n.now) ≤ length report.old }
    ensures value { result ≡ at + length (name_bytes n.now) }
    ensures report_after { report.new ≡ overwritten at (name_bytes n.now) report.old }
{
    let a = put_low(n.len(), report, at);
    append(n, report, a)
}

// The prefix of names inside a state of the name p.
fn put_prefix(p: &[u8], report: &mut [u8], at: usize) -> usize
    requires { at + length (prefix_of p.now) ≤ length report.old }
    ensures value { result ≡ at + length (prefix_of p.now) }
    ensures report_after { report.new ≡ overwritten at (prefix_of p.now) report.old }
{
    let a = append(p, report, at);
    if p.len() == 0 {
        return a;
    }
    append(b"_", report, a)
}

// The name n as it is called inside a state of the name p, after its length byte.
fn put_inside(p: &[u8], n: &[u8], report: &mut [u8], at: usize) -> usize
    requires { at + length (name_bytes (prefix_of p.now ++ n.now)) ≤ length report.old }
    ensures value { result ≡ at + length (name_bytes (prefix_of p.now ++ n.now)) }
    ensures report_after { report.new ≡ overwritten at (name_bytes (prefix_of p.now ++ n.now)) report.old }
{
    let k = prefix_len(p) + n.len();
    let a = put_low(k, report, at);
    let b = put_prefix(p, report, a);
    append(n, report, b)
}

// A name, where there is one.
fn put_called(
    pack: &[u8],
    offsets: &[u16],
    qualified: &[u8],
    c: NameRef,
    report: &mut [u8],
    at: usize,
) -> usize
    requires { at + length (names_bytes (called_of pack.now offsets.now qualified.now c)) ≤ length report.old }
    ensures value { result ≡ at + length (names_bytes (called_of pack.now offsets.now qualified.now c)) }
    ensures report_after { report.new ≡ overwritten at (names_bytes (called_of pack.now offsets.now qualified.now c)) report.old }
{
    let letters = c.letters;
    let name = c.name;
    let p = part(qualified, c.letter, letters);
    if name == Pack::ABSENT {
        if letters == 0 {
            return at;
        }
        return put_name(p, report, at);
    }
    let n = pack_name(pack, offsets, name);
    put_inside(p, n, report, at)
}

// The refusal of the machine of the name m.
pub fn put_entry(
    pack: &[u8],
    offsets: &[u16],
    qualified: &[u8],
    m: usize,
    j: VerdictRow,
    report: &mut [u8],
    at: usize,
) -> usize
    requires { at + length (entry_bytes pack.now offsets.now qualified.now m j) ≤ length report.old }
    ensures value { result ≡ at + length (entry_bytes pack.now offsets.now qualified.now m j) }
    ensures report_after { report.new ≡ overwritten at (entry_bytes pack.now offsets.now qualified.now m j) report.old }
{
    let second = j.second;
    let third = j.third;
    let n = pack_name(pack, offsets, m);
    let a = put_low(j.kind, report, at);
    let b = put_name(n, report, a);
    let c = put_called(pack, offsets, qualified, second, report, b);
    put_called(pack, offsets, qualified, third, report, c)
}

// The count of refusals, at the report's start.
pub fn put_count(n: usize, report: &mut [u8])
    requires { 2 ≤ length report.old }
    ensures { report.new ≡ overwritten 0 (two n) report.old }
{
    let count = [(n % 256) as u8, (n / 256 % 256) as u8];
    append(&count, report, 0);
}

// --- The report of all machines. Entries are not kept: a refused machine is judged again for its entry, once to count its
// bytes and once to write them.

// Why the machine i is refused: judged again, or its owner is not there.
fn refusal_of(
    tables: &NameTables,
    layout: &mut [usize],
    rows: &mut [usize],
    qualified: &mut [u8],
    defs: &[usize],
    regcounts: &[usize],
    i: usize,
) -> Result<usize, Refusal>
    ensures value { (ns : List Name) → length ns ≡ tables.now.drawing.pack.names → result ≡ refusal_t ns tables.now.drawing.pack.bytes.now tables.now.offsets.now tables.now.machines.now defs.now regcounts.now i layout.old rows.old qualified.old }
    ensures qualified_after { (ns : List Name) → length ns ≡ tables.now.drawing.pack.names → qualified.new ≡ letters_t ns tables.now.drawing.pack.bytes.now tables.now.offsets.now tables.now.machines.now defs.now regcounts.now i layout.old rows.old qualified.old }
{
    let at = entry(defs, i);
    let g = entry(regcounts, i);
    if g == 0 {
        return judge(tables, layout, rows, qualified, at);
    }
    let m = number(tables.drawing.pack.bytes, at);
    let o = number(tables.drawing.pack.bytes, m.next);
    Err(Refusal::UnknownOwner(o.value))
}

// What its entry says. An accepted machine has an entry only where the lent tables disagree: no receiver, and no regions either.
#[tactic(auto, unfolding(crate::specs::ReportAt::judged_row))]
fn judged_row(judged: Result<usize, Refusal>) -> VerdictRow
    ensures { result ≡ judged_row judged }
{
    match judged {
        Ok(_) => refused(0, no_name(), no_name()),
        Err(r) => r.row(),
    }
}

// How many bytes its entry takes: none where it is not refused.
fn refusal_len(
    tables: &NameTables,
    layout: &mut [usize],
    rows: &mut [usize],
    qualified: &mut [u8],
    defs: &[usize],
    receivers: &[usize],
    regcounts: &[usize],
    i: usize,
) -> usize
    requires { Long layout.old rows.old qualified.old }
    ensures { (result ≤ 34359738368) × ((ns : List Name) → length ns ≡ tables.now.drawing.pack.names → result ≡ length (refused_entry_t ns tables.now.drawing.pack.bytes.now tables.now.offsets.now tables.now.machines.now defs.now regcounts.now receivers.now i layout.old rows.old qualified.old)) }
{
    let a = entry(receivers, i);
    if a != Pack::ABSENT {
        return 0;
    }
    let at = entry(defs, i);
    let m = number(tables.drawing.pack.bytes, at);
    let j = refusal_of(tables, layout, rows, qualified, defs, regcounts, i);
    entry_len(
        tables.drawing.pack.bytes,
        tables.offsets,
        qualified,
        m.value,
        judged_row(j),
    )
}

// How many bytes the report of the first n machines takes.
pub fn report_len(
    tables: &NameTables,
    layout: &mut [usize],
    rows: &mut [usize],
    qualified: &mut [u8],
    defs: &[usize],
    receivers: &[usize],
    regcounts: &[usize],
    n: usize,
) -> usize
    requires { Long layout.old rows.old qualified.old × (n ≤ word_range) }
    ensures { (ns : List Name) → length ns ≡ tables.now.drawing.pack.names → (es : ℕ → List ℕ) → EntersAll ns tables.now.drawing.pack.bytes.now tables.now.offsets.now tables.now.machines.now defs.now regcounts.now receivers.now n es → result ≡ 2 + length (bytes_t (of_refused receivers.now es) n 0) }
{
    let mut c = 2;
    for i in 0..n {
        c += refusal_len(
            tables, layout, rows, qualified, defs, receivers, regcounts, i,
        );
    }
    c
}

// The entry of the machine i, where it is refused.
fn put_refusal(
    tables: &NameTables,
    layout: &mut [usize],
    rows: &mut [usize],
    qualified: &mut [u8],
    defs: &[usize],
    receivers: &[usize],
    regcounts: &[usize],
    i: usize,
    report: &mut [u8],
    at: usize,
) -> usize
    requires { RoomAt tables.now.drawing.pack.bytes.now tables.now.offsets.now tables.now.machines.now defs.now regcounts.now receivers.now layout.old rows.old qualified.old tables.now.drawing.pack.names i at (length report.old) }
    ensures { (ns : List Name) → length ns ≡ tables.now.drawing.pack.names → (result ≡ at + length (refused_entry_t ns tables.now.drawing.pack.bytes.now tables.now.offsets.now tables.now.machines.now defs.now regcounts.now receivers.now i layout.old rows.old qualified.old)) × (report.new ≡ overwritten at (refused_entry_t ns tables.now.drawing.pack.bytes.now tables.now.offsets.now tables.now.machines.now defs.now regcounts.now receivers.now i layout.old rows.old qualified.old) report.old) }
{
    let a = entry(receivers, i);
    if a != Pack::ABSENT {
        return at;
    }
    let p = entry(defs, i);
    let m = number(tables.drawing.pack.bytes, p);
    let j = refusal_of(tables, layout, rows, qualified, defs, regcounts, i);
    put_entry(
        tables.drawing.pack.bytes,
        tables.offsets,
        qualified,
        m.value,
        judged_row(j),
        report,
        at,
    )
}

// The report of the first n machines, of which so many are refused.
pub fn put_report(
    tables: &NameTables,
    layout: &mut [usize],
    rows: &mut [usize],
    qualified: &mut [u8],
    defs: &[usize],
    receivers: &[usize],
    regcounts: &[usize],
    n: usize,
    refused: usize,
    report: &mut [u8],
)
    requires { Long layout.old rows.old qualified.old × RoomForAll tables.now.drawing.pack.bytes.now tables.now.offsets.now tables.now.machines.now defs.now regcounts.now receivers.now tables.now.drawing.pack.names n (length report.old) }
    ensures { (ns : List Name) → length ns ≡ tables.now.drawing.pack.names → (es : ℕ → List ℕ) → EntersAll ns tables.now.drawing.pack.bytes.now tables.now.offsets.now tables.now.machines.now defs.now regcounts.now receivers.now n es → report.new ≡ overwritten 0 (two refused ++ bytes_t (of_refused receivers.now es) n 0) report.old }
{
    put_count(refused, report);
    let mut e = 2;
    for i in 0..n {
        e = put_refusal(
            tables, layout, rows, qualified, defs, receivers, regcounts, i, report, e,
        );
    }
}
