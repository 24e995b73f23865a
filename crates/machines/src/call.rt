// The call that lowers a pack's machines: nothing lent is changed before the answer is known.
ghost use Rattle.std.specs.Prelude.{List, ◌++◌, ◌≡◌, ℕ, ◌-◌, ◌≤◌, length};
ghost use Rattle.wire.specs.Bytes.{two, word_range};
ghost use Rattle.pack_rules.specs.Names.{Name};
ghost use Rattle.pack_rules.specs.Syntax.{Package};
ghost use Rattle.pack_rules.specs.Write.{Item};
ghost use Rattle.pack.specs.Table.{tabled};
ghost use Rattle.pack.specs.Intern.{render, table, unwritten};
ghost use Rattle.pack_rules.specs.Outcome.{Answers, Gives, output_of, report_of, reported, returned};
ghost use Rattle.pack.specs.Finish.{number_for, value_for};
ghost use Rattle.pack.specs.Finish.{answered};
ghost use Rattle.pack.specs.Verdict.{SectionsAt};
ghost use Rattle.pack_rules.specs.Limits.{max_bytes};
ghost use Rattle.machines.specs.MemoSound.{Blank, MemoSound, RowsSound};
ghost use Rattle.machines.specs.Layout.{slice_of};
ghost use Rattle.machines.specs.AddedAt.{total_t};
ghost use Rattle.machines.specs.EmitMachineAt.{AllWrite, Long, enums_at, equations_at};
ghost use Rattle.machines.specs.WriteNodesAt.{sections_t};
ghost use Rattle.machines.specs.OwnersAt.{refused_t};
ghost use Rattle.machines.specs.ReportAt.{EntersAll, bytes_t, of_refused};
ghost use Rattle.machines.specs.CallTables.{Empty, Filled, OpenedAs, Reports, machine_count};
ghost use Rattle.machine_rules.specs.Call.{lower_machines, lower_package_machines};

use crate::added::small;
use crate::checked_read::{CheckedPack, number};
use crate::drawing::{Drawing, NameTables};
use crate::layout::between;
use crate::memo::fill_memo;
use crate::owners::{assign_nodes, place_nodes, refused_count};
use crate::report::{put_report, report_len};
use crate::sections::put_sections;
use crate::table::{place_machines, place_names};
use crate::verdicts::judge_all;
use pack::check::read_pack;
use pack::finish::{CallError, Outcome, copy_pack, finish, returned_word};
use pack::intern::build_name_table;
use pack::record::Pack;
use pack::table::ROOM;

// Fills the tables: names, what is kept of states, machines by name, and for each machine where it is drawn, its regions and
// its node. How many machines are refused.
fn fill_tables(
    pack: &[u8],
    sections: Pack,
    offsets: &mut [u16],
    machines: &mut [u16],
    memo: &mut [u16],
    layout: &mut [usize],
    rows: &mut [usize],
    qualified: &mut [u8],
    nodes: &mut [u16],
    defs: &mut [usize],
    receivers: &mut [usize],
    regcounts: &mut [usize],
) -> usize
    requires { (length pack.now ≤ max_bytes) × Long layout.old rows.old qualified.old × Blank memo.old }
    ensures filled { (ns : List Name) → length ns ≡ sections.names → Filled ns pack.now sections offsets.old machines.old nodes.old defs.old receivers.old regcounts.old offsets.new machines.new nodes.new defs.new receivers.new regcounts.new }
    ensures value { result ≡ total_t (refused_t receivers.new) (machine_count pack.now sections) 0 }
    ensures memo_sound { MemoSound pack.now sections.names offsets.new memo.new }
{
    let checked = CheckedPack {
        bytes: pack,
        names: sections.names,
    };
    let c = number(pack, sections.nodes);
    let m = number(pack, sections.machines);
    let old = small(c.value);
    let n = small(m.value);
    place_names(pack, sections.names, offsets);
    fill_memo(&checked, offsets, sections.machines, memo);
    let drawing = Drawing {
        pack: checked,
        memo,
    };
    place_machines(&drawing, sections.machines, machines);
    place_nodes(pack, sections.names, old, c.next, nodes);
    let tables = NameTables {
        drawing,
        offsets,
        machines,
    };
    judge_all(&tables, layout, rows, qualified, n, m.next, defs, regcounts);
    assign_nodes(pack, defs, regcounts, n, receivers, nodes, old);
    refused_count(receivers, n)
}

// The report of the first n machines, of which so many are refused, where it fits.
fn report_all(
    tables: &NameTables,
    layout: &mut [usize],
    rows: &mut [usize],
    qualified: &mut [u8],
    defs: &[usize],
    receivers: &[usize],
    regcounts: &[usize],
    n: usize,
    refused: usize,
    report: &mut [u8],
) -> Outcome
    requires { Long layout.old rows.old qualified.old × (n ≤ word_range) × Reports tables.now.drawing.pack.bytes.now tables.now.offsets.now tables.now.machines.now defs.now regcounts.now receivers.now tables.now.drawing.pack.names n }
    ensures { (ns : List Name) → length ns ≡ tables.now.drawing.pack.names → (es : ℕ → List ℕ) → EntersAll ns tables.now.drawing.pack.bytes.now tables.now.offsets.now tables.now.machines.now defs.now regcounts.now receivers.now n es → (output : List ℕ) → Answers (reported (length report.old) (two refused ++ bytes_t (of_refused receivers.now es) n 0)) (number_for result) (value_for result) output output report.old report.new }
{
    let b = report_len(
        tables, layout, rows, qualified, defs, receivers, regcounts, n,
    );
    if report.len() < b {
        return Err(CallError::ReportRoom(b));
    }
    put_report(
        tables, layout, rows, qualified, defs, receivers, regcounts, n, refused, report,
    );
    Err(CallError::Refused(b))
}

// The lowered pack, where nothing is refused. It is made in buffers of the call's own, and copied out where it fits.
fn write_all(
    pack: &[u8],
    sections: Pack,
    offsets: &[u16],
    machines: &[u16],
    memo: &[u16],
    layout: &mut [usize],
    rows: &mut [usize],
    qualified: &mut [u8],
    defs: &[usize],
    receivers: &[usize],
    regcounts: &[usize],
    n: usize,
    output: &mut [u8],
) -> Outcome
    requires { (length pack.now ≤ max_bytes) × (n ≤ word_range) × Long layout.old rows.old qualified.old × RowsSound pack.now sections.names memo.now }
    ensures { (ns : List Name) → length ns ≡ sections.names → (old : List ℕ) → old ≡ tabled (table (slice_of pack.now 2 (sections.enums - 2))) → (eqs ens : ℕ → List Item) → AllWrite old (equations_at ns pack.now offsets.now machines.now) defs.now n eqs → AllWrite old (enums_at ns pack.now offsets.now machines.now) defs.now n ens → Gives (answered (length output.old) (slice_of pack.now 2 (sections.enums - 2)) (render old (sections_t ns pack.now defs.now receivers.now regcounts.now offsets.now n eqs ens sections) unwritten)) (number_for result) (value_for result) output.old output.new }
{
    let mut out = [0u8; Pack::BYTES];
    let mut made = [0u8; ROOM];
    let mut olds = [0u8; ROOM];
    let names = between(pack, 2, sections.enums);
    let e = build_name_table(names, &mut olds);
    let w = put_sections(
        &olds[..e],
        pack,
        sections,
        offsets,
        machines,
        memo,
        layout,
        rows,
        qualified,
        defs,
        receivers,
        regcounts,
        n,
        &mut out,
        &mut made,
    );
    finish(names, &made, &out, w, output)
}

// The same, kept apart: a function that calls itself is not inlined, so that these buffers do not stand on the stack while
// machines are judged. No pack is longer than the check allows.
fn write_out_of_line(
    pack: &[u8],
    sections: Pack,
    offsets: &[u16],
    machines: &[u16],
    memo: &[u16],
    layout: &mut [usize],
    rows: &mut [usize],
    qualified: &mut [u8],
    defs: &[usize],
    receivers: &[usize],
    regcounts: &[usize],
    n: usize,
    output: &mut [u8],
) -> Outcome
    requires { (length pack.now ≤ max_bytes) × (n ≤ word_range) × Long layout.old rows.old qualified.old × RowsSound pack.now sections.names memo.now }
    ensures { (ns : List Name) → length ns ≡ sections.names → (old : List ℕ) → old ≡ tabled (table (slice_of pack.now 2 (sections.enums - 2))) → (eqs ens : ℕ → List Item) → AllWrite old (equations_at ns pack.now offsets.now machines.now) defs.now n eqs → AllWrite old (enums_at ns pack.now offsets.now machines.now) defs.now n ens → Gives (answered (length output.old) (slice_of pack.now 2 (sections.enums - 2)) (render old (sections_t ns pack.now defs.now receivers.now regcounts.now offsets.now n eqs ens sections) unwritten)) (number_for result) (value_for result) output.old output.new }
{
    if Pack::BYTES < pack.len() {
        let r = write_out_of_line(
            &pack[..Pack::BYTES],
            sections,
            offsets,
            machines,
            memo,
            layout,
            rows,
            qualified,
            defs,
            receivers,
            regcounts,
            n,
            output,
        );
        return r.map(|_| 0);
    }
    write_all(
        pack, sections, offsets, machines, memo, layout, rows, qualified, defs, receivers,
        regcounts, n, output,
    )
}

// A pack whose sections stand where k says, by tables that are filled here.
fn lower_filled(
    pack: &[u8],
    sections: Pack,
    offsets: &mut [u16],
    machines: &mut [u16],
    memo: &mut [u16],
    layout: &mut [usize],
    rows: &mut [usize],
    qualified: &mut [u8],
    nodes: &mut [u16],
    defs: &mut [usize],
    receivers: &mut [usize],
    regcounts: &mut [usize],
    output: &mut [u8],
    report: &mut [u8],
) -> Outcome
    requires { (length pack.now ≤ max_bytes) × Long layout.old rows.old qualified.old × Empty offsets.old machines.old nodes.old defs.old receivers.old regcounts.old × OpenedAs pack.now sections × Blank memo.old }
    ensures { (p : Package) → SectionsAt pack.now sections p → Answers (lower_package_machines (length output.old) (length report.old) p) (number_for result) (value_for result) output.old output.new report.old report.new }
{
    let names = sections.names;
    let m = number(pack, sections.machines);
    let n = small(m.value);
    let refused = fill_tables(
        pack, sections, offsets, machines, memo, layout, rows, qualified, nodes, defs, receivers,
        regcounts,
    );
    if refused != 0 {
        let checked = CheckedPack { bytes: pack, names };
        let drawing = Drawing {
            pack: checked,
            memo,
        };
        let tables = NameTables {
            drawing,
            offsets,
            machines,
        };
        return report_all(
            &tables, layout, rows, qualified, defs, receivers, regcounts, n, refused, report,
        );
    }
    write_out_of_line(
        pack, sections, offsets, machines, memo, layout, rows, qualified, defs, receivers,
        regcounts, n, output,
    )
}

// The scratch of a call: a pack as long as may be has at most 32,767 names, 5,957 nodes and 4,681 machines; the layout of
// a machine is bounded by the limit of its states.
fn lower_with_scratch(pack: &[u8], sections: Pack, output: &mut [u8], report: &mut [u8]) -> Outcome
    requires { (length pack.now ≤ max_bytes) × OpenedAs pack.now sections }
    ensures { (p : Package) → SectionsAt pack.now sections p → Answers (lower_package_machines (length output.old) (length report.old) p) (number_for result) (value_for result) output.old output.new report.old report.new }
{
    let mut offsets = [0u16; 32768];
    let mut to = [0u16; 32768];
    let mut ends = [0u16; 58986];
    let mut t = [0usize; 7698];
    let mut reg = [0usize; 514];
    let mut qualified = [0u8; 131072];
    let mut nodes = [0u16; 5958];
    let mut defs = [0usize; 4682];
    let mut receivers = [0usize; 4682];
    let mut regcounts = [0usize; 4682];
    lower_filled(
        pack,
        sections,
        &mut offsets,
        &mut to,
        &mut ends,
        &mut t,
        &mut reg,
        &mut qualified,
        &mut nodes,
        &mut defs,
        &mut receivers,
        &mut regcounts,
        output,
        report,
    )
}

// The same, kept apart: a function that calls itself is not inlined, so that the tables of a call and those of the check do not
// stand on the stack at once. No pack is longer than the check allows.
fn lower_out_of_line(pack: &[u8], sections: Pack, output: &mut [u8], report: &mut [u8]) -> Outcome
    requires { (length pack.now ≤ max_bytes) × OpenedAs pack.now sections }
    ensures { (p : Package) → SectionsAt pack.now sections p → Answers (lower_package_machines (length output.old) (length report.old) p) (number_for result) (value_for result) output.old output.new report.old report.new }
{
    if Pack::BYTES < pack.len() {
        let r = lower_out_of_line(&pack[..Pack::BYTES], sections, output, report);
        return r.map(|_| 0);
    }
    lower_with_scratch(pack, sections, output, report)
}

// A pack that was opened. One without machines stays as it is, and needs no scratch.
fn lower_checked(pack: &[u8], sections: Pack, output: &mut [u8], report: &mut [u8]) -> Outcome
    requires { (length pack.now ≤ max_bytes) × OpenedAs pack.now sections }
    ensures { Answers (lower_machines pack.now (length output.old) (length report.old)) (number_for result) (value_for result) output.old output.new report.old report.new }
{
    let m = number(pack, sections.machines);
    let count = m.value;
    if count == 0 {
        return copy_pack(pack, output);
    }
    lower_out_of_line(pack, sections, output, report)
}

// Lowers the machines of a pack: the lowered pack in `output`, or a report of what is refused in `report`.
pub fn lower_state_machines(pack: &[u8], output: &mut [u8], report: &mut [u8]) -> Outcome
    ensures { Answers (lower_machines pack.now (length output.old) (length report.old)) (number_for result) (value_for result) output.old output.new report.old report.new }
{
    let opened = read_pack(pack);
    opened.verdict?;
    lower_checked(pack, opened.pack, output, report)
}

// The same with number and value in one word.
pub fn lower_state_machines_word(pack: &[u8], output: &mut [u8], report: &mut [u8]) -> u64
    ensures word { result ≡ returned (lower_machines pack.now (length output.old) (length report.old)) }
    ensures output { output.new ≡ output_of (lower_machines pack.now (length output.old) (length report.old)) output.old }
    ensures report { report.new ≡ report_of (lower_machines pack.now (length output.old) (length report.old)) report.old }
{
    returned_word(lower_state_machines(pack, output, report))
}
