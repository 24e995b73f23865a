// The call that lowers a pack's activations: nothing lent is changed before the answer is known.
ghost use Rattle.std.specs.Prelude.{◌≡◌, ◌-◌, ◌<◌, ◌≤◌, length};
ghost use Rattle.wire.specs.Bytes.{word_range};
ghost use Rattle.pack_rules.specs.Syntax.{Package};
ghost use Rattle.pack.specs.Table.{tabled};
ghost use Rattle.pack.specs.Intern.{table};
ghost use Rattle.pack_rules.specs.Outcome.{Answers, Gives, output_of, report_of, returned, written};
ghost use Rattle.pack.specs.Finish.{number_for, value_for};
ghost use Rattle.pack.specs.Verdict.{SectionsAt};
ghost use Rattle.pack_rules.specs.Limits.{max_bytes};
ghost use Rattle.machines.specs.Layout.{slice_of};
ghost use Rattle.machines.specs.CallTables.{OpenedAs};
ghost use Rattle.activation_rules.specs.Activations.{activations_lowered, made_activations};
ghost use Rattle.activation_rules.specs.Call.{lower_activations, lower_package_activations};
ghost use Rattle.activations.specs.PackInfoAt.{Basis, Scratch};
ghost use Rattle.activations.specs.AddedParts.{Settled};
ghost use Rattle.activations.specs.CallAt.{Blank, base_t};

use crate::owners::{place_acts, place_nodes};
use crate::pack_info::{PackInfo, lookup, some_made};
use crate::report::{answer_report, refused_count};
use crate::sections::put_sections;
use crate::types::{SPOTS, keep_firsts};
use crate::verdicts::judge_nodes;
use machines::checked_read::number;
use machines::layout::between;
use machines::table::place_names;
use pack::check::read_pack;
use pack::finish::{Outcome, copy_pack, finish, returned_word};
use pack::intern::build_name_table;
use pack::record::Pack;
use pack::table::ROOM;
use wire::number::WORD_RANGE;

// What is known of the pack as a whole.
fn base_of(old: &[u8], pack: &[u8], sections: Pack, offsets: &[u16]) -> PackInfo
    ensures { result ≡ base_t old.now pack.now sections offsets.now }
{
    PackInfo {
        names: sections.names,
        last: lookup(old, b"last"),
        enums: sections.enums,
        made: some_made(pack, sections.names, offsets),
    }
}

// The lowered pack, where nothing is refused. It is made in buffers of the call's own, and copied out where it fits.
fn write_all(
    old: &[u8],
    pack: &[u8],
    sections: Pack,
    info: PackInfo,
    offsets: &[u16],
    acts: &[u16],
    n: usize,
    nodes: &[u16],
    m: usize,
    types: &mut [u16],
    outs: &mut [u16],
    lasts: &mut [u16],
    reads: &mut [u16],
    sampled: &mut [u16],
    later: &mut [u16],
    output: &mut [u8],
) -> Outcome
    requires { (length pack.now ≤ max_bytes) × (info.names ≤ word_range) × (n ≤ 6656) × Scratch later.old types.old outs.old lasts.old reads.old sampled.old }
    ensures answers { (p : Package) → SectionsAt pack.now sections p → Basis p.names p.enums old.now pack.now offsets.now info → Settled p.names pack.now p.enums p.nodes p.activations nodes.now acts.now m n → Gives (written (length output.old) (activations_lowered p (made_activations p))) (number_for result) (value_for result) output.old output.new }
    ensures fits { (number_for result ≤ 9) × (value_for result < 4294967296) }
{
    let mut out = [0u8; Pack::BYTES];
    let mut made = [0u8; ROOM];
    let w = put_sections(
        old, pack, sections, info, offsets, acts, n, nodes, m, types, outs, lasts, reads, sampled,
        later, &mut out, &mut made,
    );
    finish(between(pack, 2, sections.enums), &made, &out, w, output)
}

// A pack whose sections stand where x says, by tables that are filled here.
fn lower_filled(
    pack: &[u8],
    sections: Pack,
    old: &[u8],
    offsets: &mut [u16],
    nodes: &mut [u16],
    acts: &mut [u16],
    types: &mut [u16],
    outs: &mut [u16],
    lasts: &mut [u16],
    reads: &mut [u16],
    sampled: &mut [u16],
    later: &mut [u16],
    output: &mut [u8],
    report: &mut [u8],
) -> Outcome
    requires { (length pack.now ≤ max_bytes) × OpenedAs pack.now sections × Blank offsets.old nodes.old acts.old × Scratch later.old types.old outs.old lasts.old reads.old sampled.old × (old.now ≡ tabled (table (slice_of pack.now 2 (sections.enums - 2)))) }
    ensures answers { (p : Package) → SectionsAt pack.now sections p → Answers (lower_package_activations (length output.old) (length report.old) p) (number_for result) (value_for result) output.old output.new report.old report.new }
    ensures fits { (number_for result ≤ 9) × (value_for result < 4294967296) }
{
    let names = sections.names;
    keep_firsts(pack, names, sections.enums, offsets);
    place_names(pack, names, offsets);
    let b = base_of(old, pack, sections, offsets);
    let m = place_nodes(pack, names, sections.nodes, nodes);
    let n = place_acts(pack, names, sections.activations, nodes, m, acts);
    judge_nodes(
        old, pack, b, offsets, nodes, m, types, outs, lasts, reads, sampled, later, acts, n,
    );
    let refused = refused_count(acts, n);
    if refused != 0 {
        return answer_report(pack, names, offsets, acts, n, refused, report);
    }
    write_all(
        old, pack, sections, b, offsets, acts, n, nodes, m, types, outs, lasts, reads, sampled,
        later, output,
    )
}

// The scratch of a call: a pack as long as may be has at most 32,767 names, 5,957 nodes and 6,553 activations. Past the names'
// places there is room for what 17,408 enums start from.
fn lower_with_scratch(pack: &[u8], sections: Pack, output: &mut [u8], report: &mut [u8]) -> Outcome
    requires { (length pack.now ≤ max_bytes) × OpenedAs pack.now sections }
    ensures answers { (p : Package) → SectionsAt pack.now sections p → Answers (lower_package_activations (length output.old) (length report.old) p) (number_for result) (value_for result) output.old output.new report.old report.new }
    ensures fits { (number_for result ≤ 9) × (value_for result < 4294967296) }
{
    let mut offsets = [0u16; SPOTS];
    let mut nodes = [0u16; 6656];
    let mut acts = [0u16; 39936];
    let mut env = [0u16; WORD_RANGE];
    let mut outs = [0u16; 32768];
    let mut held = [0u16; 24576];
    let mut reads = [0u16; 21848];
    let mut seen = [0u16; 21848];
    let mut later = [0u16; 32768];
    let mut olds = [0u8; ROOM];
    let e = build_name_table(between(pack, 2, sections.enums), &mut olds);
    lower_filled(
        pack,
        sections,
        &olds[..e],
        &mut offsets,
        &mut nodes,
        &mut acts,
        &mut env,
        &mut outs,
        &mut held,
        &mut reads,
        &mut seen,
        &mut later,
        output,
        report,
    )
}

// The same, kept apart: a function that calls itself is not inlined, so that the tables of a call and those of the check do not
// stand on the stack at once. No pack is longer than the check allows.
fn lower_out_of_line(pack: &[u8], sections: Pack, output: &mut [u8], report: &mut [u8]) -> Outcome
    requires { (length pack.now ≤ max_bytes) × OpenedAs pack.now sections }
    ensures answers { (p : Package) → SectionsAt pack.now sections p → Answers (lower_package_activations (length output.old) (length report.old) p) (number_for result) (value_for result) output.old output.new report.old report.new }
    ensures fits { (number_for result ≤ 9) × (value_for result < 4294967296) }
{
    if Pack::BYTES < pack.len() {
        let r = lower_out_of_line(&pack[..Pack::BYTES], sections, output, report);
        r.map(|_| 0)
    } else {
        lower_with_scratch(pack, sections, output, report)
    }
}

// A pack that was opened. One without activations stays as it is, and needs no scratch.
fn lower_checked(pack: &[u8], sections: Pack, output: &mut [u8], report: &mut [u8]) -> Outcome
    requires { (length pack.now ≤ max_bytes) × OpenedAs pack.now sections }
    ensures answers { Answers (lower_activations pack.now (length output.old) (length report.old)) (number_for result) (value_for result) output.old output.new report.old report.new }
    ensures fits { (number_for result ≤ 9) × (value_for result < 4294967296) }
{
    if number(pack, sections.activations).value == 0 {
        copy_pack(pack, output)
    } else {
        lower_out_of_line(pack, sections, output, report)
    }
}

// Lowers the activations of a pack: the lowered pack in `output`, or a report of what is refused in `report`.
pub fn lower_activations(pack: &[u8], output: &mut [u8], report: &mut [u8]) -> Outcome
    ensures answers { Answers (lower_activations pack.now (length output.old) (length report.old)) (number_for result) (value_for result) output.old output.new report.old report.new }
    ensures fits { (number_for result ≤ 9) × (value_for result < 4294967296) }
{
    let opened = read_pack(pack);
    opened.verdict?;
    lower_checked(pack, opened.pack, output, report)
}

// The same with number and value in one word.
pub fn lower_activations_word(pack: &[u8], output: &mut [u8], report: &mut [u8]) -> u64
    ensures word { result ≡ returned (lower_activations pack.now (length output.old) (length report.old)) }
    ensures output { output.new ≡ output_of (lower_activations pack.now (length output.old) (length report.old)) output.old }
    ensures report { report.new ≡ report_of (lower_activations pack.now (length output.old) (length report.old)) report.old }
{
    returned_word(lower_activations(pack, output, report))
}
