// Charts against stored answers. Standard input holds one chart after the other, in parts that each stand after their length
// (4 bytes, lowest first): the chart's name and its pack; then for the check, for lowering machines and for lowering
// activations the returned word (8 bytes, lowest first) and what the output and the report begin with.
#![tactic(auto)]

ghost use Rattle.std.specs.Prelude.{◌≤◌, ◌<◌, length, IfOk};
ghost use Rattle.charts.specs.Parts.{Onward};

use machines::checked_read::read_or_zero;
use machines::layout::between;
use ol_lower::{ol_lower_activations, ol_lower_state_machines, ol_pack_check};
use pack::record::Pack;
use programs::read_full;
use std::io;
use wire::number::read_u32;

// What both buffers are filled with before a call.
const FILL: u8 = 170;

// Where a part stands.
#[derive(Clone, Copy, Debug, PartialEq, Eq)]
struct Part {
    from: usize,
    to: usize,
}

// Where the next answer or chart stands, and whether this one is as stored.
#[derive(Clone, Copy, Debug, PartialEq, Eq)]
struct Tried {
    next: usize,
    agrees: bool,
}

// The part at `at`; one that is cut short is empty, and nothing comes after it.
fn part_at(s: &[u8], at: usize) -> Part
    ensures { Onward (length s.now) at result.to }
{
    let end = s.len();
    match read_u32(s, at) {
        Ok(len) if len.value <= end - len.next => Part {
            from: len.next,
            to: len.next + len.value,
        },
        _ => Part { from: end, to: end },
    }
}

// Whether a stored word is the one that a call returned: its value, then its number.
fn returned_as(stored: &[u8], word: u64) -> bool {
    if stored.len() != 8 {
        return false;
    }
    let low = read_or_zero(read_u32(stored, 0));
    let high = read_or_zero(read_u32(stored, 4));
    if low.value as u64 != word % 0x1_0000_0000 {
        return false;
    }
    high.value as u64 == word / 0x1_0000_0000
}

// Whether a buffer begins with these bytes and is as it was after them.
fn holds(buffer: &[u8], begins: &[u8]) -> bool {
    let n = begins.len();
    n <= buffer.len() && &buffer[..n] == begins && buffer[n..].iter().all(|b| *b == FILL)
}

// Says how a call differs.
fn print_difference(
    rt: &impl Print,
    name: &str,
    word: u64,
    output: bool,
    report: bool,
) -> io::Result<()> {
    print!(rt;
        ", {name} returned {} {}",
        word / 0x1_0000_0000,
        word % 0x1_0000_0000
    )?;
    if !output {
        print!(rt; ", its output differs")?;
    }
    if !report {
        print!(rt; ", its report differs")?;
    }
    Ok(())
}

// Whether a call on a pack returns this word and leaves these beginnings in its buffers.
fn agrees<F: Fn(&[u8], &mut [u8], &mut [u8]) -> u64>(
    rt: &impl Print,
    name: &str,
    call: F,
    pack: &[u8],
    stored: &[u8],
    output: &[u8],
    report: &[u8],
) -> io::Result<bool>
    requires { F.IsAlwaysCallable call }
{
    let mut o = [FILL; Pack::BYTES];
    let mut r = [FILL; Pack::BYTES];
    let word = call(pack, &mut o, &mut r);
    let returned = returned_as(stored, word);
    let output_holds = holds(&o, output);
    let report_holds = holds(&r, report);
    if returned && output_holds && report_holds {
        return Ok(true);
    }
    print_difference(rt, name, word, output_holds, report_holds)?;
    Ok(false)
}

// One call on a pack, whose answer stands at `at`.
fn try_call<F: Fn(&[u8], &mut [u8], &mut [u8]) -> u64>(
    rt: &impl Print,
    s: &[u8],
    pack: &[u8],
    at: usize,
    name: &str,
    call: F,
) -> io::Result<Tried>
    requires inside { at ≤ length s.now }
    requires callable { F.IsAlwaysCallable call }
    ensures { IfOk result (λ t. (at ≤ t.next) × (t.next ≤ length s.now)) }
{
    let word = part_at(s, at);
    let output = part_at(s, word.to);
    let report = part_at(s, output.to);
    let w = between(s, word.from, word.to);
    let o = between(s, output.from, output.to);
    let r = between(s, report.from, report.to);
    Ok(Tried {
        next: report.to,
        agrees: agrees(rt, name, call, pack, w, o, r)?,
    })
}

// The chart at `at`, in one line.
fn try_chart(rt: &impl Print, s: &[u8], at: usize) -> io::Result<Tried>
    requires { at < length s.now }
    ensures { IfOk result (λ t. (at < t.next) × (t.next ≤ length s.now)) }
{
    let name = part_at(s, at);
    let pack = part_at(s, name.to);
    let p = between(s, pack.from, pack.to);
    rt.write_all(between(s, name.from, name.to))?;
    let a = try_call(rt, s, p, pack.to, "check", |pack, _, _| ol_pack_check(pack))?;
    let b = try_call(rt, s, p, a.next, "machines", |pack, output, report| {
        ol_lower_state_machines(pack, output, report)
    })?;
    let c = try_call(rt, s, p, b.next, "activations", |pack, output, report| {
        ol_lower_activations(pack, output, report)
    })?;
    let agrees = a.agrees && b.agrees && c.agrees;
    if agrees {
        print!(rt; " ok")?;
    }
    println!(rt)?;
    Ok(Tried {
        next: c.next,
        agrees,
    })
}

// All charts, and how many there are.
fn try_all(rt: &impl Print, s: &[u8]) -> io::Result<()> {
    let mut tried = 0u64;
    let mut different = 0u64;
    let mut at = 0;
    while at < s.len() {
        let t = try_chart(rt, s, at)?;
        at = t.next;
        tried += 1;
        if !t.agrees {
            different += 1;
        }
    }
    println!(rt; "{tried} charts, {different} different")
}

// Room for the input. A function of its own makes it, as the proof of `main` would count so many bytes one by one.
fn input_room() -> [u8; 524288] {
    [0; 524288]
}

// Tries all charts of standard input.
fn main(rt: HostRuntime) -> io::Result<()> {
    let mut input = input_room();
    let n = read_full(&mut rt.stdin(), &mut input)?;
    try_all(&rt, &input[..n])
}
