// Lowers the pack on standard input: its machines, then the activations of the result. One line a call: the call's name,
// the returned number, the returned value.
#![tactic(auto)]

ghost use Rattle.std.specs.Prelude.{◌≡◌};
ghost use Rattle.pack.specs.Finish.{number_for, value_for};
ghost use Rattle.pack_rules.specs.Limits.{max_bytes};
ghost use Rattle.machine_rules.specs.Call.{lower_machines};
ghost use Rattle.activation_rules.specs.Call.{lower_activations};
ghost use Rattle.lower.specs.Calls.{calls_after, returned_for};

use activations::call::lower_activations;
use machines::call::lower_state_machines;
use pack::finish::Outcome;
use pack::record::Pack;
use programs::read_full;
use std::io;

// The number and the value of the table of answers that a call returned.
#[derive(Clone, Copy, Debug, PartialEq, Eq)]
struct Returned {
    number: u64,
    value: u64,
}

// The calls that were made, with what each returned.
#[derive(Clone, Copy, Debug, PartialEq, Eq)]
enum Calls {
    First(Returned),
    Both(Returned, Returned),
}

// The row of the table of answers that a call returned.
fn row_of(answer: Outcome) -> Returned
    ensures { (result.number ≡ number_for answer) × (result.value ≡ value_for answer) }
{
    match answer {
        Ok(n) => Returned {
            number: 0,
            value: n as u64,
        },
        Err(e) => Returned {
            number: e.number(),
            value: e.value(),
        },
    }
}

// Writes a call's line.
fn print_line(rt: &impl Print, call: &str, answer: Returned) -> io::Result<()> {
    println!(rt; "{call} {} {}", answer.number, answer.value)
}

// The second call, on what the first one wrote.
fn lower_second(pack: &[u8]) -> Returned
    ensures { result ≡ returned_for (lower_activations pack.now max_bytes max_bytes) }
{
    let mut output = [0u8; Pack::BYTES];
    let mut report = [0u8; Pack::BYTES];
    row_of(lower_activations(pack, &mut output, &mut report))
}

// The first call, and where it is not refused the second on what it wrote.
fn lower_both(pack: &[u8]) -> Calls
    ensures { result ≡ calls_after (lower_machines pack.now max_bytes max_bytes) }
{
    let mut output = [0u8; Pack::BYTES];
    let mut report = [0u8; Pack::BYTES];
    let first = lower_state_machines(pack, &mut output, &mut report);
    match first {
        Err(_) => Calls::First(row_of(first)),
        Ok(n) => Calls::Both(row_of(first), lower_second(&output[..n])),
    }
}

// Writes a line for each call. What is written no contract can say.
fn print_calls(rt: &impl Print, calls: Calls) -> io::Result<()> {
    match calls {
        Calls::First(first) => print_line(rt, "machines", first),
        Calls::Both(first, second) => {
            print_line(rt, "machines", first)?;
            print_line(rt, "activations", second)
        }
    }
}

// One byte more is read than a pack may have: a longer pack is seen to be longer, and what comes after is dropped.
fn main(rt: HostRuntime) -> io::Result<()> {
    let mut input = [0u8; Pack::BYTES + 1];
    let n = read_full(&mut rt.stdin(), &mut input)?;
    print_calls(&rt, lower_both(&input[..n]))
}
