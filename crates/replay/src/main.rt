// Replays stored answers of the harness. Standard input holds records: a pack's length (4 bytes, lowest first), the pack,
// and the word that the check returns for it (8 bytes, lowest first).
#![tactic(auto)]

ghost use Rattle.std.specs.Prelude.{◌+◌, ◌<◌, length};
ghost use Rattle.replay.specs.Tally.{Inside, Onward};

use pack::check::check_pack;
use pack::finish::Outcome;
use pack::record::Pack;
use programs::read_full;
use std::io;
use wire::number::read_u32;

// Where the next record stands, and how many were replayed and differed so far.
#[derive(Clone, Copy, Debug, Default, PartialEq, Eq)]
struct Tally {
    at: usize,
    compared: usize,
    different: usize,
}

// Whether the check's answer is the word that stands at `at`: its value, then its number.
fn agrees(s: &[u8], at: usize, answer: Outcome) -> bool {
    let Ok(low) = read_u32(s, at) else {
        return false;
    };
    let Ok(high) = read_u32(s, low.next) else {
        return false;
    };
    match answer {
        Ok(n) => low.value == n && high.value == 0,
        Err(e) => low.value as u64 == e.value() && high.value as u64 == e.number(),
    }
}

// A record that is cut short differs, and nothing is replayed after it.
fn broken(s: &[u8], t: Tally) -> Tally
    requires { Inside (length s.now) t }
    ensures { Onward (length s.now) t result }
{
    Tally {
        at: s.len(),
        compared: t.compared + 1,
        different: t.different + 1,
    }
}

// One record more.
fn replay_one(s: &[u8], t: Tally) -> Tally
    requires { Inside (length s.now) t }
    ensures { Onward (length s.now) t result }
{
    let Ok(len) = read_u32(s, t.at) else {
        return broken(s, t);
    };
    let p = len.next;
    if s.len() < p || s.len() - p < len.value {
        return broken(s, t);
    }
    let e = p + len.value;
    if s.len() - e < 8 {
        return broken(s, t);
    }
    let agreed = Tally {
        at: e + 8,
        compared: t.compared + 1,
        ..t
    };
    if agrees(s, e, check_pack(&s[p..e])) {
        agreed
    } else {
        Tally {
            different: t.different + 1,
            ..agreed
        }
    }
}

// All records.
fn replay(s: &[u8]) -> Tally {
    let mut t = Tally::default();
    while t.at < s.len() {
        t = replay_one(s, t);
    }
    t
}

// Replays the records of standard input, and prints how many were compared and how many differ.
fn main(rt: HostRuntime) -> io::Result<()> {
    let mut buf = [0u8; Pack::BYTES];
    let n = read_full(&mut rt.stdin(), &mut buf)?;
    let t = replay(&buf[..n]);
    println!(rt; "{} compared, {} different", t.compared, t.different)
}
