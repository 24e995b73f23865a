// The check: what a byte slice is as a pack, and where its sections stand.
ghost use Rattle.std.specs.Prelude.{◌≡◌, ◌<◌, ◌≤◌, length};
ghost use Rattle.wire.specs.Code.{skip};
ghost use Rattle.pack_rules.specs.Read.{pack_at, read};
ghost use Rattle.pack_rules.specs.Outcome.{check, number_of, returned, value_of};
ghost use Rattle.pack.specs.Finish.{number_for, value_for};
ghost use Rattle.pack.specs.Verdict.{judged_of, name_count, offset_of, record_of, sections_of, verdict_of};
ghost use Rattle.pack_rules.specs.Limits.{max_bytes};

use crate::cursor::opening;
use crate::finish::{CallError, Outcome, returned_word};
use crate::record::Pack;
use crate::sections::{skip_activations, skip_enums, skip_machines, skip_nodes, skip_origins};
use wire::answer::{Skipped, Stop};
use wire::number::read_u16;

// What a byte slice is as a pack, the table's answers 1 to 5 or a whole pack; and the record of where the sections stand.
#[derive(Clone, Copy, Debug, PartialEq, Eq)]
pub struct Opened {
    pub verdict: Result<(), CallError>,
    pub pack: Pack,
}

// How many names the name section counts, or 0.
fn name_count(pack: &[u8]) -> usize
    ensures { result ≡ name_count pack.now }
{
    match read_u16(pack, 0) {
        Ok(count) => count.value,
        Err(_) => 0,
    }
}

// Where reading stands.
#[tactic(auto, unfolding(crate::specs::Verdict::offset_of))]
pub fn reached(r: Skipped) -> usize
    ensures { result ≡ offset_of r }
{
    r.unwrap_or(0)
}

// What reading all sections of len bytes came to.
#[tactic(auto, unfolding(crate::specs::Verdict::judged_of))]
fn judged(end: Skipped, len: usize) -> Result<(), CallError>
    ensures { result ≡ judged_of end len }
{
    match end {
        Ok(at) if at < len => Err(CallError::BytesAfter(at)),
        Ok(_) => Ok(()),
        Err(Stop::Early) => Err(CallError::EndsEarly(len)),
        Err(Stop::Illegal(o)) => Err(CallError::Illegal(o)),
        Err(Stop::Deep(o)) => Err(CallError::TooDeep(o)),
    }
}

// Where each section ends and the next one begins, noted as they are read. The end of the last one.
fn note_sections(s: &[u8], pack: &mut Pack) -> Skipped
    requires short { length s.now ≤ max_bytes }
    requires begun { pack.old ≡ record { names = name_count s.now; enums = 0; nodes = 0; machines = 0; activations = 0; origins = 0; end = 0 } }
    ensures value { result ≡ skip (pack_at s.now 0) }
    ensures noted { pack.new ≡ sections_of s.now }
{
    let names = pack.names;
    pack.enums = opening(s)?;
    pack.nodes = skip_enums(s, names, pack.enums)?;
    pack.machines = skip_nodes(s, names, pack.nodes)?;
    pack.activations = skip_machines(s, names, pack.machines)?;
    pack.origins = skip_activations(s, names, pack.activations)?;
    pack.end = skip_origins(s, names, pack.origins)?;
    Ok(pack.end)
}

// Reads all sections.
fn read_sections(s: &[u8]) -> Opened
    requires { length s.now ≤ max_bytes }
    ensures verdict_value { result.verdict ≡ judged_of (skip (pack_at s.now 0)) (length s.now) }
    ensures pack_value { result.pack ≡ sections_of s.now }
{
    let mut pack = Pack {
        names: name_count(s),
        enums: 0,
        nodes: 0,
        machines: 0,
        activations: 0,
        origins: 0,
        end: 0,
    };
    let end = note_sections(s, &mut pack);
    Opened {
        verdict: judged(end, s.len()),
        pack,
    }
}

// Reads a pack: the verdict on every byte slice, and the record of where its sections stand, as far as it can be read.
pub fn read_pack(s: &[u8]) -> Opened
    ensures verdict_value { result.verdict ≡ verdict_of (length s.now) (read s.now) }
    ensures pack_value { result.pack ≡ record_of s.now }
{
    if Pack::BYTES < s.len() {
        return Opened {
            verdict: Err(CallError::TooLong),
            pack: Pack::empty(),
        };
    }
    read_sections(s)
}

// Checks a pack: its length, or the table's answers 1 to 5.
pub fn check_pack(pack: &[u8]) -> Outcome
    ensures answers { (number_for result ≡ number_of (check pack.now)) × (value_for result ≡ value_of (check pack.now)) }
    ensures fits { (number_for result ≤ 9) × (value_for result < 4294967296) }
{
    read_pack(pack).verdict?;
    Ok(pack.len())
}

// The same with number and value in one word.
pub fn ol_pack_check(pack: &[u8]) -> u64
    ensures { result ≡ returned (check pack.now) }
{
    returned_word(check_pack(pack))
}
