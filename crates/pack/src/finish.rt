// The last step of both lowerings: what the writer reached becomes a pack in the caller's buffer, where it fits.
ghost use Rattle.std.specs.Prelude.{◌≡◌, ◌+◌, ◌*◌, ◌<◌, ◌≤◌, min, ◌++◌, length};
ghost use Rattle.wire.specs.Bytes.{two};
ghost use Rattle.wire.specs.Writer.{state_of};
ghost use Rattle.pack_rules.specs.Outcome.{Gives, begins, sized};
ghost use Rattle.pack.specs.Finish.{answered, error_number, error_value, number_for, pack_of, value_for};
ghost use Rattle.pack_rules.specs.Limits.{max_bytes};

use crate::intern::count_names;
use crate::record::Pack;
use crate::table::TEXTS;
use wire::writer::{Writer, append};

// Why a call gives no pack: the table of answers but for 0, each with what is told beside it.
#[derive(Clone, Copy, Debug, PartialEq, Eq)]
pub enum CallError {
    TooLong,
    EndsEarly(usize),
    Illegal(usize),
    TooDeep(usize),
    BytesAfter(usize),
    Refused(usize),
    ReportRoom(usize),
    TooLarge,
    OutputRoom(usize),
}

// A pack's length, or why there is none.
pub type Outcome = Result<usize, CallError>;

impl CallError {
    // Its number in the table of answers.
    pub fn number(self) -> u64
        ensures { result ≡ error_number self }
    {
        match self {
            CallError::TooLong => 1,
            CallError::EndsEarly(_) => 2,
            CallError::Illegal(_) => 3,
            CallError::TooDeep(_) => 4,
            CallError::BytesAfter(_) => 5,
            CallError::Refused(_) => 6,
            CallError::ReportRoom(_) => 7,
            CallError::TooLarge => 8,
            CallError::OutputRoom(_) => 9,
        }
    }

    // The value beside the number.
    pub fn value(self) -> u64
        ensures { result ≡ error_value self }
    {
        match self {
            CallError::TooLong => Pack::BYTES as u64,
            CallError::EndsEarly(n) => n as u64,
            CallError::Illegal(o) => o as u64,
            CallError::TooDeep(o) => o as u64,
            CallError::BytesAfter(o) => o as u64,
            CallError::Refused(n) => n as u64,
            CallError::ReportRoom(n) => n as u64,
            CallError::TooLarge => 0,
            CallError::OutputRoom(n) => n as u64,
        }
    }
}

// A number of the table of answers and a value in one word: the number times 2^32 plus the value.
pub fn answer_word(number: u64, value: u64) -> u64
    requires { (number ≤ 9) × (value < 4294967296) }
    ensures { result ≡ number * 4294967296 + value }
{
    number * 0x1_0000_0000 + value
}

// Number and value of what a call answers in one word, as the C interface returns them.
pub fn returned_word(answer: Outcome) -> u64
    requires { value_for answer < 4294967296 }
    ensures { result ≡ number_for answer * 4294967296 + value_for answer }
{
    match answer {
        Ok(n) => answer_word(0, n as u64),
        Err(e) => answer_word(e.number(), e.value()),
    }
}

// A pack's parts, one after the other from dst's start: the count of names, the old names, the new ones, the rest.
fn concat(count: usize, old: &[u8], made: &[u8], body: &[u8], dst: &mut [u8])
    requires { 2 + length old.now + length made.now + length body.now ≤ length dst.old }
    ensures { dst.new ≡ begins (two count ++ (old.now ++ (made.now ++ body.now))) dst.old }
{
    let head = [(count % 256) as u8, (count / 256 % 256) as u8];
    let h = append(&head, dst, 0);
    let i = append(old, dst, h);
    let j = append(made, dst, i);
    append(body, dst, j);
}

// How many bytes the parts make; one more than the limit for any more than a pack may have, so that no sum wraps.
fn size(old: &[u8], made: &[u8], body: &[u8]) -> usize
    ensures { result ≡ min (2 + length old.now + length made.now + length body.now) (max_bytes + 1) }
{
    let most = Pack::BYTES + 1;
    2usize
        .saturating_add(old.len())
        .saturating_add(made.len())
        .saturating_add(body.len())
        .min(most)
}

// A pack's parts, copied out where they fit.
fn copy_out(old: &[u8], made: &[u8], body: &[u8], out: &mut [u8]) -> Outcome
    ensures { Gives (sized (length out.old) (pack_of old.now made.now body.now)) (number_for result) (value_for result) out.old out.new }
{
    let n = size(old, made, body);
    if Pack::BYTES < n {
        return Err(CallError::TooLarge);
    }
    if out.len() < n {
        return Err(CallError::OutputRoom(n));
    }
    let count = count_names(old) + count_names(made);
    concat(count, old, made, body, out);
    Ok(n)
}

// What the writer w reached after the old names: the table of new names in `made`, the rest in `body`.
pub fn finish(old: &[u8], made: &[u8], body: &[u8], writer: Writer, out: &mut [u8]) -> Outcome
    ensures { Gives (answered (length out.old) old.now (state_of body.now made.now writer)) (number_for result) (value_for result) out.old out.new }
{
    if writer.full {
        return Err(CallError::TooLarge);
    }
    let m = writer.made.min(made.len());
    let n = writer.at.min(body.len());
    let b = TEXTS.min(m);
    copy_out(old, &made[b..m], &body[..n], out)
}

// A pack that stays as it is, copied out where it fits.
pub fn copy_pack(pack: &[u8], out: &mut [u8]) -> Outcome
    requires { length pack.now ≤ max_bytes }
    ensures { Gives (sized (length out.old) pack.now) (number_for result) (value_for result) out.old out.new }
{
    if out.len() < pack.len() {
        return Err(CallError::OutputRoom(pack.len()));
    }
    append(pack, out, 0);
    Ok(pack.len())
}
