// Numbers on lent bytes, lowest byte first.
ghost use Rattle.std.specs.Prelude.{◌≡◌, ℕ, ◌<◌, ◌^◌, Result};
ghost use Rattle.wire.specs.declared.answer.Stop.{Stop};
ghost use Rattle.wire.specs.Answer.{byte, u16, u32, u64, index, below};
ghost use Rattle.wire.specs.Code.{Skipped, listed, read_of, skip};

use crate::answer::{Number, Read, Skipped, Stop};

// How many values a word of 16 bits has.
pub const WORD_RANGE: usize = 256 * 256;
// The greatest of them.
pub const WORD_MAX: usize = WORD_RANGE - 1;

// A byte.
pub fn read_byte(s: &[u8], at: usize) -> Read
    ensures { result ≡ read_of (byte s.now at) }
{
    let b = s.get(at).ok_or(Stop::Early)?;
    Ok(Number {
        value: usize::from(*b),
        next: at + 1,
    })
}

// A number of 16 bits.
pub fn read_u16(s: &[u8], at: usize) -> Read
    ensures { result ≡ read_of (u16 s.now at) }
{
    let low = read_byte(s, at)?;
    let high = read_byte(s, low.next)?;
    Ok(Number {
        value: low.value + 256 * high.value,
        next: high.next,
    })
}

// A byte below a bound.
pub fn read_below(s: &[u8], bound: usize, at: usize) -> Read
    ensures { result ≡ read_of (below bound s.now at) }
{
    read_byte(s, at)?.checked(bound, at)
}

// A name index, below the number of names.
pub fn read_index(s: &[u8], names: usize, at: usize) -> Read
    ensures { result ≡ read_of (index names s.now at) }
{
    read_u16(s, at)?.checked(names, at)
}

// A number of 32 bits.
pub fn read_u32(s: &[u8], at: usize) -> Read
    ensures { result ≡ read_of (u32 s.now at) }
{
    let low = read_u16(s, at)?;
    let high = read_u16(s, low.next)?;
    Ok(Number {
        value: low.value + WORD_RANGE * high.value,
        next: high.next,
    })
}

// A number of 64 bits, passed over.
pub fn skip_u64(s: &[u8], at: usize) -> Skipped
    ensures { result ≡ skip (u64 s.now at) }
{
    let low = read_u32(s, at)?;
    Ok(read_u32(s, low.next)?.next)
}

// A list: its count, and then as many elements, each passed over by `each`.
pub fn skip_list<F: Fn(usize) -> Skipped>(s: &[u8], at: usize, each: F) -> Skipped
    requires { F.IsAlwaysCallable each }
    ensures { (k : ℕ → Skipped) → ((p : ℕ) (r : Skipped) → p < 2 ^ 64 → F.post each p r → r ≡ k p) → result ≡ listed s.now k at }
{
    let count = read_u16(s, at)?;
    let mut p = count.next;
    for _ in 0..count.value {
        p = each(p)?;
    }
    Ok(p)
}
