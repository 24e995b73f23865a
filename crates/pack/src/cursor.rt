// A pack cursor: lent bytes together with an offset in them. The prover walks no function over such a struct, so these few are
// proved by hand; each leaves its work to a function on the plain slice, and `opening` is what other code calls.
ghost use Rattle.std.specs.Prelude.{◌≡◌};
ghost use Rattle.wire.specs.Code.{skip};
ghost use Rattle.pack_rules.specs.Read.{name_section};

use crate::names::skip_names;
use wire::answer::Skipped;

#[derive(Clone, Copy)]
pub struct Cursor<'a> {
    pub bytes: &'a [u8],
    pub at: usize,
}

// At the first byte.
pub fn start<'a>(bytes: &'a [u8]) -> Cursor<'a>
    ensures { (result.bytes ≡ bytes.entry) × (result.at ≡ 0) }
{
    Cursor { bytes, at: 0 }
}

// The name section at the cursor.
pub fn names<'a>(c: Cursor<'a>) -> Skipped
    ensures { result ≡ skip (name_section c.entry.bytes.now c.entry.at) }
{
    skip_names(c.bytes, c.at)
}

// The name section, with which a pack opens.
pub fn opening(pack: &[u8]) -> Skipped
    ensures { result ≡ skip (name_section pack.now 0) }
{
    names(start(pack))
}
