// What is known of a pack as a whole, and names by their index.
ghost use Rattle.std.specs.Prelude.{[], ◌≡◌};
ghost use Rattle.wire.specs.Writer.{state_of};
ghost use Rattle.activations.specs.Lookups.{made_at, some_made_t, place_built, place_in};

use machines::layout::pack_name;
use pack::table::seek_name;
use wire::writer::Writer;

// How many names there are; the index of `last` among them, their number where it is none; where enums stand; whether a name
// begins as made ones do.
#[derive(Clone, Copy)]
pub struct PackInfo {
    pub names: usize,
    pub last: usize,
    pub enums: usize,
    pub made: bool,
}

// The index of a text among the old names, their number where it is none.
pub fn lookup(old: &[u8], t: &[u8]) -> usize
    ensures { result ≡ place_in old.now t.now }
{
    match seek_name(old, t) {
        Ok(k) => k,
        Err(k) => k,
    }
}

// The index of a made name that stands in a buffer at the writer t, their number where it is no old one. All made names begin
// alike, so that most packs need no search.
pub fn lookup_made(old: &[u8], info: PackInfo, buf: &[u8], t: Writer) -> usize
    ensures { result ≡ place_built (place_in old.now) info.names info.made (state_of buf.now [] t) }
{
    if !t.full && info.made {
        lookup(old, &buf[..t.at.min(buf.len())])
    } else {
        info.names
    }
}

// Whether the name of an index begins with `__act_`.
fn made_at(pack: &[u8], offsets: &[u16], k: usize) -> bool
    ensures { result ≡ made_at pack.now offsets.now k }
{
    pack_name(pack, offsets, k).starts_with(b"__act_")
}

// Whether one of the names does.
pub fn some_made(pack: &[u8], names: usize, offsets: &[u16]) -> bool
    ensures { result ≡ some_made_t pack.now offsets.now names }
{
    (0..names).any(|k| made_at(pack, offsets, k))
}
