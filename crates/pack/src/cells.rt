// Tables of bytes and of 16-bit words, as wide as offsets into a pack and indexes of its names are. All is total: 0 past the end, and
// nothing is written there.
ghost use Rattle.std.specs.Prelude.{◌≡◌, ◌%◌, ◌<◌, slice_index, slice_set};
ghost use Rattle.wire.specs.Bytes.{word_range};

use wire::number::WORD_RANGE;

// The byte at i.
pub fn byte_at(t: &[u8], i: usize) -> usize
    ensures { (result ≡ slice_index t.now i) × (result < 256) }
{
    if i < t.len() {
        return t[i] as usize;
    }
    0
}

// Sets the byte at i to v.
pub fn set_byte(t: &mut [u8], i: usize, v: u8)
    ensures { t.new ≡ slice_set t.old i v }
{
    if i < t.len() {
        t[i] = v;
    }
}

// The word at i.
pub fn cell(t: &[u16], i: usize) -> usize
    ensures { result ≡ slice_index t.now i }
{
    if i < t.len() { t[i] as usize } else { 0 }
}

// Sets the word at i to v, by 16 bits.
pub fn put_cell(t: &mut [u16], i: usize, v: usize)
    ensures { t.new ≡ slice_set t.old i (v % word_range) }
{
    if i < t.len() {
        t[i] = (v % WORD_RANGE) as u16;
    }
}
