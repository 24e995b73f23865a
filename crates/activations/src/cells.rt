// Tables of 16-bit words, wide enough for a pack's offsets and indexes. All is total: 0 past the end, and nothing is written there.
ghost use Rattle.std.specs.Prelude.{◌≡◌, ◌+◌, ◌-◌, ◌<◌, get_or};
ghost use Rattle.wire.specs.Bytes.{word_range};
ghost use Rattle.activations.specs.Cells.{put_t, clear_t, copy_t};

use wire::number::WORD_RANGE;

// The word k words after p.
pub fn word(t: &[u16], p: usize, k: usize) -> usize
    ensures { (result < word_range) × (result ≡ get_or t.now (p + k) 0) }
{
    if p < t.len() && k < t.len() - p {
        usize::from(t[p + k])
    } else {
        0
    }
}

// Sets that word to v, by 16 bits.
#[tactic(auto, unfolding(crate::specs::Cells::put_t))]
pub fn put_word(t: &mut [u16], p: usize, k: usize, v: usize)
    ensures { t.new ≡ put_t t.old (p + k) v }
{
    if p < t.len() && k < t.len() - p {
        t[p + k] = (v % WORD_RANGE) as u16;
    }
}

// Zero in the first n cells.
pub fn clear(t: &mut [u16], n: usize)
    ensures { t.new ≡ clear_t n t.old }
{
    let end = n.min(t.len());
    t[..end].fill(0);
}

// The first n cells, over those of another table. One by one: the library's copy would have the C archive ask its caller for `memmove`.
pub fn copy(from: &[u16], to: &mut [u16], n: usize)
    ensures { to.new ≡ copy_t from.now n to.old }
{
    let end = n.min(to.len());
    let known = end.min(from.len());
    for i in 0..known {
        to[i] = from[i];
    }
    to[known..end].fill(0);
}
