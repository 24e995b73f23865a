// A bounded writer on two lent buffers, `out` and `made`. Once full it stays full, so that a caller asks only at the end.
ghost use Rattle.std.specs.Prelude.{◌≡◌, List, [], ℕ, ◌+◌, ◌≤◌, min, length};
ghost use Rattle.wire.specs.Bytes.{two};
ghost use Rattle.wire.specs.Decimal.{decimal};
ghost use Rattle.wire.specs.Writer.{state_of, put, puts, swapped, full as is_full, st, overwritten};

// How far each buffer is written, and whether something did not fit.
#[derive(Clone, Copy)]
pub struct Writer {
    pub at: usize,
    pub made: usize,
    pub full: bool,
}

impl Writer {
    // Nothing written yet.
    pub fn start() -> Writer
        ensures { (o m : List ℕ) → state_of o m result ≡ st (length o) (length m) [] [] }
    {
        Writer {
            at: 0,
            made: 0,
            full: false,
        }
    }
}

// One byte more.
pub fn put_byte(out: &mut [u8], w: Writer, b: u8) -> Writer
    ensures { (m : List ℕ) → state_of out.new m result ≡ put b (state_of out.old m w) }
{
    if w.full {
        return w;
    }
    if w.at < out.len() {
        out[w.at] = b;
        Writer { at: w.at + 1, ..w }
    } else {
        Writer { full: true, ..w }
    }
}

// A number of 16 bits, lowest byte first.
pub fn put_u16(out: &mut [u8], w: Writer, k: usize) -> Writer
    ensures { (m : List ℕ) → state_of out.new m result ≡ puts (two k) (state_of out.old m w) }
{
    let a = put_byte(out, w, (k % 256) as u8);
    put_byte(out, a, (k / 256 % 256) as u8)
}

// Copies src over what dst holds from `at` on, and says where it ends. One by one: the library's copy would have the C archive ask its
// caller for `memmove`.
pub fn append(src: &[u8], dst: &mut [u8], at: usize) -> usize
    requires { at + length src.now ≤ length dst.old }
    ensures value { result ≡ at + length src.now }
    ensures dst_after { dst.new ≡ overwritten at src.now dst.old }
{
    for j in 0..src.len() {
        dst[at + j] = src[j];
    }
    at + src.len()
}

// The bytes of src, copied at once.
pub fn put_bytes(src: &[u8], out: &mut [u8], w: Writer) -> Writer
    ensures { (m : List ℕ) → state_of out.new m result ≡ puts src.now (state_of out.old m w) }
{
    if w.full {
        return w;
    }
    let at = w.at.min(out.len());
    if out.len() - at < src.len() {
        return stopped(w);
    }
    let end = append(src, out, at);
    Writer { at: end, ..w }
}

// The decimal digits of n.
pub fn put_digits(out: &mut [u8], w: Writer, n: usize) -> Writer
    ensures { (m : List ℕ) → state_of out.new m result ≡ puts (decimal n) (state_of out.old m w) }
{
    let last = b'0' + (n % 10) as u8;
    if n < 10 {
        return put_byte(out, w, last);
    }
    let v = put_digits(out, w, n / 10);
    put_byte(out, v, last)
}

// b + l, or n where that is less: the end of a part that starts at b and is cut at n.
pub fn capped(n: usize, b: usize, l: usize) -> usize
    requires { b ≤ n }
    ensures { result ≡ min (b + l) n }
{
    b + l.min(n - b)
}

// A full writer.
pub fn stopped(w: Writer) -> Writer
    ensures { (o m : List ℕ) → state_of o m result ≡ is_full }
{
    Writer { full: true, ..w }
}

// The writer with its two places exchanged, so that what writes to `out` writes to `made`.
pub fn turned(w: Writer) -> Writer
    ensures { (o m : List ℕ) → state_of m o result ≡ swapped (state_of o m w) }
{
    Writer {
        at: w.made,
        made: w.at,
        ..w
    }
}
