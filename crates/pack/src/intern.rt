// Names by number: the old names of a pack, then new ones in order of first use. A table is names, each after its length byte.
ghost use Rattle.std.specs.Prelude.{◌≡◌, ℕ, ◌+◌, ◌^◌, ◌<◌, ◌≤◌, min, List, [], length, take, replicate, slice_index};
ghost use Rattle.wire.specs.Writer.{state_of};
ghost use Rattle.pack_rules.specs.Names.{eq_name};
ghost use Rattle.pack.specs.RawNames.{raw_name};
ghost use Rattle.pack_rules.specs.Write.{lookup};
ghost use Rattle.pack.specs.Table.{table_room, tabled};
ghost use Rattle.pack.specs.Intern.{found_of, table, put_entry, put_entries, put_new, put_name, put_built, started};
ghost use Rattle.pack_rules.specs.Limits.{max_bytes, max_name};

use crate::cells::byte_at;
use crate::record::Pack;
use crate::table::{TEXTS, note, seek_name};
use wire::writer::{Writer, capped, put_byte, put_bytes, put_u16, stopped, turned};

// A name's number in a table; where it is missing, how many names there are.
pub type Found = Result<usize, usize>;

// Whether a and b hold the same bytes. By an index: names are short, and with `==` the search for one among many was slower.
pub fn same(a: &[u8], b: &[u8]) -> bool
    ensures { result ≡ eq_name a.now b.now }
{
    if a.len() != b.len() {
        return false;
    }
    for i in 0..a.len() {
        if a[i] != b[i] {
            return false;
        }
    }
    true
}

// Whether the name whose length byte stands at p is n.
pub fn is_at(pack: &[u8], p: usize, n: &[u8]) -> bool
    requires { p + 1 < 18446744073709551616 }
    ensures { result ≡ eq_name (raw_name pack.now p) n.now }
{
    let b = pack.len().min(p + 1);
    let e = capped(pack.len(), b, byte_at(pack, p));
    same(&pack[b..e], n)
}

// Where the name ends whose length byte stands at `at`.
fn name_end(t: &[u8], at: usize) -> usize
    requires { at < length t.now }
    ensures { result ≡ min (at + 1 + slice_index t.now at) (length t.now) }
{
    capped(t.len(), at + 1, usize::from(t[at]))
}

// The place of the name n in a table.
pub fn find_name(t: &[u8], n: &[u8]) -> Found
    ensures { found_of result ≡ lookup (table t.now) n.now 0 }
{
    let mut at = 0;
    let mut k = 0;
    while at < t.len() {
        let b = at + 1;
        let e = name_end(t, at);
        if same(&t[b..e], n) {
            return Ok(k);
        }
        at = e;
        k += 1;
    }
    Err(k)
}

// How many names a table has.
pub fn count_names(t: &[u8]) -> usize
    ensures { result ≡ length (table t.now) }
{
    let mut at = 0;
    let mut k = 0;
    while at < t.len() {
        at = name_end(t, at);
        k += 1;
    }
    k
}

// Nothing written yet, and no new name.
pub fn start() -> Writer
    ensures { (o m : List ℕ) → state_of o m result ≡ started o m }
{
    Writer {
        at: 0,
        made: TEXTS,
        full: false,
    }
}

// A name more in the table of new names, after its length byte.
pub fn put_entry(n: &[u8], made: &mut [u8], writer: Writer) -> Writer
    requires { length n.now ≤ max_name }
    ensures { (o : List ℕ) → state_of o made.new result ≡ put_entry n.now (state_of o made.old writer) }
{
    let end = writer.made.min(made.len());
    note(&mut made[..end], n);
    let a = put_byte(made, turned(writer), n.len() as u8);
    turned(put_bytes(n, made, a))
}

// The names of src entered in order.
fn put_entries(src: &[u8], made: &mut [u8], writer: Writer) -> Writer
    ensures { (o : List ℕ) → state_of o made.new result ≡ put_entries (table src.now) (state_of o made.old writer) }
{
    let mut v = writer;
    let mut at = 0;
    while at < src.len() {
        let b = at + 1;
        let e = name_end(src, at);
        v = put_entry(&src[b..e], made, v);
        at = e;
    }
    v
}

// The table of a pack's names, in a buffer of zeros; how long it is.
pub fn build_name_table(names: &[u8], t: &mut [u8]) -> usize
    requires { (length names.now ≤ max_bytes) × (t.old ≡ replicate table_room 0) }
    ensures { (result ≤ length t.new) × (take result t.new ≡ tabled (table names.now)) }
{
    let w = put_entries(names, t, start());
    w.made.min(t.len())
}

// The number of a name that is not among the `old` old ones: found among the new ones, or added there.
fn put_new(old: usize, n: &[u8], out: &mut [u8], made: &mut [u8], writer: Writer) -> Writer
    requires { (length n.now ≤ max_name) × (old < 2 ^ 63) }
    ensures { state_of out.new made.new result ≡ put_new old n.now (state_of out.old made.old writer) }
{
    let end = writer.made.min(made.len());
    match seek_name(&made[..end], n) {
        Ok(k) => put_u16(out, writer, old + k),
        Err(k) => {
            let v = put_entry(n, made, writer);
            put_u16(out, v, old + k)
        }
    }
}

// A name: its number among the old names and the new ones, where it is added if it is neither.
pub fn put_name(old: &[u8], n: &[u8], out: &mut [u8], made: &mut [u8], writer: Writer) -> Writer
    ensures { state_of out.new made.new result ≡ put_name old.now n.now (state_of out.old made.old writer) }
{
    if Pack::NAME < n.len() {
        return stopped(writer);
    }
    if writer.full {
        return writer;
    }
    match seek_name(old, n) {
        Ok(k) => put_u16(out, writer, k),
        Err(k) => put_new(k, n, out, made, writer),
    }
}

// A made name, which stands in a buffer of its own at the writer v.
pub fn put_built(
    old: &[u8],
    buf: &[u8],
    v: Writer,
    out: &mut [u8],
    made: &mut [u8],
    writer: Writer,
) -> Writer
    ensures { state_of out.new made.new result ≡ put_built old.now (state_of buf.now [] v) (state_of out.old made.old writer) }
{
    if v.full {
        return stopped(writer);
    }
    let end = v.at.min(buf.len());
    put_name(old, &buf[..end], out, made, writer)
}
