// Names by number, so that tables and comparisons need no letters:
//   x < names       the pack's name of index x, also where it is a holder's or a sample's
//   names + v       the holder of the variable v, where its name is no old one
//   NO_NUMBER       none: a sample whose name is no old one, a variable without holder
// First the numbers of holders, then names written by their number and the numbers of samples.
ghost use Rattle.std.specs.Prelude.{◌≡◌, ◌+◌, ◌<◌, ◌≤◌, ℕ, List};
ghost use Rattle.wire.specs.Bytes.{word_range};
ghost use Rattle.activations.specs.Ids.{old_or};
ghost use Rattle.activation_rules.specs.MadeNames.{last_var};
ghost use Rattle.activations.specs.TypeHoldersAt.{holder_number, holder_t};
ghost use Rattle.wire.specs.Writer.{puts, state_of};
ghost use Rattle.pack.specs.Intern.{put_name, render};
ghost use Rattle.activations.specs.NameIdsAt.{id_items, last_id_t, name_t, sample_name_t, sample_t};

use crate::made_names::{put_last, put_last_text, put_sample_start};
use crate::pack_info::{PackInfo, lookup_made};
use machines::layout::pack_name;
use pack::cells::cell;
use pack::intern::put_built;
use pack::record::Pack;
use wire::number::WORD_RANGE;
use wire::writer::{Writer, put_bytes, put_u16};

// x where it is an old name's index, else v more than the number of names.
#[tactic(auto, unfolding(crate::specs::Ids::old_or))]
fn old_or(names: usize, x: usize, v: usize) -> usize
    requires { (names ≤ word_range) × (v ≤ word_range) }
    ensures { result ≡ old_or names x (names + v) }
{
    if x < names { x } else { names + v }
}

// The number of the holder of v, whose name is n, in the activation a.
#[tactic(auto, unfolding(crate::specs::TypeHoldersAt::holder_number, activation_rules::specs::MadeNames::last_var))]
fn id_of(old: &[u8], info: PackInfo, a: &[u8], n: &[u8], v: usize) -> usize
    requires { (info.names ≤ word_range) × (v ≤ word_range) }
    ensures { result ≡ holder_number old.now info (last_var a.now n.now) v }
{
    let mut buf = [0u8; Pack::NAME];
    let t = put_last_text(&mut buf, Writer::start(), a, n);
    let x = lookup_made(old, info, &buf, t);
    old_or(info.names, x, v)
}

// The number of the holder of v in the activation a.
#[tactic(auto, unfolding(crate::specs::TypeHoldersAt::holder_t))]
pub fn holder_id(
    old: &[u8],
    pack: &[u8],
    info: PackInfo,
    offsets: &[u16],
    a: &[u8],
    v: usize,
) -> usize
    requires { (info.names ≤ word_range) × (v ≤ word_range) }
    ensures { result ≡ holder_t old.now pack.now info offsets.now a.now v }
{
    let n = pack_name(pack, offsets, v);
    id_of(old, info, a, n, v)
}

// --- Names by number: an old name's index, or the number of names and a variable's index for its holder.

// The number of none: no cell of a table has it.
pub const NO_NUMBER: usize = WORD_RANGE;

// The name of x.
pub fn put_id(
    old: &[u8],
    pack: &[u8],
    offsets: &[u16],
    names: usize,
    a: &[u8],
    x: usize,
    out: &mut [u8],
    made: &mut [u8],
    writer: Writer,
) -> Writer
    ensures { state_of out.new made.new result ≡ render old.now (id_items pack.now offsets.now names a.now x) (state_of out.old made.old writer) }
{
    if x < names {
        put_u16(out, writer, x)
    } else {
        put_last(
            old,
            a,
            pack_name(pack, offsets, x - names),
            out,
            made,
            writer,
        )
    }
}

// Its text.
#[tactic(auto, unfolding(crate::specs::NameIdsAt::name_t))]
fn put_id_text(
    out: &mut [u8],
    writer: Writer,
    pack: &[u8],
    offsets: &[u16],
    names: usize,
    a: &[u8],
    x: usize,
) -> Writer
    ensures { (m : List ℕ) → state_of out.new m result ≡ puts (name_t pack.now offsets.now names a.now x) (state_of out.old m writer) }
{
    if x < names {
        put_bytes(pack_name(pack, offsets, x), out, writer)
    } else {
        put_last_text(out, writer, a, pack_name(pack, offsets, x - names))
    }
}

// The text of the name of its sample in the scope k of n branches.
pub fn put_sample_text(
    out: &mut [u8],
    writer: Writer,
    pack: &[u8],
    offsets: &[u16],
    names: usize,
    a: &[u8],
    n: usize,
    k: usize,
    x: usize,
) -> Writer
    ensures { (m : List ℕ) → state_of out.new m result ≡ puts (sample_name_t pack.now offsets.now names a.now n k x) (state_of out.old m writer) }
{
    let c = put_sample_start(out, writer, a, n, k);
    put_id_text(out, c, pack, offsets, names, a, x)
}

// The sample of x in the scope k of n branches, by its number among the names.
pub fn put_sample_of(
    old: &[u8],
    pack: &[u8],
    offsets: &[u16],
    names: usize,
    a: &[u8],
    n: usize,
    k: usize,
    x: usize,
    out: &mut [u8],
    made: &mut [u8],
    writer: Writer,
) -> Writer
    ensures { state_of out.new made.new result ≡ put_name old.now (sample_name_t pack.now offsets.now names a.now n k x) (state_of out.old made.old writer) }
{
    let mut buf = [0u8; Pack::NAME];
    let t = put_sample_text(&mut buf, Writer::start(), pack, offsets, names, a, n, k, x);
    put_built(old, &buf, t, out, made, writer)
}

// Its number, where its name is an old one.
#[tactic(auto, unfolding(crate::specs::NameIdsAt::sample_t, crate::specs::Ids::old_or))]
pub fn sample_id(
    old: &[u8],
    pack: &[u8],
    offsets: &[u16],
    info: PackInfo,
    a: &[u8],
    n: usize,
    k: usize,
    x: usize,
) -> usize
    ensures { result ≡ sample_t pack.now offsets.now info.names a.now old.now info.made n k x }
{
    let mut buf = [0u8; Pack::NAME];
    let t = put_sample_text(
        &mut buf,
        Writer::start(),
        pack,
        offsets,
        info.names,
        a,
        n,
        k,
        x,
    );
    let i = lookup_made(old, info, &buf, t);
    if i < info.names { i } else { NO_NUMBER }
}

// The number of the holder of v, by the first row of v.
pub fn last_id(lasts: &[u16], rows: usize, v: usize) -> usize
    requires { rows < word_range }
    ensures { result ≡ last_id_t lasts.now rows v }
{
    for row in 0..rows {
        let h = 3 * row;
        if cell(lasts, h) == v {
            return cell(lasts, h + 2);
        }
    }
    NO_NUMBER
}
