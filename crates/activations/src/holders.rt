// The holders of an activation: each gets its number and the type of its variable, then its equation is written, the initial value ->
// pre of the variable. They stand in rows of three words, in the order in which calls of `last` were found:
//   lasts[3h]   0 the variable, 1 where its initial value stands (0: none is given), 2 the holder's number
// Where none is given the type's default is taken. A variable without a type is LastUnknown, a type without a default LastNeedsInit, of
// the first row that has one.
ghost use Rattle.std.specs.Prelude.{List, ◌∷◌, ◌≡◌, ◌≤◌, ℕ, length};
ghost use Rattle.wire.specs.Bytes.{word_range};
ghost use Rattle.pack_rules.specs.Names.{Name};
ghost use Rattle.activations.specs.Refusing.{OfVariable, hold_with};
ghost use Rattle.activations.specs.LastsAt.{word_t};
ghost use Rattle.activations.specs.TypeHoldersAt.{hold_from, hold_of, hold_row, holder_t, known_t, needs_t};
ghost use Rattle.wire.specs.Writer.{puts, state_of};
ghost use Rattle.pack_rules.specs.Write.{lit_bytes};
ghost use Rattle.pack.specs.Intern.{render};
ghost use Rattle.pack_rules.specs.Limits.{max_bytes};
ghost use Rattle.machines.specs.AddedAt.{each_t};
ghost use Rattle.activations.specs.TypesAt.{zero_of};
ghost use Rattle.activations.specs.HoldersAt.{default_bytes, holder_items, init_bytes, row_items};

use crate::cells::{put_word, word};
use crate::checks::Refusal;
use crate::made_names::put_last;
use crate::name_ids::holder_id;
use crate::pack_info::PackInfo;
use crate::types::{TypeDefault, default_of, typed};
use machines::checked_read::after_expr;
use machines::layout::{between, pack_name};
use pack::cells::{cell, put_cell};
use wire::writer::{Writer, put_byte, put_bytes, put_u16};

// --- Holders made known: each has a number, and the type of its variable.

// Whether a holder of the type of code c has nothing to start from.
#[tactic(auto, unfolding(crate::specs::TypeHoldersAt::needs_t, crate::specs::TypesAt::is_missing))]
fn needs_init(pack: &[u8], info: PackInfo, offsets: &[u16], init: usize, c: usize) -> bool
    ensures { (ns : List Name) → length ns ≡ info.names → result ≡ needs_t ns pack.now info offsets.now init c }
{
    init == 0 && default_of(pack, info.names, info.enums, offsets, c).is_none()
}

// The row h of the variable v, of a type of code c, is known to what follows.
#[tactic(auto, unfolding(crate::specs::TypeHoldersAt::known_t, crate::specs::TypeHoldersAt::holder_t, crate::specs::Cells::put_t))]
fn known(
    old: &[u8],
    pack: &[u8],
    info: PackInfo,
    offsets: &[u16],
    a: &[u8],
    types: &mut [u16],
    lasts: &mut [u16],
    h: usize,
    v: usize,
    c: usize,
)
    requires { (info.names ≤ word_range) × (v ≤ word_range) × (h ≤ 8192) }
    ensures { hold_of types.new lasts.new 0 v ≡ known_t h v c (holder_t old.now pack.now info offsets.now a.now v) types.old lasts.old }
{
    let id = holder_id(old, pack, info, offsets, a, v);
    put_word(lasts, 3 * h, 2, id);
    put_cell(types, id, c);
}

// The row h: LastUnknown where its variable has no type, LastNeedsInit where there is nothing to start from.
#[tactic(auto, unfolding(crate::specs::Refusing::OfVariable, crate::specs::Refusing::numbers_of))]
fn type_holder(
    old: &[u8],
    pack: &[u8],
    info: PackInfo,
    offsets: &[u16],
    a: &[u8],
    outs: &[u16],
    types: &mut [u16],
    lasts: &mut [u16],
    h: usize,
) -> Result<(), Refusal>
    requires { (info.names ≤ word_range) × (h ≤ 8192) }
    ensures alone { OfVariable result }
    ensures held { (ns : List Name) → length ns ≡ info.names → hold_with info.names (word_t lasts.old h 0) types.new lasts.new result ≡ hold_row ns old.now pack.now info offsets.now a.now outs.now h types.old lasts.old }
{
    let v = word(lasts, 3 * h, 0);
    let c = typed(types, outs, info.names, v);
    if c == 0 {
        return Err(Refusal::LastUnknown(v));
    }
    let i = word(lasts, 3 * h, 1);
    if needs_init(pack, info, offsets, i, c) {
        return Err(Refusal::LastNeedsInit(v));
    }
    known(old, pack, info, offsets, a, types, lasts, h, v, c);
    Ok(())
}

// The holders of n rows in the order found, each known to those that follow; or the first refusal.
#[tactic(auto, unfolding(crate::specs::Refusing::OfVariable))]
pub fn type_holders(
    old: &[u8],
    pack: &[u8],
    info: PackInfo,
    offsets: &[u16],
    a: &[u8],
    outs: &[u16],
    types: &mut [u16],
    lasts: &mut [u16],
    n: usize,
) -> Result<(), Refusal>
    requires { (info.names ≤ word_range) × (n ≤ 8192) }
    ensures alone { OfVariable result }
    ensures held { (ns : List Name) → length ns ≡ info.names → hold_with info.names 0 types.new lasts.new result ≡ hold_from ns old.now pack.now info offsets.now a.now outs.now n 0 types.old lasts.old }
{
    for h in 0..n {
        type_holder(old, pack, info, offsets, a, outs, types, lasts, h)?;
    }
    Ok(())
}

// --- The equations of holders, written from their rows.

// A literal of this tag with value 0.
fn put_zero(tag: usize, out: &mut [u8], writer: Writer) -> Writer
    ensures { (m : List ℕ) → state_of out.new m result ≡ puts (0 ∷ lit_bytes (zero_of tag)) (state_of out.old m writer) }
{
    match tag {
        0 => put_bytes(b"\x00\x00\x00", out, writer),
        1 => put_bytes(b"\x00\x01\x00\x00\x00\x00\x00\x00\x00\x00", out, writer),
        2 => put_bytes(b"\x00\x02\x00\x00\x00\x00\x00\x00\x00\x00", out, writer),
        _ => put_bytes(b"\x00\x03\x00", out, writer),
    }
}

// What a holder starts from.
#[tactic(auto, unfolding(crate::specs::HoldersAt::default_bytes, wire::specs::Writer::puts))]
fn put_default(t: Option<TypeDefault>, out: &mut [u8], writer: Writer) -> Writer
    ensures { (m : List ℕ) → state_of out.new m result ≡ puts (default_bytes t) (state_of out.old m writer) }
{
    match t {
        None => writer,
        Some(TypeDefault::Literal(tag)) => put_zero(tag, out, writer),
        Some(TypeDefault::Name(v)) => {
            let c = put_byte(out, writer, 1);
            put_u16(out, c, v)
        }
    }
}

// The given initial value as it stands, else what the type of code c starts from.
#[tactic(auto, unfolding(wire::specs::Writer::puts, crate::specs::HoldersAt::init_bytes))]
fn put_init(
    pack: &[u8],
    info: PackInfo,
    offsets: &[u16],
    init: usize,
    c: usize,
    out: &mut [u8],
    writer: Writer,
) -> Writer
    requires { length pack.now ≤ max_bytes }
    ensures { (ns : List Name) → length ns ≡ info.names → (m : List ℕ) → state_of out.new m result ≡ puts (init_bytes ns pack.now info offsets.now init c) (state_of out.old m writer) }
{
    if init == 0 {
        let t = default_of(pack, info.names, info.enums, offsets, c);
        put_default(t, out, writer)
    } else {
        let e = after_expr(pack, info.names, init);
        put_bytes(between(pack, init, e), out, writer)
    }
}

// The equation of the holder of v, whose initial value stands at `init` or is that of the type of code c.
fn put_holder(
    old: &[u8],
    pack: &[u8],
    info: PackInfo,
    offsets: &[u16],
    a: &[u8],
    v: usize,
    init: usize,
    c: usize,
    out: &mut [u8],
    made: &mut [u8],
    writer: Writer,
) -> Writer
    requires { length pack.now ≤ max_bytes }
    ensures { (ns : List Name) → length ns ≡ info.names → state_of out.new made.new result ≡ render old.now (holder_items pack.now offsets.now a.now v (init_bytes ns pack.now info offsets.now init c)) (state_of out.old made.old writer) }
{
    let n = pack_name(pack, offsets, v);
    let x = put_u16(out, writer, 1);
    let y = put_last(old, a, n, out, made, x);
    let z = put_byte(out, y, 6);
    let i = put_init(pack, info, offsets, init, c, out, z);
    let p = put_bytes(b"\x05\x01", out, i);
    put_u16(out, p, v)
}

// The equations of the holders of `count` rows; the type of each is in `types` by its number.
pub fn put_holders(
    old: &[u8],
    pack: &[u8],
    info: PackInfo,
    offsets: &[u16],
    a: &[u8],
    types: &[u16],
    lasts: &[u16],
    count: usize,
    out: &mut [u8],
    made: &mut [u8],
    writer: Writer,
) -> Writer
    requires { (length pack.now ≤ max_bytes) × (count ≤ 8192) }
    ensures { (ns : List Name) → length ns ≡ info.names → state_of out.new made.new result ≡ render old.now (each_t (row_items ns pack.now info offsets.now a.now types.now lasts.now) count 0) (state_of out.old made.old writer) }
{
    let mut u = writer;
    for h in 0..count {
        if u.full {
            break;
        }
        let v = word(lasts, 3 * h, 0);
        let i = word(lasts, 3 * h, 1);
        let c = cell(types, word(lasts, 3 * h, 2));
        u = put_holder(old, pack, info, offsets, a, v, i, c, out, made, u);
    }
    u
}
