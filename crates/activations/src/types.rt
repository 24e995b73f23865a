// The types of variables, and what a variable of a type starts from. A type is a number: where it stands in the pack, 1 for Bool where
// none stands, 0 for none.
//   types     by a name's number: the owner's variables, a later one of a name over those before; holders join them
//   outs      by a name's index: the outputs of the activation, the first of a name
//   offsets   past the places of names, from FIRST_VARIANTS on, by the index of an enum's name: 1 + the index of its first variant
// The last is filled once a call: a pack has thousands of enums, and each variable would walk through all of them.
ghost use Rattle.std.specs.Prelude.{List, ◌≡◌, ◌≤◌, ℕ, length};
ghost use Rattle.wire.specs.Writer.{puts, state_of};
ghost use Rattle.pack_rules.specs.Names.{Name};
ghost use Rattle.pack_rules.specs.Limits.{max_bytes};
ghost use Rattle.activations.specs.Cells.{clear_t};
ghost use Rattle.activations.specs.TypeCodes.{out_t, typed_t, value_type_t};
ghost use Rattle.activations.specs.TypesAt.{default_t, default_word, first_port_t, first_ports_t, first_variant_t, inputs_in, plain_start, ports_end, ports_t, type_bytes, variables_t, variant_at, variant_or, variant_t};
ghost use Rattle.activations.specs.FirstVariantsAt.{first_t, firsts_t, kept_t};

use crate::cells::{clear, put_word};
use crate::parts::{after_type, right_side};
use machines::checked_read::{after_port, first_some, number, read_or_zero};
use machines::layout::between;
use pack::cells::{cell, put_cell};
use wire::number::read_byte;
use wire::writer::{Writer, put_byte, put_bytes};

// What a holder starts from: a literal of this tag with value 0, or a name.
#[derive(Clone, Copy)]
pub enum TypeDefault {
    Literal(usize),
    Name(usize),
}

// The types of ports, each over those before. Answers where the ports end.
fn note_ports(pack: &[u8], names: usize, types: &mut [u16], at: usize) -> usize
    requires { length pack.now ≤ max_bytes }
    ensures ends { (ns : List Name) → length ns ≡ names → result ≡ ports_end ns pack.now at }
    ensures noted { (ns : List Name) → length ns ≡ names → types.new ≡ ports_t ns pack.now at types.old }
{
    let c = number(pack, at);
    let mut p = c.next;
    for _ in 0..c.value {
        let x = number(pack, p);
        put_cell(types, x.value, x.next);
        p = after_port(pack, names, p);
    }
    p
}

// From a node to its inputs.
#[tactic(auto, unfolding(crate::specs::TypesAt::inputs_in, machines::specs::CheckedReads::with, machines::specs::CheckedReads::byte_in))]
fn to_inputs(pack: &[u8], at: usize) -> usize
    ensures { result ≡ inputs_in pack.now at }
{
    let i = number(pack, at);
    let k = read_or_zero(read_byte(pack, i.next));
    k.next
}

// The variables of the node at an offset: inputs, outputs and locals.
#[tactic(auto, unfolding(crate::specs::TypesAt::variables_t, crate::specs::Cells::clear_t, crate::specs::TypesAt::three_ports_t))]
pub fn note_variables(pack: &[u8], names: usize, types: &mut [u16], at: usize)
    requires { length pack.now ≤ max_bytes }
    ensures { (ns : List Name) → length ns ≡ names → types.new ≡ variables_t ns pack.now at (clear_t names types.old) }
{
    clear(types, names);
    let i = to_inputs(pack, at);
    let o = note_ports(pack, names, types, i);
    let l = note_ports(pack, names, types, o);
    note_ports(pack, names, types, l);
}

// The port at p, where no type of its name is there yet.
#[tactic(auto, unfolding(crate::specs::TypesAt::first_port_t, machines::specs::CheckedReads::with, crate::specs::Cells::put_t))]
fn note_first(pack: &[u8], outs: &mut [u16], p: usize)
    ensures { outs.new ≡ first_port_t pack.now p outs.old }
{
    let x = number(pack, p);
    if cell(outs, x.value) == 0 {
        put_cell(outs, x.value, x.next);
    }
}

// The types of an activation's outputs, the first of a name.
pub fn note_outputs(pack: &[u8], names: usize, outs: &mut [u16], at: usize)
    requires { length pack.now ≤ max_bytes }
    ensures { (ns : List Name) → length ns ≡ names → outs.new ≡ first_ports_t ns pack.now at (clear_t names outs.old) }
{
    clear(outs, names);
    let c = number(pack, at);
    let mut p = c.next;
    for _ in 0..c.value {
        note_first(pack, outs, p);
        p = after_port(pack, names, p);
    }
}

// An output's type; holders that are no old names are no outputs.
#[tactic(auto, unfolding(crate::specs::TypeCodes::out_t))]
fn output_type(outs: &[u16], names: usize, x: usize) -> usize
    ensures { result ≡ out_t outs.now names x }
{
    if x < names { cell(outs, x) } else { 0 }
}

// The variable's type, else the output's.
#[tactic(auto, unfolding(crate::specs::TypeCodes::typed_t))]
pub fn typed(types: &[u16], outs: &[u16], names: usize, x: usize) -> usize
    ensures { result ≡ typed_t types.now outs.now names x }
{
    let c = cell(types, x);
    let d = output_type(outs, names, x);
    first_some(c, d)
}

// The output's type, else the variable's, else Bool.
#[tactic(auto, unfolding(crate::specs::TypeCodes::value_type_t))]
pub fn value_type(types: &[u16], outs: &[u16], names: usize, x: usize) -> usize
    ensures { result ≡ value_type_t types.now outs.now names x }
{
    let c = output_type(outs, names, x);
    let d = first_some(cell(types, x), 1);
    first_some(c, d)
}

// The type of a code, as it stands in the pack.
#[tactic(auto, unfolding(crate::specs::TypesAt::type_bytes, wire::specs::Writer::puts))]
pub fn put_type(pack: &[u8], names: usize, c: usize, out: &mut [u8], writer: Writer) -> Writer
    requires { length pack.now ≤ max_bytes }
    ensures { (ns : List Name) → length ns ≡ names → (m : List ℕ) → state_of out.new m result ≡ puts (type_bytes ns pack.now c) (state_of out.old m writer) }
{
    if c < 2 {
        put_byte(out, writer, 0)
    } else {
        let e = after_type(pack, names, c);
        put_bytes(between(pack, c, e), out, writer)
    }
}

// The first of k variants at p.
#[tactic(auto, unfolding(crate::specs::TypesAt::variant_or))]
fn variant_or(pack: &[u8], k: usize, p: usize, r: Option<TypeDefault>) -> Option<TypeDefault>
    ensures { result ≡ variant_or pack.now k p r }
{
    if k == 0 {
        r
    } else {
        Some(TypeDefault::Name(number(pack, p).value))
    }
}

// The enum at p, asked for its first variant where its name's index is x.
#[tactic(auto, unfolding(crate::specs::TypesAt::variant_at, machines::specs::CheckedReads::with))]
fn variant_at(pack: &[u8], x: usize, p: usize, r: Option<TypeDefault>) -> Option<TypeDefault>
    ensures { result ≡ variant_at pack.now x p r }
{
    let i = number(pack, p);
    let k = number(pack, i.next);
    if i.value == x {
        variant_or(pack, k.value, k.next, r)
    } else {
        r
    }
}

// Of the enums of the name x the first variant of the last that has one.
fn first_variant(pack: &[u8], names: usize, enums: usize, x: usize) -> Option<TypeDefault>
    ensures { (ns : List Name) → length ns ≡ names → result ≡ first_variant_t ns pack.now enums x }
{
    let c = number(pack, enums);
    let mut p = c.next;
    let mut r = None;
    for _ in 0..c.value {
        let i = number(pack, p);
        r = variant_at(pack, x, p, r);
        p = right_side(pack, names, i.next);
    }
    r
}

// What a word of the table of first variants says: one more than the variant's index, 0 for none.
#[tactic(auto, unfolding(crate::specs::TypesAt::default_word))]
fn default_word(c: usize) -> Option<TypeDefault>
    ensures { result ≡ default_word c }
{
    if c == 0 {
        None
    } else {
        Some(TypeDefault::Name(c - 1))
    }
}

// The first variant by the table of names, which past their places has it for 17,408 names. A call has no room on the stack for
// more; of others it is sought.
#[tactic(auto, unfolding(crate::specs::TypesAt::variant_t))]
fn variant_of(
    pack: &[u8],
    names: usize,
    enums: usize,
    offsets: &[u16],
    x: usize,
) -> Option<TypeDefault>
    ensures { (ns : List Name) → length ns ≡ names → result ≡ variant_t ns pack.now enums offsets.now x }
{
    if x < NAMED {
        default_word(cell(offsets, FIRST_VARIANTS + x))
    } else {
        first_variant(pack, names, enums, x)
    }
}

// What a holder of a type with this tag starts from, where the type is no named one.
#[tactic(auto, unfolding(crate::specs::TypesAt::plain_start))]
fn plain_default(tag: usize) -> Option<TypeDefault>
    ensures { result ≡ plain_start tag }
{
    match tag {
        0 => Some(TypeDefault::Literal(0)),
        9 | 10 => Some(TypeDefault::Literal(2)),
        11 => Some(TypeDefault::Literal(3)),
        12 => None,
        _ => Some(TypeDefault::Literal(1)),
    }
}

// What a holder of the type of a code starts from where no initial value is given.
#[tactic(auto, unfolding(crate::specs::TypesAt::default_t, crate::specs::TypesAt::default_at, machines::specs::CheckedReads::with, machines::specs::CheckedReads::byte_in))]
pub fn default_of(
    pack: &[u8],
    names: usize,
    enums: usize,
    offsets: &[u16],
    c: usize,
) -> Option<TypeDefault>
    ensures { (ns : List Name) → length ns ≡ names → result ≡ default_t ns pack.now enums offsets.now c }
{
    if c < 2 {
        return Some(TypeDefault::Literal(0));
    }
    let t = read_or_zero(read_byte(pack, c));
    if t.value == 13 {
        let x = number(pack, t.next);
        variant_of(pack, names, enums, offsets, x.value)
    } else {
        plain_default(t.value)
    }
}

// --- What enums start from, read once a call: a pack has thousands of them, and each held variable would walk through all. The table
// of names has room for it past the names' places: by the index of an enum's name one more than that of its first variant, 0
// where there is none.

// Where first variants begin, after the places of names.
pub const FIRST_VARIANTS: usize = 32768;
// How many names can have one.
pub const NAMED: usize = 17408;
// What a table of both takes.
pub const SPOTS: usize = FIRST_VARIANTS + NAMED;

// The first of k variants at p, kept for the name of index i.
fn keep_variant(pack: &[u8], offsets: &mut [u16], i: usize, k: usize, p: usize)
    ensures { offsets.new ≡ kept_t pack.now i k p offsets.old }
{
    if k != 0 {
        let v = number(pack, p);
        put_word(offsets, FIRST_VARIANTS, i, v.value + 1);
    }
}

// That of the enum at p.
#[tactic(auto, unfolding(crate::specs::FirstVariantsAt::first_t, machines::specs::CheckedReads::with))]
fn keep_first(pack: &[u8], offsets: &mut [u16], p: usize)
    ensures { offsets.new ≡ first_t pack.now p offsets.old }
{
    let i = number(pack, p);
    let k = number(pack, i.next);
    keep_variant(pack, offsets, i.value, k.value, k.next);
}

// Those of all enums, the last of a name that has one.
pub fn keep_firsts(pack: &[u8], names: usize, enums: usize, offsets: &mut [u16])
    ensures { (ns : List Name) → length ns ≡ names → offsets.new ≡ firsts_t ns pack.now enums offsets.old }
{
    let c = number(pack, enums);
    let mut p = c.next;
    for _ in 0..c.value {
        let i = number(pack, p);
        keep_first(pack, offsets, p);
        p = right_side(pack, names, i.next);
    }
}
