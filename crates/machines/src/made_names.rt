// The names that lowering a machine writes: those it makes, and names of the pack as they are called inside a refined state.
//                  top region         region of id i
//   state          __sm_state         __sm_r<i>_state
//   next state     __sm_next_state    __sm_r<i>_next
//   active         none               __sm_r<i>_active
//   enum           <m>_StateEnum      <m>_r<i>_StateEnum, m being the machine
//   pack's name x  x                  x, with <s>_ in front where the region is inside a refined state s
ghost use Rattle.std.specs.Prelude.{List, ◌++◌, ◌≡◌, ℕ};
ghost use Rattle.wire.specs.Decimal.{decimal};
ghost use Rattle.wire.specs.Writer.{puts, state_of};
ghost use Rattle.pack.specs.Intern.{put_name};
ghost use Rattle.machine_rules.specs.MadeNames.{enum_name};
ghost use Rattle.machines.specs.Vars.{region_prefix, var_name};
ghost use Rattle.machines.specs.Layout.{prefix_of};
ghost use Rattle.machines.specs.EmitAt.{in_region, letters_at};

use crate::layout::{letters, pack_name};
use pack::intern::put_built;
use pack::record::Pack;
use wire::writer::{Writer, put_byte, put_bytes, put_digits};

// A variable made for a region.
#[derive(Clone, Copy)]
pub enum Var {
    State,
    Next,
    Active,
}

// `__sm_r`, the region's id, and a tail.
fn put_region(out: &mut [u8], writer: Writer, id: usize, tail: &[u8]) -> Writer
    ensures { (m : List ℕ) → state_of out.new m result ≡ puts (region_prefix ++ (decimal id ++ tail.now)) (state_of out.old m writer) }
{
    let a = put_bytes(b"__sm_r", out, writer);
    let b = put_digits(out, a, id);
    put_bytes(tail, out, b)
}

// The text of a variable's name; the top region's state and next state have names of their own.
fn put_text(out: &mut [u8], writer: Writer, v: Var, id: usize) -> Writer
    ensures { (m : List ℕ) → state_of out.new m result ≡ puts (var_name v id) (state_of out.old m writer) }
{
    match v {
        Var::State => {
            if id == 0 {
                return put_bytes(b"__sm_state", out, writer);
            }
            put_region(out, writer, id, b"_state")
        }
        Var::Next => {
            if id == 0 {
                return put_bytes(b"__sm_next_state", out, writer);
            }
            put_region(out, writer, id, b"_next")
        }
        Var::Active => put_region(out, writer, id, b"_active"),
    }
}

// A region's variable, by its number among the names.
pub fn put_var(
    old: &[u8],
    v: Var,
    id: usize,
    out: &mut [u8],
    made: &mut [u8],
    writer: Writer,
) -> Writer
    ensures { state_of out.new made.new result ≡ put_name old.now (var_name v id) (state_of out.old made.old writer) }
{
    let mut buf = [0u8; Pack::NAME];
    let t = put_text(&mut buf, Writer::start(), v, id);
    put_built(old, &buf, t, out, made, writer)
}

// The text of the name of a region's enum in the machine m.
fn put_enum_text(out: &mut [u8], writer: Writer, m: &[u8], id: usize) -> Writer
    ensures { (x : List ℕ) → state_of out.new x result ≡ puts (enum_name m.now id) (state_of out.old x writer) }
{
    let a = put_bytes(m, out, writer);
    if id == 0 {
        return put_bytes(b"_StateEnum", out, a);
    }
    let b = put_bytes(b"_r", out, a);
    let c = put_digits(out, b, id);
    put_bytes(b"_StateEnum", out, c)
}

// The name of a region's enum, by its number among the names.
pub fn put_enum_name(
    old: &[u8],
    m: &[u8],
    id: usize,
    out: &mut [u8],
    made: &mut [u8],
    writer: Writer,
) -> Writer
    ensures { state_of out.new made.new result ≡ put_name old.now (enum_name m.now id) (state_of out.old made.old writer) }
{
    let mut buf = [0u8; Pack::NAME];
    let t = put_enum_text(&mut buf, Writer::start(), m, id);
    put_built(old, &buf, t, out, made, writer)
}

// --- Names of the pack as they are called in a region: inside a refined state they have its name and `_` in front.

// The prefix of the names in the region at the word q.
fn put_prefix(
    out: &mut [u8],
    writer: Writer,
    layout: &[usize],
    qualified: &[u8],
    q: usize,
) -> Writer
    ensures { (m : List ℕ) → state_of out.new m result ≡ puts (prefix_of (letters_at layout.now qualified.now q)) (state_of out.old m writer) }
{
    let n = letters(layout, qualified, q);
    if n.len() == 0 {
        return writer;
    }
    let a = put_bytes(n, out, writer);
    put_byte(out, a, b'_')
}

// The text of the pack's name x as it is called in the region at the word q.
pub fn put_qualified(
    out: &mut [u8],
    writer: Writer,
    pack: &[u8],
    offsets: &[u16],
    layout: &[usize],
    qualified: &[u8],
    q: usize,
    x: usize,
) -> Writer
    ensures { (m : List ℕ) → state_of out.new m result ≡ puts (in_region pack.now offsets.now layout.now qualified.now q x) (state_of out.old m writer) }
{
    let a = put_prefix(out, writer, layout, qualified, q);
    let n = pack_name(pack, offsets, x);
    put_bytes(n, out, a)
}

// The same by its number among the names.
pub fn put_in_region(
    old: &[u8],
    pack: &[u8],
    offsets: &[u16],
    layout: &[usize],
    qualified: &[u8],
    q: usize,
    x: usize,
    out: &mut [u8],
    made: &mut [u8],
    writer: Writer,
) -> Writer
    ensures { state_of out.new made.new result ≡ put_name old.now (in_region pack.now offsets.now layout.now qualified.now q x) (state_of out.old made.old writer) }
{
    let mut buf = [0u8; Pack::NAME];
    let v = put_qualified(
        &mut buf,
        Writer::start(),
        pack,
        offsets,
        layout,
        qualified,
        q,
        x,
    );
    put_built(old, &buf, v, out, made, writer)
}
