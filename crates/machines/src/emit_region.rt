// What is written of a machine's regions, from the layout, by their ids: enums, locals, equations, each in a pass of its own, as the
// sections of a pack ask for it.
//   enum        the names of the region's states
//   locals      state, next state, active (not of the top region)
//   equations   active: the region above is, and is in the state that holds this one; the top region has none
//               state: the initial one at first, and on entering where there is no history; else what was chosen a cycle ago
//               next state: by the transitions (`next_state_chain`); a region that is not active stays
ghost use Rattle.std.specs.Prelude.{◌≡◌, List, [], ◌∷◌, ◌+◌, ◌<◌, length};
ghost use Rattle.wire.specs.Writer.{state_of};
ghost use Rattle.pack_rules.specs.Syntax.{e_var};
ghost use Rattle.pack_rules.specs.Write.{each, equation_items, expr_items, list, name_items, port_items};
ghost use Rattle.pack.specs.Intern.{put_name, render};
ghost use Rattle.machine_rules.specs.MadeNames.{state_var};
ghost use Rattle.machine_rules.specs.Lower.{active_in, is_name, just_entered, previous_next, region_locals, state_rhs};
ghost use Rattle.machines.specs.Vars.{var_name};
ghost use Rattle.machines.specs.Equations.{active_equation, state_equation};
ghost use Rattle.machines.specs.EmitAt.{active_t, enum_t, enums_t, letters_at, next_rhs_t, next_t, region_t, regions_t, state_t, variants_t};
ghost use Rattle.machines.specs.Locals.{active_port, inner_locals, state_port};
ghost use Rattle.pack_rules.specs.Names.{Name};

use crate::checked_read::CheckedPack;
use crate::layout::{first, layout_word, letters};
use crate::made_names::{Var, put_enum_name, put_qualified, put_var};
use crate::next_state_chain::build_next_state_chain;
use crate::table::entry;
use pack::intern::put_name;
use pack::record::Pack;
use wire::writer::{Writer, put_byte, put_bytes, put_u16, stopped};

// --- The fixed expressions of a region's equations: which state, held over, just entered, active.

// A region's variable.
pub fn put_variable(
    old: &[u8],
    v: Var,
    id: usize,
    out: &mut [u8],
    made: &mut [u8],
    writer: Writer,
) -> Writer
    ensures { state_of out.new made.new result ≡ render old.now (expr_items (e_var (var_name v id))) (state_of out.old made.old writer) }
{
    let a = put_byte(out, writer, 1);
    put_var(old, v, id, out, made, a)
}

// A name, as a variable or a state.
pub fn put_named(old: &[u8], n: &[u8], out: &mut [u8], made: &mut [u8], writer: Writer) -> Writer
    ensures { state_of out.new made.new result ≡ render old.now (expr_items (e_var n.now)) (state_of out.old made.old writer) }
{
    let a = put_byte(out, writer, 1);
    put_name(old, n, out, made, a)
}

// The initial state, then what was chosen a cycle ago.
pub fn put_previous_next(
    old: &[u8],
    id: usize,
    initial: &[u8],
    out: &mut [u8],
    made: &mut [u8],
    writer: Writer,
) -> Writer
    ensures { state_of out.new made.new result ≡ render old.now (expr_items (previous_next id initial.now)) (state_of out.old made.old writer) }
{
    let a = put_byte(out, writer, 6);
    let b = put_named(old, initial, out, made, a);
    let c = put_byte(out, b, 5);
    put_variable(old, Var::Next, id, out, made, c)
}

// Active now, and not a cycle ago.
fn put_entered(old: &[u8], id: usize, out: &mut [u8], made: &mut [u8], writer: Writer) -> Writer
    ensures { state_of out.new made.new result ≡ render old.now (expr_items (just_entered id)) (state_of out.old made.old writer) }
{
    let a = put_bytes(b"\x03\x00", out, writer);
    let b = put_variable(old, Var::Active, id, out, made, a);
    let c = put_bytes(b"\x06\x00\x00\x01\x02\x00\x05", out, b);
    put_variable(old, Var::Active, id, out, made, c)
}

// A region's state: without history it is the initial one when the region is entered.
pub fn put_state_rhs(
    old: &[u8],
    id: usize,
    initial: &[u8],
    history: bool,
    out: &mut [u8],
    made: &mut [u8],
    writer: Writer,
) -> Writer
    ensures { state_of out.new made.new result ≡ render old.now (expr_items (state_rhs id initial.now history)) (state_of out.old made.old writer) }
{
    if history {
        return put_previous_next(old, id, initial, out, made, writer);
    }
    let a = put_byte(out, writer, 4);
    let b = put_entered(old, id, out, made, a);
    let c = put_named(old, initial, out, made, b);
    put_previous_next(old, id, initial, out, made, c)
}

// Whether a region is in the state s.
pub fn put_is(
    old: &[u8],
    id: usize,
    pack: &[u8],
    out: &mut [u8],
    made: &mut [u8],
    writer: Writer,
) -> Writer
    ensures { state_of out.new made.new result ≡ render old.now (expr_items (is_name (state_var id) pack.now)) (state_of out.old made.old writer) }
{
    let a = put_bytes(b"\x03\x04", out, writer);
    let b = put_variable(old, Var::State, id, out, made, a);
    put_named(old, pack, out, made, b)
}

// Whether the regions of the state s of region id are active; the top region always is.
pub fn put_active_in(
    old: &[u8],
    top: bool,
    id: usize,
    pack: &[u8],
    out: &mut [u8],
    made: &mut [u8],
    writer: Writer,
) -> Writer
    ensures { state_of out.new made.new result ≡ render old.now (expr_items (active_in top id pack.now)) (state_of out.old made.old writer) }
{
    if top {
        return put_is(old, id, pack, out, made, writer);
    }
    let a = put_bytes(b"\x03\x00", out, writer);
    let b = put_variable(old, Var::Active, id, out, made, a);
    put_is(old, id, pack, out, made, b)
}

// --- The equations of a region that need no look at its states: whether it is active, and its state.

// One left name, a region's variable.
pub fn put_left(
    old: &[u8],
    v: Var,
    id: usize,
    out: &mut [u8],
    made: &mut [u8],
    writer: Writer,
) -> Writer
    ensures { state_of out.new made.new result ≡ render old.now (list name_items (var_name v id ∷ [])) (state_of out.old made.old writer) }
{
    let a = put_u16(out, writer, 1);
    put_var(old, v, id, out, made, a)
}

// Whether a nested region is active: by its parent's activity and state.
pub fn put_active_equation(
    old: &[u8],
    id: usize,
    top: bool,
    parent: usize,
    pack: &[u8],
    out: &mut [u8],
    made: &mut [u8],
    writer: Writer,
) -> Writer
    ensures { state_of out.new made.new result ≡ render old.now (equation_items (active_equation id top parent pack.now)) (state_of out.old made.old writer) }
{
    let a = put_left(old, Var::Active, id, out, made, writer);
    put_active_in(old, top, parent, pack, out, made, a)
}

// A region's state.
pub fn put_state_equation(
    old: &[u8],
    id: usize,
    initial: &[u8],
    history: bool,
    out: &mut [u8],
    made: &mut [u8],
    writer: Writer,
) -> Writer
    ensures { state_of out.new made.new result ≡ render old.now (equation_items (state_equation id initial.now history)) (state_of out.old made.old writer) }
{
    let a = put_left(old, Var::State, id, out, made, writer);
    put_state_rhs(old, id, initial, history, out, made, a)
}

// --- The enums of a machine's regions: their states' names.

// The name of the state at the word p.
pub fn put_state_name(
    old: &[u8],
    layout: &[usize],
    qualified: &[u8],
    p: usize,
    out: &mut [u8],
    made: &mut [u8],
    writer: Writer,
) -> Writer
    ensures { state_of out.new made.new result ≡ put_name old.now (letters_at layout.now qualified.now p) (state_of out.old made.old writer) }
{
    let n = letters(layout, qualified, p);
    put_name(old, n, out, made, writer)
}

// The names of `count` states from the word `from` on.
fn put_variants(
    old: &[u8],
    layout: &[usize],
    qualified: &[u8],
    count: usize,
    from: usize,
    out: &mut [u8],
    made: &mut [u8],
    writer: Writer,
) -> Writer
    ensures { state_of out.new made.new result ≡ render old.now (variants_t layout.now qualified.now count from) (state_of out.old made.old writer) }
{
    let mut v = writer;
    let mut p = from;
    for _ in 0..count {
        if v.full {
            return v;
        }
        v = put_state_name(old, layout, qualified, p, out, made, v);
        p = layout_word(layout, p, 4);
    }
    v
}

// The enum of the region at the word q in the machine m.
pub fn put_enum(
    old: &[u8],
    m: &[u8],
    layout: &[usize],
    qualified: &[u8],
    q: usize,
    out: &mut [u8],
    made: &mut [u8],
    writer: Writer,
) -> Writer
    ensures { state_of out.new made.new result ≡ render old.now (enum_t layout.now qualified.now m.now q) (state_of out.old made.old writer) }
{
    let id = layout_word(layout, q, 5);
    let k = layout_word(layout, q, 6);
    let p = first(layout, q);
    let a = put_enum_name(old, m, id, out, made, writer);
    let b = put_u16(out, a, k);
    put_variants(old, layout, qualified, k, p, out, made, b)
}

// The enums of the regions 0 to n - 1.
pub fn put_enums(
    old: &[u8],
    m: &[u8],
    layout: &[usize],
    rows: &[usize],
    qualified: &[u8],
    n: usize,
    out: &mut [u8],
    made: &mut [u8],
    writer: Writer,
) -> Writer
    ensures { state_of out.new made.new result ≡ render old.now (enums_t layout.now qualified.now rows.now m.now 0 n) (state_of out.old made.old writer) }
{
    let mut v = writer;
    for i in 0..n {
        if v.full {
            return v;
        }
        let q = entry(rows, i);
        v = put_enum(old, m, layout, qualified, q, out, made, v);
    }
    v
}

// --- The locals made for a machine's regions, in order of their ids.

// A region's state or next state: its type is the region's enum.
fn put_state_port(
    old: &[u8],
    v: Var,
    m: &[u8],
    id: usize,
    out: &mut [u8],
    made: &mut [u8],
    writer: Writer,
) -> Writer
    ensures { state_of out.new made.new result ≡ render old.now (port_items (state_port v m.now id)) (state_of out.old made.old writer) }
{
    let a = put_var(old, v, id, out, made, writer);
    let b = put_byte(out, a, 13);
    put_enum_name(old, m, id, out, made, b)
}

// Whether a region is active, a Boolean.
fn put_active_port(old: &[u8], id: usize, out: &mut [u8], made: &mut [u8], writer: Writer) -> Writer
    ensures { state_of out.new made.new result ≡ render old.now (port_items (active_port id)) (state_of out.old made.old writer) }
{
    let a = put_var(old, Var::Active, id, out, made, writer);
    put_byte(out, a, 0)
}

// A region's state and next state.
pub fn put_region_locals(
    old: &[u8],
    m: &[u8],
    id: usize,
    out: &mut [u8],
    made: &mut [u8],
    writer: Writer,
) -> Writer
    ensures { state_of out.new made.new result ≡ render old.now (each port_items (region_locals m.now id)) (state_of out.old made.old writer) }
{
    let a = put_state_port(old, Var::State, m, id, out, made, writer);
    put_state_port(old, Var::Next, m, id, out, made, a)
}

// The locals of `count` regions from `first` on.
pub fn put_inner_locals(
    old: &[u8],
    m: &[u8],
    first: usize,
    count: usize,
    out: &mut [u8],
    made: &mut [u8],
    writer: Writer,
) -> Writer
    requires { first + count < 4294967296 }
    ensures { state_of out.new made.new result ≡ render old.now (each port_items (inner_locals m.now first count)) (state_of out.old made.old writer) }
{
    let mut v = writer;
    for id in first..first + count {
        let a = put_region_locals(old, m, id, out, made, v);
        v = put_active_port(old, id, out, made, a);
    }
    v
}

// Whether the region at the word q is active, by its holder; of the top region nothing is said.
fn put_active(
    old: &[u8],
    layout: &[usize],
    qualified: &[u8],
    q: usize,
    out: &mut [u8],
    made: &mut [u8],
    writer: Writer,
) -> Writer
    ensures { state_of out.new made.new result ≡ render old.now (active_t layout.now qualified.now q) (state_of out.old made.old writer) }
{
    let id = layout_word(layout, q, 5);
    if id == 0 {
        return writer;
    }
    let up = layout_word(layout, q, 8);
    let p = layout_word(layout, q, 7);
    let n = letters(layout, qualified, p);
    let top = up == 0;
    put_active_equation(old, id, top, up, n, out, made, writer)
}

// The state of the region at the word q.
fn put_state(
    old: &[u8],
    pack: &[u8],
    offsets: &[u16],
    layout: &[usize],
    qualified: &[u8],
    q: usize,
    out: &mut [u8],
    made: &mut [u8],
    writer: Writer,
) -> Writer
    ensures { state_of out.new made.new result ≡ render old.now (state_t pack.now offsets.now layout.now qualified.now q) (state_of out.old made.old writer) }
{
    let x = entry(layout, q);
    let id = layout_word(layout, q, 5);
    let history = layout_word(layout, q, 1) == 1;
    let mut buf = [0u8; Pack::NAME];
    let v = put_qualified(
        &mut buf,
        Writer::start(),
        pack,
        offsets,
        layout,
        qualified,
        q,
        x,
    );
    let full = v.full;
    if full {
        return stopped(writer);
    }
    let end = v.at.min(buf.len());
    put_state_equation(old, id, &buf[..end], history, out, made, writer)
}

// What the next state of the region at the word q is: an inner region that is not active stays.
fn put_next_rhs(
    old: &[u8],
    pack: &CheckedPack,
    offsets: &[u16],
    layout: &[usize],
    qualified: &[u8],
    q: usize,
    out: &mut [u8],
    made: &mut [u8],
    writer: Writer,
) -> Writer
    ensures { (ns : List Name) → length ns ≡ pack.now.names → state_of out.new made.new result ≡ render old.now (next_rhs_t pack.now.bytes.now offsets.now layout.now qualified.now ns q) (state_of out.old made.old writer) }
{
    let id = layout_word(layout, q, 5);
    if id == 0 {
        return build_next_state_chain(old, pack, offsets, layout, qualified, q, out, made, writer);
    }
    let a = put_byte(out, writer, 4);
    let b = put_variable(old, Var::Active, id, out, made, a);
    let c = build_next_state_chain(old, pack, offsets, layout, qualified, q, out, made, b);
    put_variable(old, Var::State, id, out, made, c)
}

// The next state of the region at the word q.
pub fn put_next_equation(
    old: &[u8],
    pack: &CheckedPack,
    offsets: &[u16],
    layout: &[usize],
    qualified: &[u8],
    q: usize,
    out: &mut [u8],
    made: &mut [u8],
    writer: Writer,
) -> Writer
    ensures { (ns : List Name) → length ns ≡ pack.now.names → state_of out.new made.new result ≡ render old.now (next_t pack.now.bytes.now offsets.now layout.now qualified.now ns q) (state_of out.old made.old writer) }
{
    let id = layout_word(layout, q, 5);
    let a = put_left(old, Var::Next, id, out, made, writer);
    put_next_rhs(old, pack, offsets, layout, qualified, q, out, made, a)
}

// All equations of the region at the word q.
pub fn emit_region(
    old: &[u8],
    pack: &CheckedPack,
    offsets: &[u16],
    layout: &[usize],
    qualified: &[u8],
    q: usize,
    out: &mut [u8],
    made: &mut [u8],
    writer: Writer,
) -> Writer
    ensures { (ns : List Name) → length ns ≡ pack.now.names → state_of out.new made.new result ≡ render old.now (region_t pack.now.bytes.now offsets.now layout.now qualified.now ns q) (state_of out.old made.old writer) }
{
    let a = put_active(old, layout, qualified, q, out, made, writer);
    let b = put_state(old, pack.bytes, offsets, layout, qualified, q, out, made, a);
    put_next_equation(old, pack, offsets, layout, qualified, q, out, made, b)
}

// The equations of the regions 0 to n - 1.
pub fn emit_regions(
    old: &[u8],
    pack: &CheckedPack,
    offsets: &[u16],
    layout: &[usize],
    rows: &[usize],
    qualified: &[u8],
    n: usize,
    out: &mut [u8],
    made: &mut [u8],
    writer: Writer,
) -> Writer
    ensures { (ns : List Name) → length ns ≡ pack.now.names → state_of out.new made.new result ≡ render old.now (regions_t pack.now.bytes.now offsets.now layout.now qualified.now ns rows.now 0 n) (state_of out.old made.old writer) }
{
    let mut v = writer;
    for i in 0..n {
        if v.full {
            return v;
        }
        let q = entry(rows, i);
        v = emit_region(old, pack, offsets, layout, qualified, q, out, made, v);
    }
    v
}
