// Resolving a machine on the pack's bytes: state by state its regions, then its refinement, by going to where that machine stands. No
// tree is made. States are counted, and of names only the longest length is kept, which decides whether qualified names fit.
//   RefineStack                    the machines from the top one down to here, eight at most: one that is met again is a cycle
//   read_state_head, state_head    a state's longest name and where its regions are, read, or looked up in `memo`
//   EmptyRegions, SkippedRegions   regions without states that follow one another, passed in one step
//   resolve_machine                the walk: where it ended, or why it stopped (`Resolved`)
ghost use Rattle.std.specs.Prelude.{◌≡◌, List, ◌<◌, length};
ghost use Rattle.machines.specs.RefineStack.{on_of, pushed_of, start_of};
ghost use Rattle.pack_rules.specs.Names.{Name};
ghost use Rattle.machines.specs.ResolveAt.{enter_w, head_t, len_at, machine_w, qualify_of, state_w, target_t, walk as walk_in};
ghost use Rattle.machines.specs.LayoutAt.{moves_at};
ghost use Rattle.wire.specs.Bytes.{word_range};
ghost use Rattle.machines.specs.EmptyRegions.{AtOnce, EmptyRun, empty_at, opened_of, taken_of};

use crate::checked_read::{machine, number, region};
use crate::drawing::{Drawing, NameTables};
use crate::layout::{RegionHead, region_head};
use crate::memo::{EMPTY, memo_at, memo_beside, memo_longest, memo_regions};
use crate::table::name_len;
use pack::cells::cell;
use pack::record::Pack;
use wire::answer::Number;
use wire::number::WORD_RANGE;

// --- The machines on the way from the top machine to where a walk is. Eight suffice: each is a level further down.

// Name indexes, the machine entered last first; `Pack::ABSENT` where there is none.
#[derive(Clone, Copy)]
pub struct RefineStack {
    pub names: [usize; Pack::LEVELS],
}

// The path with nothing but the top machine m.
#[tactic(auto, unfolding(crate::specs::RefineStack::start_of))]
pub fn start_stack(m: usize) -> RefineStack
    ensures { result ≡ start_of m }
{
    let mut names = [Pack::ABSENT; Pack::LEVELS];
    names[0] = m;
    RefineStack { names }
}

// The machine m is entered.
#[tactic(auto, unfolding(crate::specs::RefineStack::pushed_of))]
pub fn push(p: &RefineStack, m: usize) -> RefineStack
    ensures { result ≡ pushed_of p.now m }
{
    let mut names = p.names;
    names.copy_within(..Pack::LEVELS - 1, 1);
    names[0] = m;
    RefineStack { names }
}

// Whether the machine m is on the path.
#[tactic(auto, unfolding(crate::specs::RefineStack::on_of))]
pub fn contains(p: &RefineStack, m: usize) -> bool
    ensures { result ≡ on_of p.now m }
{
    p.names.contains(&m)
}

// --- What resolving needs of a state's head: its longest name, and where its regions are.

// The length of the name whose index stands at `at`.
pub fn len_at(pack: &[u8], offsets: &[u16], at: usize) -> usize
    ensures { result ≡ len_at pack.now offsets.now at }
{
    let i = number(pack, at);
    name_len(pack, offsets, i.value)
}

// A transition: its target's length.
fn target_len(drawing: &Drawing, offsets: &[u16], at: usize) -> Number
    ensures { (ns : List Name) → length ns ≡ drawing.now.pack.names → result ≡ target_t ns drawing.now.pack.bytes.now offsets.now at }
{
    let i = number(drawing.pack.bytes, drawing.guard_end(at));
    Number {
        value: name_len(drawing.pack.bytes, offsets, i.value),
        next: i.next,
    }
}

// The head of the state at `at`, whose transitions begin at m: the longest name, and where its regions' count stands.
pub fn read_state_head(drawing: &Drawing, offsets: &[u16], at: usize, m: usize) -> Number
    ensures { (ns : List Name) → length ns ≡ drawing.now.pack.names → m ≡ moves_at ns drawing.now.pack.bytes.now at → result ≡ head_t ns drawing.now.pack.bytes.now offsets.now at }
{
    let i = number(drawing.pack.bytes, at);
    let t = number(drawing.pack.bytes, m);
    let mut p = t.next;
    let mut a = name_len(drawing.pack.bytes, offsets, i.value);
    for _ in 0..t.value {
        let x = target_len(drawing, offsets, p);
        a = a.max(x.value);
        p = x.next;
    }
    Number { value: a, next: p }
}

// The same, looked up where it is kept.
pub fn state_head(tables: &NameTables, at: usize) -> Number
    ensures { (ns : List Name) → length ns ≡ tables.now.drawing.pack.names → result ≡ head_t ns tables.now.drawing.pack.bytes.now tables.now.offsets.now at }
{
    let r = memo_regions(tables.drawing.memo, at);
    if 0 < r {
        return Number {
            value: memo_longest(tables.drawing.memo, at),
            next: r,
        };
    }
    let m = tables.drawing.moves_of(at);
    read_state_head(&tables.drawing, tables.offsets, at, m)
}

// --- Regions without states that follow one another: how many is kept once, so that a visit passes over all of them at once.

// How many there are, and the longest name of their initial states.
#[derive(Clone, Copy)]
pub struct EmptyRegions {
    pub count: usize,
    pub longest: usize,
}

// Regions as resolving takes them: how many states and where they are, the longest initial state's name.
#[derive(Clone, Copy)]
pub struct SkippedRegions {
    pub states: usize,
    pub next: usize,
    pub longest: usize,
}

// Whether the region that begins at `at` and was read as g has no states.
fn is_empty(at: usize, g: Number) -> bool
    ensures { result ≡ empty_at at g }
{
    if g.next < 5 {
        return false;
    }
    g.value == 0 && g.next - 5 == at
}

// How many of n regions from `from` on have no states, before the first that has some.
pub fn empty_run_from(pack: &[u8], offsets: &[u16], n: usize, from: usize) -> EmptyRegions
    ensures { EmptyRun pack.now offsets.now n from result }
{
    let mut longest = 0;
    let mut p = from;
    for count in 0..n {
        let g = region(pack, p);
        if !is_empty(p, g) {
            return EmptyRegions { count, longest };
        }
        longest = longest.max(len_at(pack, offsets, p));
        p = g.next;
    }
    EmptyRegions { count: n, longest }
}

// How many of n regions from `at` on are passed at once: those without states that are kept, else one.
pub fn run_length(memo: &[u16], n: usize, at: usize) -> usize
    requires { 0 < n }
    ensures { AtOnce memo.now n at result }
{
    let k = memo_at(memo, at, EMPTY);
    if k < 2 {
        return 1;
    }
    if n < k {
        return 1;
    }
    if WORD_RANGE <= k {
        return 1;
    }
    k
}

// The k regions from `at` on that resolving passes at once.
pub fn take_regions(
    pack: &[u8],
    offsets: &[u16],
    memo: &[u16],
    k: usize,
    at: usize,
) -> SkippedRegions
    requires { (k < word_range) × (1 < k → at < word_range) }
    ensures { result ≡ taken_of pack.now offsets.now memo.now k at }
{
    if k < 2 {
        let g = region(pack, at);
        return SkippedRegions {
            states: g.value,
            next: g.next,
            longest: len_at(pack, offsets, at),
        };
    }
    SkippedRegions {
        states: 0,
        next: at + 5 * k,
        longest: memo_beside(memo, at),
    }
}

// The k regions from `at` on that laying out passes at once.
pub fn open_regions(pack: &[u8], k: usize, at: usize) -> RegionHead
    requires { (k < word_range) × (1 < k → at < word_range) }
    ensures { result ≡ opened_of pack.now k at }
{
    if k < 2 {
        return region_head(pack, at);
    }
    RegionHead {
        initial: 0,
        history: 0,
        states: 0,
        next: at + 5 * k,
    }
}

// What walking came to: the offset after, how many states so far, the longest name's length; or why it stopped.
#[derive(Clone, Copy)]
pub enum Resolved {
    Went(usize, usize, usize),
    Cycle(usize),
    Unknown { state: usize, name: usize },
    Large,
}

// Where the refinement m of the state i leads: its states' offset and count, and its initial state's length.
fn refinement(
    pack: &[u8],
    offsets: &[u16],
    machines: &[u16],
    p: &RefineStack,
    i: usize,
    m: usize,
) -> Resolved
    ensures { result ≡ enter_w pack.now offsets.now machines.now p.now i m }
{
    if contains(p, m) {
        return Resolved::Cycle(m);
    }
    let w = cell(machines, m);
    if w == 0 {
        return Resolved::Unknown { state: i, name: m };
    }
    let k = machine(pack, w);
    Resolved::Went(k.next, k.value, len_at(pack, offsets, w))
}

// The names of a sub-machine, the longest of w bytes, get a prefix of i bytes and `_`.
fn qualified_len(i: usize, w: usize, a: usize, next: usize, states: usize) -> Resolved
    ensures { result ≡ qualify_of i w a next states }
{
    if Pack::NAME <= i {
        return Resolved::Large;
    }
    if Pack::NAME - 1 - i < w {
        return Resolved::Large;
    }
    Resolved::Went(next, states, a.max(i + 1 + w))
}

// One state: it is counted, then its regions, then its refinement.
#[cycle(resolve_state_resolve_states)]
fn resolve_state(
    tables: &NameTables,
    levels: usize,
    p: &RefineStack,
    at: usize,
    count: usize,
) -> Resolved
    ensures { (ns : List Name) → length ns ≡ tables.now.drawing.pack.names → result ≡ state_w ns tables.now.drawing.pack.bytes.now tables.now.offsets.now tables.now.machines.now (walk_in ns tables.now.drawing.pack.bytes.now tables.now.offsets.now tables.now.machines.now levels) p.now at count }
{
    if Pack::STATES <= count {
        return Resolved::Large;
    }
    let h = state_head(tables, at);
    let t = number(tables.drawing.pack.bytes, h.next);
    let mut n = t.value;
    let mut o = t.next;
    let mut c = count + 1;
    let mut a = h.value;
    while 0 < n {
        let k = run_length(tables.drawing.memo, n, o);
        let g = take_regions(
            tables.drawing.pack.bytes,
            tables.offsets,
            tables.drawing.memo,
            k,
            o,
        );
        let e = resolve_states(tables, levels, p, g.states, g.next, c);
        let Resolved::Went(next, states, longest) = e else {
            return e;
        };
        a = a.max(g.longest.max(longest));
        n -= k;
        o = next;
        c = states;
    }
    let f = number(tables.drawing.pack.bytes, o);
    if f.value == Pack::ABSENT {
        return Resolved::Went(f.next, c, a);
    }
    let i = number(tables.drawing.pack.bytes, at);
    let d = refinement(
        tables.drawing.pack.bytes,
        tables.offsets,
        tables.machines,
        p,
        i.value,
        f.value,
    );
    let Resolved::Went(b, k, v) = d else {
        return d;
    };
    let q = push(p, f.value);
    let y = resolve_states(tables, levels, &q, k, b, c);
    let Resolved::Went(_, j, w) = y else {
        return y;
    };
    qualified_len(
        name_len(tables.drawing.pack.bytes, tables.offsets, i.value),
        v.max(w),
        a,
        f.next,
        j,
    )
}

// So many states, with so many levels left: with none they may not open.
#[cycle(resolve_state_resolve_states)]
fn resolve_states(
    tables: &NameTables,
    levels: usize,
    p: &RefineStack,
    count: usize,
    at: usize,
    done: usize,
) -> Resolved
    ensures { (ns : List Name) → length ns ≡ tables.now.drawing.pack.names → result ≡ walk_in ns tables.now.drawing.pack.bytes.now tables.now.offsets.now tables.now.machines.now levels p.now count at done }
{
    if levels == 0 {
        return Resolved::Large;
    }
    let mut o = at;
    let mut c = done;
    let mut a: usize = 0;
    for _ in 0..count {
        let e = resolve_state(tables, levels - 1, p, o, c);
        let Resolved::Went(next, states, longest) = e else {
            return e;
        };
        a = a.max(longest);
        o = next;
        c = states;
    }
    Resolved::Went(o, c, a)
}

// Resolves the machine of the name m, whose initial state stands at `at`.
pub fn resolve_machine(tables: &NameTables, m: usize, at: usize) -> Resolved
    ensures { (ns : List Name) → length ns ≡ tables.now.drawing.pack.names → result ≡ machine_w ns tables.now.drawing.pack.bytes.now tables.now.offsets.now tables.now.machines.now m at }
{
    let k = machine(tables.drawing.pack.bytes, at);
    resolve_states(tables, Pack::LEVELS, &start_stack(m), k.value, k.next, 0)
}
