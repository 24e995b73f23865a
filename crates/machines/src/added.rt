// What the machines of a pack bring to its nodes: how many locals and equations, which node is the next to receive some, and the
// locals themselves. By the index i of a machine three tables say, once all are judged and assigned:
//   defs[i]        where it is drawn
//   receivers[i]   the node that it goes to, `Pack::ABSENT` where it is refused
//   regcounts[i]   how many regions it has, the top one included
// A node that receives nothing asks no machine, and one that does asks those from the first to the last that go to it.
ghost use Rattle.std.specs.Prelude.{List, ◌≡◌, ◌*◌, ◌+◌, ◌-◌, ◌<◌, ◌≤◌, ℕ, drop, get_or, length};
ghost use Rattle.wire.specs.Bytes.{word_range};
ghost use Rattle.pack_rules.specs.Names.{Name};
ghost use Rattle.pack_rules.specs.Read.{ports_in};
ghost use Rattle.pack_rules.specs.Limits.{max_bytes};
ghost use Rattle.machines.specs.ResolvedIn.{end_of};
ghost use Rattle.machines.specs.AddedAt.{added_locals_t, adds_equations_t, adds_locals_t, each_t, equation_count_t, local_count_t, locals_in, locals_t, made_of, owned_t, regions_t, small_of, total_t};
ghost use Rattle.machines.specs.ReceivingNodes.{asked_t, goes_t, nearer_t, next_receiver_t, no_node, receives_t};
ghost use Rattle.wire.specs.Writer.{state_of};
ghost use Rattle.pack.specs.Intern.{render};

use crate::checked_read::{CheckedPack, number};
use crate::emit_region::{put_inner_locals, put_region_locals};
use crate::layout::{between, pack_name, remaining};
use crate::table::{entry, to_outputs};
use pack::check::reached;
use pack::parts::skip_ports;
use pack::record::Pack;
use wire::number::WORD_RANGE;
use wire::writer::{Writer, put_bytes};

// --- What the machines of a pack bring to its nodes, counted. Three tables are filled before: for the machine i
// `defs` says where it is drawn, `receivers` which node it goes to, and `regcounts` how many regions it has, the top one included.

// A count of a pack is a word: nothing larger is looked at.
pub fn small(k: usize) -> usize
    ensures { (result < word_range) × (result ≡ small_of k) }
{
    if k < WORD_RANGE { k } else { 0 }
}

// How many of so many regions are below the top one.
pub fn inner_count(regions: usize) -> usize
    ensures { (result < word_range) × (result ≡ small_of regions - 1) }
{
    let k = small(regions);
    if 0 < k { k - 1 } else { 0 }
}

// How many equations or locals so many regions make, and `own` more.
fn made_count(regions: usize, own: usize) -> usize
    ensures { (result < 1048576) × (result ≡ made_of regions own) }
{
    let k = inner_count(regions);
    let n = small(own);
    2 + 3 * k + n
}

// Past ports, which stand after their count.
pub fn after_ports(pack: &[u8], names: usize, at: usize) -> usize
    requires { length pack.now ≤ max_bytes }
    ensures { (ns : List Name) → length ns ≡ names → result ≡ end_of (ports_in ns pack.now at) }
{
    reached(skip_ports(pack, names, at))
}

// From a machine to its own locals.
pub fn to_locals(pack: &CheckedPack, at: usize) -> usize
    ensures { (ns : List Name) → length ns ≡ pack.now.names → result ≡ locals_in ns pack.now.bytes.now at }
{
    let m = number(pack.bytes, at);
    let o = to_outputs(pack, m.next);
    after_ports(pack.bytes, pack.names, o)
}

// How many equations a machine makes.
pub fn equation_count(pack: &CheckedPack, at: usize, regions: usize) -> usize
    ensures { (result < 1048576) × ((ns : List Name) → length ns ≡ pack.now.names → result ≡ equation_count_t ns pack.now.bytes.now at regions) }
{
    let m = number(pack.bytes, at);
    let a = to_outputs(pack, m.next);
    let o = number(pack.bytes, a);
    made_count(regions, o.value)
}

// How many locals it has in the end.
pub fn local_count(pack: &CheckedPack, at: usize, regions: usize) -> usize
    ensures { (result < 1048576) × ((ns : List Name) → length ns ≡ pack.now.names → result ≡ local_count_t ns pack.now.bytes.now at regions) }
{
    let a = to_locals(pack, at);
    let l = number(pack.bytes, a);
    made_count(regions, l.value)
}

// The first of n machines, from i on, that goes to the node k; no less than n where there is none.
pub fn next_to(receivers: &[usize], n: usize, k: usize, i: usize) -> usize
    ensures { (i ≤ result) × ((j : ℕ) → i ≤ j → j < result → get_or receivers.now j 0 ≡ k → ⊥) }
{
    for p in i..n {
        if entry(receivers, p) == k {
            return p;
        }
    }
    i.max(n)
}

// How many equations the machine i brings to the node k.
pub fn adds_equations(
    pack: &CheckedPack,
    defs: &[usize],
    receivers: &[usize],
    regcounts: &[usize],
    k: usize,
    i: usize,
) -> usize
    ensures { (result < 1048576) × ((ns : List Name) → length ns ≡ pack.now.names → result ≡ adds_equations_t ns pack.now.bytes.now defs.now receivers.now regcounts.now k i) }
{
    if entry(receivers, i) != k {
        return 0;
    }
    equation_count(pack, entry(defs, i), entry(regcounts, i))
}

// How many locals it brings there.
fn adds_locals(
    pack: &CheckedPack,
    defs: &[usize],
    receivers: &[usize],
    regcounts: &[usize],
    k: usize,
    i: usize,
) -> usize
    ensures { (result < 1048576) × ((ns : List Name) → length ns ≡ pack.now.names → result ≡ adds_locals_t ns pack.now.bytes.now defs.now receivers.now regcounts.now k i) }
{
    if entry(receivers, i) != k {
        return 0;
    }
    local_count(pack, entry(defs, i), entry(regcounts, i))
}

// How many equations the first n machines bring to the node k.
pub fn added_equations(
    pack: &CheckedPack,
    defs: &[usize],
    receivers: &[usize],
    regcounts: &[usize],
    n: usize,
    k: usize,
) -> usize
    requires { n ≤ word_range }
    ensures { (result ≤ 1048576 * n) × ((ns : List Name) → length ns ≡ pack.now.names → result ≡ total_t (adds_equations_t ns pack.now.bytes.now defs.now receivers.now regcounts.now k) n 0) }
{
    let mut c = 0;
    let mut i = next_to(receivers, n, k, 0);
    while i < n {
        c += adds_equations(pack, defs, receivers, regcounts, k, i);
        i = next_to(receivers, n, k, i + 1);
    }
    c
}

// How many locals they bring to it.
pub fn added_locals(
    pack: &CheckedPack,
    defs: &[usize],
    receivers: &[usize],
    regcounts: &[usize],
    n: usize,
    k: usize,
) -> usize
    requires { n ≤ word_range }
    ensures { (result ≤ 1048576 * n) × ((ns : List Name) → length ns ≡ pack.now.names → result ≡ total_t (adds_locals_t ns pack.now.bytes.now defs.now receivers.now regcounts.now k) n 0) }
{
    let mut c = 0;
    let mut i = next_to(receivers, n, k, 0);
    while i < n {
        c += adds_locals(pack, defs, receivers, regcounts, k, i);
        i = next_to(receivers, n, k, i + 1);
    }
    c
}

// How many regions the first n machines have.
pub fn sum_of(regcounts: &[usize], n: usize) -> usize
    requires { n ≤ word_range }
    ensures { (result ≤ 1048576 * n) × (result ≡ total_t (regions_t regcounts.now) n 0) }
{
    let mut c = 0;
    for i in 0..n {
        c += small(entry(regcounts, i));
    }
    c
}

// Whether the machine i has an owner, as a number.
pub fn owned(pack: &[u8], defs: &[usize], i: usize) -> usize
    ensures { (result < 1048576) × (result ≡ owned_t pack.now defs.now i) }
{
    let a = entry(defs, i);
    let m = number(pack, a);
    let o = number(pack, m.next);
    if o.value == Pack::ABSENT { 0 } else { 1 }
}

// How many of the first n machines have an owner.
pub fn owned_count(pack: &[u8], defs: &[usize], n: usize) -> usize
    requires { n ≤ word_range }
    ensures { (result ≤ 1048576 * n) × (result ≡ total_t (owned_t pack.now defs.now) n 0) }
{
    let mut c = 0;
    for i in 0..n {
        c += owned(pack, defs, i);
    }
    c
}

// --- The nodes to which machines go: at the others none is asked, and at one of them none before the first or after the last that goes there.

// Stands for no node: none has an index so large.
pub const NO_NODE: usize = WORD_RANGE;

// The lesser of two goals, where a is not before k.
pub fn nearer(k: usize, a: usize, b: usize) -> usize
    ensures { result ≡ nearer_t k a b }
{
    if a < k {
        return b;
    }
    if a < b { a } else { b }
}

// The first node from k on to which one of n machines goes, `NO_NODE` where there is none.
fn receives(receivers: &[usize], n: usize, k: usize) -> usize
    ensures { result ≡ receives_t (goes_t receivers.now) k n 0 no_node }
{
    let mut b = NO_NODE;
    for i in 0..n {
        b = nearer(k, entry(receivers, i), b);
    }
    b
}

// The same, where b was found before: machines are asked again only once k is past it.
pub fn next_receiver(receivers: &[usize], n: usize, k: usize, b: usize) -> usize
    ensures { result ≡ next_receiver_t (goes_t receivers.now) n k b }
{
    if b < k { receives(receivers, n, k) } else { b }
}

// How many of n machines are asked at the node k: none before the next one to which they go.
pub fn asked(k: usize, b: usize, n: usize) -> usize
    ensures { result ≡ asked_t k b n }
{
    if k < b { 0 } else { n }
}

// How many of n machines stand from f on up to the last one that goes to the node k.
pub fn span(receivers: &[usize], n: usize, k: usize, f: usize) -> usize
    ensures { (result ≤ n - f) × ((j : ℕ) → f + result ≤ j → j < n → get_or receivers.now j 0 ≡ k → ⊥) }
{
    for i in (f..n).rev() {
        if entry(receivers, i) == k {
            return i + 1 - f;
        }
    }
    0
}

// A table from f on.
pub fn table_from(layout: &[usize], f: usize) -> &[usize]
    ensures { result.now ≡ drop f layout.now }
{
    let b = f.min(layout.len());
    &layout[b..]
}

// --- The locals that machines bring to a node: their own ones are copied, then those of their regions are made.

// The locals of the machine drawn at `at`.
fn put_locals(
    old: &[u8],
    pack: &CheckedPack,
    offsets: &[u16],
    at: usize,
    regions: usize,
    out: &mut [u8],
    made: &mut [u8],
    writer: Writer,
) -> Writer
    ensures { (ns : List Name) → length ns ≡ pack.now.names → state_of out.new made.new result ≡ render old.now (locals_t ns pack.now.bytes.now offsets.now at regions) (state_of out.old made.old writer) }
{
    let m = number(pack.bytes, at);
    let n = pack_name(pack.bytes, offsets, m.value);
    let a = to_locals(pack, at);
    let e = after_ports(pack.bytes, pack.names, a);
    let l = number(pack.bytes, a);
    let k = inner_count(regions);
    let b = between(pack.bytes, l.next, e);
    let x = put_bytes(b, out, writer);
    let y = put_region_locals(old, n, 0, out, made, x);
    put_inner_locals(old, n, 1, k, out, made, y)
}

// The locals of the machine i, where it goes to the node k.
fn put_added_locals(
    old: &[u8],
    pack: &CheckedPack,
    offsets: &[u16],
    defs: &[usize],
    receivers: &[usize],
    regcounts: &[usize],
    k: usize,
    i: usize,
    out: &mut [u8],
    made: &mut [u8],
    writer: Writer,
) -> Writer
    ensures { (ns : List Name) → length ns ≡ pack.now.names → state_of out.new made.new result ≡ render old.now (added_locals_t ns pack.now.bytes.now defs.now receivers.now regcounts.now offsets.now k i) (state_of out.old made.old writer) }
{
    let a = entry(receivers, i);
    let m = entry(defs, i);
    let r = entry(regcounts, i);
    if a == k {
        return put_locals(old, pack, offsets, m, r, out, made, writer);
    }
    writer
}

// The locals that the first n machines bring to the node k.
pub fn put_all_locals(
    old: &[u8],
    pack: &CheckedPack,
    offsets: &[u16],
    defs: &[usize],
    receivers: &[usize],
    regcounts: &[usize],
    n: usize,
    k: usize,
    out: &mut [u8],
    made: &mut [u8],
    writer: Writer,
) -> Writer
    ensures { (ns : List Name) → length ns ≡ pack.now.names → state_of out.new made.new result ≡ render old.now (each_t (added_locals_t ns pack.now.bytes.now defs.now receivers.now regcounts.now offsets.now k) n 0) (state_of out.old made.old writer) }
{
    let mut v = writer;
    let mut c = n;
    let mut i = next_to(receivers, c, k, 0);
    while i < c {
        v = put_added_locals(
            old, pack, offsets, defs, receivers, regcounts, k, i, out, made, v,
        );
        c = remaining(v, c);
        i = next_to(receivers, c, k, i + 1);
    }
    v
}
