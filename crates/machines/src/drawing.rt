// A drawing: a pack, and the table of what is kept of what was read of it (`memo`). What is asked of equations, guards, regions and
// states is looked up where it is kept, and read where it is not.
ghost use Rattle.std.specs.Prelude.{◌≡◌, List, length};
ghost use Rattle.std.proofs.Props.{props};
ghost use Rattle.wire.specs.Answer.{counted};
ghost use Rattle.pack_rules.specs.Names.{Name};
ghost use Rattle.pack_rules.specs.Read.{equation_in, expr_in, state_at};
ghost use Rattle.machines.specs.ResolvedIn.{end_of, over_in};
ghost use Rattle.machines.specs.LayoutAt.{moves_at, regions_at};
ghost use Rattle.machines.specs.MemoSound.{MemoSound, RowsSound};

use crate::checked_read::{
    CheckedPack, after_equation, after_equations, after_expr, after_state, after_transitions,
    number,
};
use crate::memo::{EQUATION, GUARD, memo_at, memo_moves, memo_past, memo_regions};
use wire::answer::Number;

// What the table says is right (specs/MemoSound).
#[derive(Clone, Copy)]
pub struct Drawing<'a, 'b> {
    pub pack: CheckedPack<'a>,
    pub memo: &'b [u16],
    pub ghost sound: { RowsSound pack.bytes.now pack.names memo.now } by { Prim.hlevel props },
}

// Of a state: where its transitions begin; how many regions it has, and where they are.
#[derive(Clone, Copy)]
pub struct Inside {
    pub moves: usize,
    pub regions: Number,
}

impl<'a, 'b> Drawing<'a, 'b> {
    // Past the equation at `at`. Inlined, since a state's equations are gone through once for each output.
    #[inline(always)]
    pub fn end_of(&self, at: usize) -> usize
        ensures { (ns : List Name) → length ns ≡ self.now.pack.names → result ≡ end_of (equation_in ns self.now.pack.bytes.now at) }
    {
        let e = memo_at(self.memo, at, EQUATION);
        if 0 < e {
            return e;
        }
        after_equation(self.pack.bytes, self.pack.names, at)
    }

    // Past the guard at `at`.
    pub fn guard_end(&self, at: usize) -> usize
        ensures { (ns : List Name) → length ns ≡ self.now.pack.names → result ≡ end_of (expr_in ns self.now.pack.bytes.now at) }
    {
        let e = memo_at(self.memo, at, GUARD);
        if 0 < e {
            return e;
        }
        after_expr(self.pack.bytes, self.pack.names, at)
    }

    // Where the transitions of the state at `at` begin.
    pub fn moves_of(&self, at: usize) -> usize
        ensures { (ns : List Name) → length ns ≡ self.now.pack.names → result ≡ moves_at ns self.now.pack.bytes.now at }
    {
        let r = memo_regions(self.memo, at);
        if 0 < r {
            return memo_moves(self.memo, at);
        }
        let i = number(self.pack.bytes, at);
        after_equations(self.pack.bytes, self.pack.names, i.next)
    }

    // What is inside the state at `at`, by one look.
    pub fn inside_of(&self, at: usize) -> Inside
        ensures { (ns : List Name) → length ns ≡ self.now.pack.names → (result.moves ≡ moves_at ns self.now.pack.bytes.now at) × (result.regions ≡ regions_at ns self.now.pack.bytes.now at) }
    {
        let r = memo_regions(self.memo, at);
        if 0 < r {
            let moves = memo_moves(self.memo, at);
            let regions = number(self.pack.bytes, r);
            return Inside { moves, regions };
        }
        let moves = self.moves_of(at);
        let regions = number(
            self.pack.bytes,
            after_transitions(self.pack.bytes, self.pack.names, moves),
        );
        Inside { moves, regions }
    }

    // Past the state at `at`.
    pub fn past_of(&self, at: usize) -> usize
        ensures { (ns : List Name) → length ns ≡ self.now.pack.names → result ≡ over_in ns self.now.pack.bytes.now at }
    {
        let r = memo_regions(self.memo, at);
        if 0 < r {
            return memo_past(self.memo, at);
        }
        after_state(self.pack.bytes, self.pack.names, at)
    }

    // Past the states whose count stands at `at`.
    pub fn past_states(&self, at: usize) -> usize
        ensures { (ns : List Name) → length ns ≡ self.now.pack.names → result ≡ end_of (counted (state_at ns self.now.pack.bytes.now) self.now.pack.bytes.now at) }
    {
        let c = number(self.pack.bytes, at);
        let mut p = c.next;
        for _ in 0..c.value {
            p = self.past_of(p);
            if p == 0 {
                return 0;
            }
        }
        p
    }
}

// A drawing's tables by name index (`table`): where each name stands, and where the initial state of the machine of that name does. What
// is kept of the drawing has also the lengths of names, which are right where names stand so.
#[derive(Clone, Copy)]
pub struct NameTables<'a, 'b, 'c> {
    pub drawing: Drawing<'a, 'b>,
    pub offsets: &'c [u16],
    pub machines: &'c [u16],
    pub ghost lengths: { MemoSound drawing.pack.bytes.now drawing.pack.names offsets.now drawing.memo.now } by { Prim.hlevel props },
}
