// The calls on links kept in rows. Each tests first.
ghost use Rattle.maps.specs.Reading.{reading};
ghost use Rattle.rows.specs.Calls.{ClearAnswer, InsideEnds, LayAnswer, LiftAnswer, OutsideEnd, ReadAnswer, enough};
ghost use Rattle.rows.specs.Guarded.{LayGuardedAnswer};
ghost use Rattle.rows.specs.Keeping.{Keeps, OwnLinks};
ghost use Rattle.rows.specs.LayEnd.{EndsChecked};
ghost use Rattle.maps.specs.Searching.{StillLent};
ghost use Rattle.std.specs.Prelude.{◌≡◌, ◌*◌, ◌≤◌, [], length, is_ok, MatchBool};

use crate::link_rows::LinkRows;
use crate::memory::{Memory, SpaceRecord};
use maps::marks::Marks;
use maps::reading::{Reading, read_link};

// Why a link is not laid.
#[derive(Clone, Copy, Debug, PartialEq, Eq)]
pub enum Refusal {
    ShortMemory,
    EndOutOfRange,
    EqualEnds,
    Crowded,
}

// The memory that was lent is not enough.
#[derive(Clone, Copy, Debug, PartialEq, Eq)]
pub struct ShortMemory;

// What is said of every list of links that the rows keep is said of one at least.
pub fn own_links_stand() -> u8
    ensures { OwnLinks }
{
    0
}

impl<'a> LinkRows<'a> {
    // No spaces and no links, over this memory.
    pub fn new(records: &'a mut [SpaceRecord], table: &'a mut [u16]) -> LinkRows<'a>
        ensures n { result.memory.n ≡ 0 }
        ensures k { result.memory.k ≡ 0 }
        ensures none { Keeps result.memory [] }
        ensures table { result.memory.table.now ≡ table.old }
        ensures records { result.memory.records.now ≡ records.old }
    {
        let memory = Memory {
            records,
            table,
            n: 0,
            k: 0,
        };
        LinkRows { memory }
    }

    // How many spaces there are, and how many cells each has.
    pub fn size(&self) -> (usize, usize)
        ensures { result ≡ (self.now.memory.n, self.now.memory.k) }
    {
        (self.memory.n, self.memory.k)
    }

    // Whether the memory is enough for `n` spaces and `k` cells to each.
    pub fn is_enough(&self, n: usize, k: usize) -> bool
        ensures { result ≡ enough n k (length self.now.memory.records.now) (length self.now.memory.table.now) }
    {
        n <= 4096 && k <= 8 && n <= self.memory.records.len() && n * k <= self.memory.table.len()
    }

    // Begins anew with `n` spaces, `k` cells to each, and no link. Refused, and nothing changed, if the memory is not enough.
    pub fn clear(&mut self, n: usize, k: usize) -> Result<(), ShortMemory>
        ensures when { is_ok result ≡ enough n k (length self.old.memory.records.now) (length self.old.memory.table.now) }
        ensures answer { ClearAnswer self.old.memory self.new.memory n k result }
    {
        if !self.is_enough(n, k) {
            return Err(ShortMemory);
        }
        self.memory.clear(n, k);
        Ok(())
    }

    // Whether both are spaces. The two ends go as two numbers, as in the public calls and in `read_link`.
    fn has_both(&self, a: u16, b: u16) -> bool
        ensures { MatchBool result (InsideEnds self.now.memory a b) (OutsideEnd self.now.memory a b) }
    {
        (a as usize) < self.memory.n && (b as usize) < self.memory.n
    }

    // Whether a link may join `a` and `b`.
    fn check_ends(&self, a: u16, b: u16) -> Result<(), Refusal>
        ensures { EndsChecked self.now.memory a b result }
    {
        if !self.has_both(a, b) {
            return Err(Refusal::EndOutOfRange);
        }
        if a == b {
            return Err(Refusal::EqualEnds);
        }
        Ok(())
    }

    // Lays the link of `a` and `b`. If it is crowded, `members` gets the smallest set that the link would overfill.
    pub fn lay(
        &mut self,
        a: u16,
        b: u16,
        members: &mut [u8],
        marks: &mut [u8],
    ) -> Result<(), Refusal>
        ensures { LayAnswer self.old.memory self.new.memory a b members.old members.new marks.old marks.new result }
    {
        let n = self.memory.n;
        if members.len() < n || marks.len() < n {
            return Err(Refusal::ShortMemory);
        }
        self.check_ends(a, b)?;
        let mut guard = Marks::new(marks, n);
        self.lay_by_search(a, b, members, &mut guard)
    }

    // Lays the link of `a` and `b`. If it is crowded, `members` gets the smallest set that the link would overfill. The marks serve a search: what they hold means nothing before, and is free afterwards unless nothing was written.
    pub fn lay_guarded(
        &mut self,
        a: u16,
        b: u16,
        members: &mut [u8],
        marks: &mut Marks<'_>,
    ) -> Result<(), Refusal>
        ensures answer { LayGuardedAnswer self.old.memory self.new.memory a b members.old members.new marks.old marks.new result }
        ensures marks { StillLent self.old.memory.n marks.old marks.new }
    {
        let n = self.memory.n;
        if members.len() < n || !marks.covers(n) {
            return Err(Refusal::ShortMemory);
        }
        self.check_ends(a, b)?;
        if let Some((end, other)) = self.free_end(a, b) {
            self.put_in(end, other);
            return Ok(());
        }
        marks.unmark_all();
        self.lay_by_search(a, b, members, marks)
    }

    // Lifts the link of `a` and `b`. False, and nothing changed, if it is not kept: a bool, as a set's `remove` answers.
    pub fn lift(&mut self, a: u16, b: u16) -> bool
        ensures { LiftAnswer self.old.memory self.new.memory a b result }
    {
        if !self.has_both(a, b) {
            return false;
        }
        self.take_out(a, b) || self.take_out(b, a)
    }

    // Reads the rows of `a` and `b`, as far as the table has them.
    fn read_rows(&self, a: u16, b: u16) -> Reading
        ensures rule { (result.linked, result.cells) ≡ reading self.now.memory.k self.now.memory.table.now a b }
        ensures few { result.cells ≤ 2 * self.now.memory.k }
    {
        read_link(self.memory.table, self.memory.k as u16, a, b)
    }

    // Reads the rows of `a` and `b` for their link. None if one of them is no space.
    pub fn read(&self, a: u16, b: u16) -> Option<Reading>
        ensures { ReadAnswer self.now.memory a b result }
    {
        // Not `then_some`, which reads before the test; a closure for `then` would have to state these clauses again.
        if !self.has_both(a, b) {
            return None;
        }
        Some(self.read_rows(a, b))
    }
}
