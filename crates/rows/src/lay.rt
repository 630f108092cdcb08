// One link laid, or refused with the set that it would overfill.
ghost use Rattle.std.specs.Prelude.{◌≡◌, ℕ, ◌<◌, ◌≤◌, false, length, if◌then◌else◌, MatchOption, slice_index};
ghost use Rattle.rows.specs.Calls.{InsideEnds};
ghost use Rattle.rows.specs.Keeping.{SameShape};
ghost use Rattle.rows.specs.LayEnd.{Ends, LayEnd, TwoSpaces};
ghost use Rattle.maps.specs.Searching.{MarksOf, StillLent};
ghost use Rattle.rows.specs.Search.{among};
ghost use Rattle.rows.specs.Steps.{seen};
ghost use Rattle.rows.specs.View.{rows_of};

use crate::link_rows::LinkRows;
use crate::link_rows::calls::Refusal;
use maps::marks::Marks;

// Writes the spaces that are marked, of the first `n`, as 1 and the others as 0. The survey writes a set from degrees: one function over a test would need a clause on it longer than the loop.
fn show(found: &Marks<'_>, n: usize, members: &mut [u8])
    requires { (found.now.n ≡ n) × (n ≤ length members.old) }
    ensures shown { (x : ℕ) → x < n →
        slice_index members.new x ≡ (if among n found.now.bytes.now x then 1 else 0) }
    ensures past { (x : ℕ) → n ≤ x → slice_index members.new x ≡ slice_index members.old x }
{
    for (i, member) in members[..n].iter_mut().enumerate() {
        *member = u8::from(found.is_marked(i));
    }
}

impl LinkRows<'_> {
    // The end of the link of `a` and `b` that has a free cell, and the other end; none if both rows are full.
    pub(crate) fn free_end(&self, a: u16, b: u16) -> Option<(u16, u16)>
        requires { InsideEnds self.now.memory a b }
        ensures { MatchOption result
            ((length (rows_of self.now.memory a) ≡ self.now.memory.k) × (length (rows_of self.now.memory b) ≡ self.now.memory.k))
            (λ p. Ends a b p.0 p.1 × (length (rows_of self.now.memory p.0) < self.now.memory.k)) }
    {
        if self.has_room(a) {
            return Some((a, b));
        }
        if self.has_room(b) {
            return Some((b, a));
        }
        None
    }

    // Searches for a free cell and lays the link of `a` and `b`, unless some set would then be overfull: then `members` gets the smallest such set. No space is marked when it begins.
    pub(crate) fn lay_by_search(
        &mut self,
        a: u16,
        b: u16,
        members: &mut [u8],
        marks: &mut Marks<'_>,
    ) -> Result<(), Refusal>
        requires room { self.old.memory.n ≤ length members.old }
        requires marked { MarksOf self.old.memory.n marks.old }
        requires none { (x : ℕ) → seen self.old.memory marks.old x ≡ false }
        requires ends { TwoSpaces self.old.memory a b }
        ensures shape { SameShape self.old.memory self.new.memory }
        ensures marks { StillLent self.old.memory.n marks.old marks.new }
        ensures answer { LayEnd self.old.memory self.new.memory a b members.old members.new result }
    {
        let n = self.memory.n;
        let Some(w) = self.reach(marks, a, b) else {
            show(marks, n, members);
            return Err(Refusal::Crowded);
        };
        let (end, other) = self.turn_back(w, a, b);
        self.put_in(end, other);
        Ok(())
    }
}
