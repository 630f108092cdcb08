// The search along the rows for a space with a free cell.
ghost use Rattle.std.specs.Prelude.{◌≡◌, ℕ, ◌+◌, ◌<◌, ◌≤◌, true, false, ◌⊎◌, length, MatchOption};
ghost use Rattle.rows.specs.LayEnd.{TwoSpaces};
ghost use Rattle.maps.specs.Searching.{MarksOf};
ghost use Rattle.rows.specs.Steps.{Ended, Kept, Searching, Stuck, Trail, Visited, WentOn, seen};
ghost use Rattle.rows.specs.View.{queued, rows_of};
ghost use Rattle.std.specs.List.{ContainsAt};

use crate::link_rows::LinkRows;
use maps::marks::Marks;
use maps::reading::EMPTY;

// Rows, marks and `tail` stay apart: a struct of both references would have to say in every call that it still holds the same two.
impl LinkRows<'_> {
    // Notes the space `x`, found from `parent`, as the next one.
    fn note(&mut self, marks: &mut Marks<'_>, x: u16, parent: u16, tail: usize)
        requires searching { Searching self.old.memory marks.old tail }
        requires inside { x < self.old.memory.n }
        requires fresh { seen self.old.memory marks.old x ≡ false }
        requires why { (tail < 2) ⊎
            ((seen self.old.memory marks.old parent ≡ true) × ContainsAt (rows_of self.old.memory parent) x) }
        ensures kept { Kept self.old.memory self.new.memory marks.old marks.new }
        ensures searching { Searching self.new.memory marks.new (tail + 1) }
        ensures grown { WentOn self.old.memory self.new.memory marks.old marks.new tail (tail + 1) }
        ensures here { seen self.old.memory marks.new x ≡ true }
    {
        self.memory.note_found(tail, x, parent);
        marks.mark(x as usize);
    }

    // Notes what row `v` names and was not yet found, up to a free cell: how many are found then, or none if the row has a free cell.
    fn visit_row(&mut self, marks: &mut Marks<'_>, v: u16, tail: usize) -> Option<usize>
        requires searching { Searching self.old.memory marks.old tail }
        requires found { seen self.old.memory marks.old v ≡ true }
        ensures kept { Kept self.old.memory self.new.memory marks.old marks.new }
        ensures visited { Visited self.old.memory self.new.memory marks.old marks.new v tail result }
    {
        let k = self.memory.k;
        let from = v as usize * k;
        let mut tail = tail;
        // By index: `note` writes into the rows, so none of their cells can stay lent to an iterator.
        for j in 0..k {
            let c = self.memory.table[from + j];
            if c == EMPTY {
                return None;
            }
            if !marks.is_marked(c as usize) {
                self.note(marks, c, v, tail);
                tail += 1;
            }
        }
        Some(tail)
    }

    // The space at place `head` of the queue, which ends at `tail`. The queue lies in the lent records: no heap.
    fn next_found(&self, head: usize, tail: usize) -> Option<u16>
        requires { tail ≤ length self.now.memory.records.now }
        ensures { MatchOption result (tail ≤ head) (λ v. (head < tail) × (v ≡ queued self.now.memory head)) }
    {
        self.memory.records[..tail]
            .get(head)
            .map(|found| found.queue)
    }

    // Goes through the spaces found, beginning with the two that are noted, until one has a free cell.
    fn spread(&mut self, marks: &mut Marks<'_>) -> Option<u16>
        requires { Searching self.old.memory marks.old 2 }
        ensures kept { Kept self.old.memory self.new.memory marks.old marks.new }
        ensures ended { Ended self.old.memory self.new.memory marks.old marks.new result }
    {
        let mut head = 0;
        let mut tail = 2;
        while let Some(v) = self.next_found(head, tail) {
            let Some(found) = self.visit_row(marks, v, tail) else {
                return Some(v);
            };
            tail = found;
            head += 1;
        }
        None
    }

    // Searches from `a` and `b` along the rows for a space with a free cell. No space is marked when it begins, and all that are reached are if there is none.
    pub(crate) fn reach(&mut self, marks: &mut Marks<'_>, a: u16, b: u16) -> Option<u16>
        requires marked { MarksOf self.old.memory.n marks.old }
        requires none { (x : ℕ) → seen self.old.memory marks.old x ≡ false }
        requires ends { TwoSpaces self.old.memory a b }
        ensures kept { Kept self.old.memory self.new.memory marks.old marks.new }
        ensures answer { MatchOption result
            (Stuck self.new.memory marks.new a b)
            (λ w. Trail self.new.memory (seen self.new.memory marks.new) a b w) }
    {
        self.note(marks, a, a, 0);
        self.note(marks, b, b, 1);
        self.spread(marks)
    }
}
