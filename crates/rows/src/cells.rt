// The cells of one row.
ghost use Rattle.std.specs.Prelude.{◌≡◌, ◌<◌, length, ◌==◌, position, MatchBool};
ghost use Rattle.std.specs.List.{ContainsAt};
ghost use Rattle.crowding.specs.Putting.{Put};
ghost use Rattle.maps.specs.Reading.{row};
ghost use Rattle.rows.specs.Steps.{SameBesideCells};
ghost use Rattle.rows.specs.View.{rows_of};

use crate::link_rows::LinkRows;
use maps::reading::EMPTY;

impl LinkRows<'_> {
    // The cells of row `v`.
    fn row(&self, v: u16) -> &[u16]
        requires { v < self.now.memory.n }
        ensures { result.now ≡ row self.now.memory.k self.now.memory.table.now v }
    {
        let from = v as usize * self.memory.k;
        &self.memory.table[from..from + self.memory.k]
    }

    // The place in row `v` of the first cell that holds `c`.
    fn find(&self, v: u16, c: u16) -> Option<usize>
        requires { v < self.now.memory.n }
        ensures { result ≡ position (λ x. x == c) (row self.now.memory.k self.now.memory.table.now v) }
    {
        self.row(v).iter().position(|x| *x == c)
    }

    // Whether row `v` has a free cell.
    pub(crate) fn has_room(&self, v: u16) -> bool
        requires { v < self.now.memory.n }
        ensures { MatchBool result
            (length (rows_of self.now.memory v) < self.now.memory.k)
            (length (rows_of self.now.memory v) ≡ self.now.memory.k) }
    {
        self.find(v, EMPTY).is_some()
    }

    // Puts `c` into the first free cell of row `v`.
    pub(crate) fn put_in(&mut self, v: u16, c: u16)
        requires inside { (v < self.old.memory.n) × (c < self.old.memory.n) }
        requires free { length (rows_of self.old.memory v) < self.old.memory.k }
        ensures put { Put self.old.memory.n v c (rows_of self.old.memory) (rows_of self.new.memory) }
        ensures rest { SameBesideCells self.old.memory self.new.memory }
    {
        let j = self.find(v, EMPTY).unwrap();
        self.memory.table[v as usize * self.memory.k + j] = c;
    }

    // Takes `c` out of row `v` and closes the gap with the row's last filled cell. False, and nothing changed, if the row does not hold it: a bool, as `lift` answers.
    pub(crate) fn take_out(&mut self, v: u16, c: u16) -> bool
        requires inside { (v < self.old.memory.n) × (c < self.old.memory.n) }
        ensures answer { MatchBool result
            (Put self.old.memory.n v c (rows_of self.new.memory) (rows_of self.old.memory))
            ((self.new.memory.table.now ≡ self.old.memory.table.now) × ¬ ContainsAt (rows_of self.old.memory v) c) }
        ensures rest { SameBesideCells self.old.memory self.new.memory }
    {
        let from = v as usize * self.memory.k;
        let Some(gap) = self.find(v, c) else {
            return false;
        };
        let last = self.find(v, EMPTY).unwrap_or(self.memory.k) - 1;
        self.memory.close_gap(from + gap, from + last);
        true
    }
}
