// The way back from a free cell.
ghost use Rattle.maps.specs.Sets.{Spaces};
ghost use Rattle.rows.specs.LayEnd.{Ends};
ghost use Rattle.rows.specs.Steps.{Trail, TurnedTo};

use crate::link_rows::LinkRows;

impl LinkRows<'_> {
    // Turns the links on the way back from `w`, which has a free cell, until `a` or `b` has one: that end, and the other.
    pub(crate) fn turn_back(&mut self, w: u16, a: u16, b: u16) -> (u16, u16)
        requires { (found : Spaces) × Trail self.old.memory found a b w }
        ensures ends { Ends a b result.0 result.1 }
        ensures turned { TurnedTo self.old.memory self.new.memory result.0 }
    {
        let mut w = w;
        'back: loop {
            if w == a {
                return (a, b);
            }
            if w == b {
                return (b, a);
            }
            let p = self.memory.records[w as usize].parent;
            self.take_out(p, w);
            self.put_in(w, p);
            w = p;
        }
    }
}
