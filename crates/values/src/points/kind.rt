ghost use Rattle.values.specs.Columns.{Made, total};
ghost use Rattle.values.specs.Texts.{points_text_of};
ghost use Rattle.values.specs.Values.{points_columns};
ghost use Rattle.std.specs.Prelude.{◌≡◌, [], ◌∷◌, refl};
ghost use Rattle.values.specs.Readings.{light, short_points};
ghost use Rattle.values.specs.Together.{same_columns_points, told_points};
ghost use Rattle.std.proofs.Common.{arith, rules};

use super::Points;
use crate::columns::{Columns, FITTING};
use crate::guess::guess_points;
use crate::kind::Kind;
use crate::text::Text;

impl Points {
    // So many halves, absent if they are out of range.
    pub fn new(halves: i32) -> Option<Points>
        ensures { Made points_columns (halves ∷ []) result }
    {
        Columns::new([halves]).map(|columns| Points { columns })
    }
}

impl Kind for Points {
    ghost capital = { 80 };

    ghost width = { 1 };

    ghost columns = { points_columns };

    ghost weigh = { total };

    ghost text = { points_text_of };

    ghost upper = { Prim.search rules };

    ghost few = { Prim.search rules };

    ghost wide = { λ x. x.columns.full };

    ghost held = { λ x. x.columns.held };

    ghost every = { λ cs f h. (record { columns = record { numbers = cs; full = f; held = h } }, refl) };

    ghost same = { same_columns_points };

    ghost light = { λ x. light x.columns.numbers (omega arith) x.columns.held };

    ghost short = { λ x. short_points x.columns.numbers x.columns.full x.columns.held };

    ghost told = { told_points };

    fn letter() -> u8 {
        b'P'
    }

    fn zero() -> Points {
        Points {
            columns: Columns::zero(),
        }
    }

    fn fits(&self) -> bool {
        self.columns.within(FITTING)
    }

    fn sum(&self, other: &Points) -> Option<Points> {
        Some(Points {
            columns: self.columns.sum(&other.columns)?,
        })
    }

    fn difference(&self, other: &Points) -> Option<Points> {
        Some(Points {
            columns: self.columns.difference(&other.columns)?,
        })
    }

    fn weight(&self) -> i64 {
        self.columns.total()
    }

    fn write(&self) -> Text {
        let [halves] = self.columns.numbers();
        let mut text = Text::empty();
        text.push_minus(halves);
        text.push_halves(halves.unsigned_abs());
        text
    }

    fn read(bytes: &[u8]) -> Option<Points> {
        guess_points(bytes).filter(|value| value.write().as_slice() == bytes)
    }
}
