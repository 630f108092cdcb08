ghost use Rattle.values.specs.Columns.{Made, total};
ghost use Rattle.values.specs.Texts.{goods_text};
ghost use Rattle.values.specs.Values.{goods_columns};
ghost use Rattle.std.specs.Prelude.{◌≡◌, [], ◌∷◌, refl};
ghost use Rattle.values.specs.Readings.{light, short_goods};
ghost use Rattle.std.proofs.Common.{arith, rules};
ghost use Rattle.values.specs.Together.{same_columns_goods, told_goods};

use super::Goods;
use crate::columns::{Columns, FITTING};
use crate::guess::guess_goods;
use crate::kind::Kind;
use crate::text::Text;

impl Goods {
    // The goods of four columns, absent if one is out of range.
    pub fn new(wood: i32, stone: i32, ore: i32, cloth: i32) -> Option<Goods>
        ensures { Made goods_columns (wood ∷ (stone ∷ (ore ∷ (cloth ∷ [])))) result }
    {
        Columns::new([wood, stone, ore, cloth]).map(|columns| Goods { columns })
    }
}

// Points and goods share `Columns`; what is left in their two impls is a line for each call.
impl Kind for Goods {
    ghost capital = { 71 };

    ghost width = { 4 };

    ghost columns = { goods_columns };

    ghost weigh = { total };

    ghost text = { goods_text };

    ghost upper = { Prim.search rules };

    ghost few = { Prim.search rules };

    ghost wide = { λ x. x.columns.full };

    ghost held = { λ x. x.columns.held };

    ghost every = { λ cs f h. (record { columns = record { numbers = cs; full = f; held = h } }, refl) };

    ghost same = { same_columns_goods };

    ghost light = { λ x. light x.columns.numbers (omega arith) x.columns.held };

    ghost short = { λ x. short_goods x.columns.numbers x.columns.full x.columns.held };

    ghost told = { told_goods };

    fn letter() -> u8 {
        b'G'
    }

    fn zero() -> Goods {
        Goods {
            columns: Columns::zero(),
        }
    }

    fn fits(&self) -> bool {
        self.columns.within(FITTING)
    }

    fn sum(&self, other: &Goods) -> Option<Goods> {
        Some(Goods {
            columns: self.columns.sum(&other.columns)?,
        })
    }

    fn difference(&self, other: &Goods) -> Option<Goods> {
        Some(Goods {
            columns: self.columns.difference(&other.columns)?,
        })
    }

    fn weight(&self) -> i64 {
        self.columns.total()
    }

    fn write(&self) -> Text {
        Text::parted(&self.columns.numbers())
    }

    fn read(bytes: &[u8]) -> Option<Goods> {
        guess_goods(bytes).filter(|value| value.write().as_slice() == bytes)
    }
}
