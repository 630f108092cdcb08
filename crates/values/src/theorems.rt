ghost use Rattle.std.specs.Prelude.{◌≡◌, Some, None};
ghost use Rattle.values.specs.Columns.{Readable};
ghost use Rattle.values.specs.Texts.{goods_text, points_text_of};
ghost use Rattle.values.specs.Theorems.{ReadsBack, RefusesUnwritten, ToldApart};
ghost use Rattle.values.specs.Values.{goods_columns, points_columns};
ghost use Rattle.values.specs.Worked.{LongestGoods, NoGoods, NoPoints, WorkedPoints};

use crate::kind::Kind;

// What stands as theorems: each contract here is one, and the answer is always 0.

// For every kind, reading undoes writing.
pub fn kind_stands<K: Kind>() -> u8
    ensures zero { result ≡ 0 }
    ensures back { ReadsBack K.columns K.text }
    ensures apart { ToldApart K.columns K.text }
    ensures refused { RefusesUnwritten K.columns K.text }
{
    0
}

// The same of points, and their worked texts.
pub fn points_stand() -> u8
    ensures zero { result ≡ 0 }
    ensures back { ReadsBack points_columns points_text_of }
    ensures apart { ToldApart points_columns points_text_of }
    ensures refused { NoPoints }
    ensures worked { WorkedPoints }
{
    0
}

// The same of goods.
pub fn goods_stand() -> u8
    ensures zero { result ≡ 0 }
    ensures back { ReadsBack goods_columns goods_text }
    ensures apart { ToldApart goods_columns goods_text }
    ensures refused { NoGoods }
    ensures longest { LongestGoods }
{
    0
}

// A value written and read again: itself if its columns are within ±1,000,000, else nothing.
pub fn reread<K: Kind>(value: &K) -> Option<K>
    ensures back { Readable (K.columns value.now) → result ≡ Some value.now }
    ensures beyond { (Readable (K.columns value.now) → ⊥) → result ≡ None }
{
    K::read(value.write().as_slice())
}
