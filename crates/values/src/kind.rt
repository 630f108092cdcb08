ghost use Rattle.std.specs.Prelude.{◌≡◌, ℕ, ◌≤◌, List, length, replicate, ℤ, pos, ◌+ℤ◌, ◌-ℤ◌, Decides, unsigned_abs};
ghost use Rattle.values.specs.Columns.{Combined, Fitting, Held};
ghost use Rattle.values.specs.Reading.{Reading};
ghost use Rattle.values.specs.Shown.{shown};

use crate::text::Text;

// A kind of value: 1 to 4 columns of whole numbers within ±1,000,000,000, as many throughout the kind.
pub trait Kind: Copy {
    // The byte of its capital letter.
    ghost capital: { ℕ };

    // How many columns it has.
    ghost width: { ℕ };

    ghost columns: { Self → List ℤ };

    // What columns weigh, in halves.
    ghost weigh: { List ℤ → ℤ };

    // The text of columns.
    ghost text: { List ℤ → List ℕ };

    // Its capital letter.
    fn letter() -> u8
        ensures { result ≡ capital };

    // The value with 0 in every column.
    fn zero() -> Self
        ensures { columns result ≡ replicate width (pos 0) };

    // Whether every column is -10,000 to 10,000.
    fn fits(&self) -> bool
        ensures { Decides result (Fitting (columns self.now)) };

    // The sum, column by column; absent if a column would leave the range.
    fn sum(&self, other: &Self) -> Option<Self>
        ensures { Combined columns ◌+ℤ◌ self.now other.now result };

    // The difference, column by column; absent if a column would leave the range.
    fn difference(&self, other: &Self) -> Option<Self>
        ensures { Combined columns ◌-ℤ◌ self.now other.now result };

    // The weight, in halves.
    fn weight(&self) -> i64
        ensures { result ≡ weigh (columns self.now) };

    // The value's text.
    fn write(&self) -> Text
        ensures { shown result ≡ text (columns self.now) };

    // The value within ±1,000,000 in every column that is written so, if there is one.
    fn read(bytes: &[u8]) -> Option<Self>
        ensures { Reading columns text bytes.now result };

    ghost upper: { (65 ≤ capital) × (capital ≤ 90) };

    ghost few: { (1 ≤ width) × (width ≤ 4) };

    ghost wide: { (x : Self) → length (columns x) ≡ width };

    ghost held: { (x : Self) → Held (columns x) };

    // All columns in range are some value's, and only one's.
    ghost every: { (cs : List ℤ) → length cs ≡ width → Held cs → (x : Self) × (columns x ≡ cs) };

    ghost same: { (x y : Self) → columns x ≡ columns y → x ≡ y };

    ghost light: { (x : Self) → unsigned_abs (weigh (columns x)) ≤ 4000000000 };

    ghost short: { (x : Self) → length (text (columns x)) ≤ 47 };

    // Two values with the same text are the same value.
    ghost told: { (x y : Self) → text (columns x) ≡ text (columns y) → x ≡ y };
}
