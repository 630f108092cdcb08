ghost use Rattle.std.specs.Prelude.{◌≡◌, ◌<◌, ◌≤◌, pos, ◌+ℤ◌, ◌-ℤ◌, length, replicate, Decides};
ghost use Rattle.std.specs.List.{AllByRecursion};
ghost use Rattle.values.specs.Columns.{Held, Held-prop, Made, Within, by_column, column, total};

use std::array;

// The most of any column, in size.
const HELD: u32 = 1_000_000_000;

// The most of a column that fits.
pub(crate) const FITTING: u32 = 10_000;

// The most of a column that can be read.
pub(crate) const READABLE: u32 = 1_000_000;

// The columns of a value: whole numbers within ±1,000,000,000.
#[derive(Clone, Copy, Debug, PartialEq, Eq)]
pub(crate) struct Columns<const N: usize> {
    numbers: [i32; N],
    ghost full: { length numbers ≡ N },
    ghost held: { Held numbers } by { Held-prop numbers },
}

// Whether each number is within ±most.
fn all_within(numbers: &[i32], most: u32) -> bool
    ensures { Decides result (AllByRecursion (Within most) numbers.now) }
{
    numbers.iter().all(|z| z.unsigned_abs() <= most)
}

impl<const N: usize> Columns<N> {
    // The columns of these numbers, absent if one is out of range.
    pub(crate) fn new(numbers: [i32; N]) -> Option<Columns<N>>
        ensures { Made (λ c. c.numbers) numbers.entry result }
    {
        // Not `then_some`: the ghost field wants the test before the value is made.
        if all_within(&numbers, HELD) {
            Some(Columns { numbers })
        } else {
            None
        }
    }

    pub(crate) fn zero() -> Columns<N>
        ensures { result.numbers ≡ replicate N (pos 0) }
    {
        Columns { numbers: [0; N] }
    }

    pub(crate) fn numbers(&self) -> [i32; N]
        ensures { result ≡ self.now.numbers }
    {
        self.numbers
    }

    // Whether each column is within ±most.
    pub(crate) fn within(&self, most: u32) -> bool
        ensures { Decides result (AllByRecursion (Within most) self.now.numbers) }
    {
        all_within(&self.numbers, most)
    }

    // The column at this place.
    fn at(&self, place: usize) -> i32
        requires { place < N }
        ensures is { result ≡ column self.now.numbers place }
        ensures held { Within 1000000000 result }
    {
        self.numbers[place]
    }

    // Two, not one over the operation: its two `requires` on all pairs and its ghost pick are longer.

    // The sum, column by column; absent if a column would leave the range.
    pub(crate) fn sum(&self, other: &Columns<N>) -> Option<Columns<N>>
        ensures { Made (λ c. c.numbers) (by_column ◌+ℤ◌ self.now.numbers other.now.numbers) result }
    {
        Columns::new(array::from_fn(
            |i: usize| -> i32
                requires { i < N }
                ensures { result ≡ column self.entry.now.numbers i +ℤ column other.entry.now.numbers i }
            { self.at(i) + other.at(i) },
        ))
    }

    // The difference, column by column; absent if a column would leave the range.
    pub(crate) fn difference(&self, other: &Columns<N>) -> Option<Columns<N>>
        ensures { Made (λ c. c.numbers) (by_column ◌-ℤ◌ self.now.numbers other.now.numbers) result }
    {
        Columns::new(array::from_fn(
            |i: usize| -> i32
                requires { i < N }
                ensures { result ≡ column self.entry.now.numbers i -ℤ column other.entry.now.numbers i }
            { self.at(i) - other.at(i) },
        ))
    }

    // The sum of the columns, of which there are at most four. Not by `sum`: its bound and its result stayed open.
    pub(crate) fn total(&self) -> i64
        requires { N ≤ 4 }
        ensures { result ≡ total self.now.numbers }
    {
        let mut total = 0;
        for z in &self.numbers {
            total += i64::from(*z);
        }
        total
    }
}
