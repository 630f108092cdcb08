ghost use Rattle.std.specs.Prelude.{◌≤◌, decimal};
ghost use Rattle.std.specs.Fmt.{signed_decimal};
ghost use Rattle.values.specs.Columns.{Readable, Within};
ghost use Rattle.values.specs.Guesses.{First, Guess, list_of};
ghost use Rattle.values.specs.Texts.{goods_text, halves_text, points_text_of, signed_halves_text};
ghost use Rattle.values.specs.Values.{goods_columns, points_columns};

use crate::columns::READABLE;
use crate::goods::Goods;
use crate::points::Points;

// The first step of reading: nothing that is written so is missed, but a text that nothing is written as may be taken too.

// A whole number up to most.
fn whole(text: &str, most: u32) -> Option<u32>
    ensures { Guess decimal (λ n. n ≤ most) text.now result }
{
    text.parse::<u32>().ok().filter(|n| *n <= most)
}

// A number of halves.
fn halves(text: &str) -> Option<u32>
    ensures { Guess halves_text (λ n. n ≤ 1000000) text.now result }
{
    match text.split_once('.') {
        Some((front, _)) => whole(front, READABLE / 2 - 1).map(|n| 2 * n + 1),
        None => whole(text, READABLE / 2).map(|n| 2 * n),
    }
}

// A number of halves with its sign.
fn signed_halves(text: &str) -> Option<i32>
    ensures { Guess signed_halves_text (Within 1000000) text.now result }
{
    match text.strip_prefix('-') {
        Some(rest) => halves(rest).map(|n| -(n as i32)),
        None => halves(text).map(|n| n as i32),
    }
}

// A column of goods.
fn column(text: &str) -> Option<i32>
    ensures { Guess signed_decimal (Within 1000000) text.now result }
{
    text.parse::<i32>()
        .ok()
        .filter(|z| z.unsigned_abs() <= READABLE)
}

// The column before the first comma, and what follows the comma.
fn first(text: &str) -> Option<(i32, &str)>
    ensures { First text.now result }
{
    let (front, rest) = text.split_once(',')?;
    Some((column(front)?, rest))
}

// Four columns parted by commas.
fn four(text: &str) -> Option<(i32, i32, i32, i32)>
    ensures { Guess (λ q. goods_text (list_of q)) (λ q. Readable (list_of q)) text.now result }
{
    let (wood, rest) = first(text)?;
    let (stone, rest) = first(rest)?;
    let (ore, rest) = first(rest)?;
    Some((wood, stone, ore, column(rest)?))
}

// A number up to most.
pub(crate) fn guess_number(bytes: &[u8], most: u32) -> Option<u32>
    ensures { Guess decimal (λ n. n ≤ most) bytes.now result }
{
    whole(std::str::from_utf8(bytes).ok()?, most)
}

// Points.
pub(crate) fn guess_points(bytes: &[u8]) -> Option<Points>
    ensures { Guess (λ v. points_text_of (points_columns v)) (λ v. Readable (points_columns v)) bytes.now result }
{
    Points::new(signed_halves(std::str::from_utf8(bytes).ok()?)?)
}

// Goods.
pub(crate) fn guess_goods(bytes: &[u8]) -> Option<Goods>
    ensures { Guess (λ v. goods_text (goods_columns v)) (λ v. Readable (goods_columns v)) bytes.now result }
{
    let (wood, stone, ore, cloth) = four(std::str::from_utf8(bytes).ok()?)?;
    Goods::new(wood, stone, ore, cloth)
}
