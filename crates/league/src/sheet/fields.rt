ghost use Rattle.std.specs.Prelude.{◌≡◌, ◌+◌, ◌≤◌, length, unsigned_abs};
ghost use Rattle.league.specs.Scores.{league_points_of};
ghost use Rattle.league.specs.Sheets.{foot_text, head_text, line_of, owners_text, weights_of};
ghost use Rattle.league.specs.Writing.{Wrote};
ghost use Rattle.std.specs.Fmt.{signed_decimal};
ghost use Rattle.values.specs.Shown.{shown};

use crate::owner::OwnerTotal;
use crate::score::{league_points, place_among};
use crate::writing::{put_field, put_last, put_last_number, put_number};
use values::kind::Kind;
use values::text::Text;

// The head, where there is room for it.
pub(crate) fn put_head(print: &mut [u8], letter: u8, standing: u16) -> usize
    requires { 10 ≤ length print.old }
    ensures wrote { Wrote print.old 0 (head_text letter standing) result print.new }
    ensures bound { result ≤ 10 }
{
    let at = put_field(print, 0, b"T");
    let at = put_field(print, at, &[letter]);
    put_last_number(print, at, u32::from(standing))
}

// The text of a weight's league points.
fn points_text(weight: i64) -> Text
    requires { unsigned_abs weight ≤ 4000000000 }
    ensures { shown result ≡ signed_decimal (league_points_of weight) }
{
    Text::from(league_points(weight) as i32)
}

// The line of an owner among all owners, where there is room for it.
fn put_owner<K: Kind>(
    print: &mut [u8],
    at: usize,
    owners: &[OwnerTotal<K>; 7],
    number: u32,
    owner: &OwnerTotal<K>,
) -> usize
    requires room { at + 70 ≤ length print.old }
    requires few { number ≤ 7 }
    ensures wrote { Wrote print.old at (line_of K.columns K.weigh K.text (weights_of K.columns K.weigh owners.now) number owner.now) result print.new }
    ensures bound { result ≤ at + 70 }
{
    let weight = owner.total.weight();
    let at = put_number(print, at, number);
    let at = put_number(print, at, u32::from(owner.links));
    let at = put_field(print, at, owner.total.write().as_slice());
    let at = put_field(print, at, points_text(weight).as_slice());
    put_last_number(print, at, place_among(owners, weight))
}

// A line for each owner, where there is room for them.
pub(crate) fn put_owners<K: Kind>(print: &mut [u8], at: usize, owners: &[OwnerTotal<K>; 7]) -> usize
    requires { at + 490 ≤ length print.old }
    ensures wrote { Wrote print.old at (owners_text K.columns K.weigh K.text owners.now) result print.new }
    ensures bound { result ≤ at + 490 }
{
    let mut end = at;
    for (i, owner) in owners.iter().enumerate() {
        end = put_owner(print, end, owners, i as u32 + 1, owner);
    }
    end
}

// The foot, where there is room for it.
pub(crate) fn put_foot(print: &mut [u8], at: usize) -> usize
    requires { at + 4 ≤ length print.old }
    ensures { Wrote print.old at foot_text result print.new }
{
    let at = put_field(print, at, b"Z");
    put_last(print, at, b"7")
}
