ghost use Rattle.league.specs.Scores.{league_points_of, place};
ghost use Rattle.league.specs.Sheets.{weights_of};
ghost use Rattle.std.specs.Prelude.{◌≡◌, ◌≤◌, int_lt};

use crate::owner::OwnerTotal;
use values::kind::Kind;

// The weight in halves rounded to whole points, a half away from 0.
pub fn league_points(weight: i64) -> i64
    ensures { result ≡ league_points_of weight }
{
    weight / 2 + weight % 2
}

// Whether the owner has a greater weight than this.
fn outweighs<K: Kind>(other: &OwnerTotal<K>, weight: i64) -> bool
    ensures { result ≡ int_lt weight (K.weigh (K.columns other.now.total)) }
{
    other.total.weight() > weight
}

// One more than how many of the owners have a greater weight.
pub fn place_among<K: Kind>(owners: &[OwnerTotal<K>; 7], weight: i64) -> u32
    ensures is { result ≡ place (weights_of K.columns K.weigh owners.now) weight }
    ensures few { result ≤ 8 }
{
    1 + owners
        .iter()
        .map(|other| u32::from(outweighs(other, weight)))
        .sum::<u32>()
}
