ghost use Rattle.std.specs.Prelude.{◌≡◌, ◌<◌, ◌≤◌, length, MatchOption};
ghost use Rattle.maps.specs.Chains.{Chains};
ghost use Rattle.maps.specs.LinkChecks.{EndsGood};
ghost use Rattle.maps.specs.Repeats.{FirstRepeat, FirstRepeatOf, NoRepeatOf, NoneMet, OnlyMet};
ghost use Rattle.maps.specs.Searching.{MarksOf, StillLent};

use crate::chains::{Chained, chain};
use crate::marks::Marks;

// Walks the links of `v` in list order and marks their other ends, up to the first whose other end is marked already: its place.
fn mark_neighbours(chained: &Chained<'_>, v: u16, met: &mut Marks<'_>) -> Option<usize>
    requires marks { MarksOf (length chained.now.head.now) met.old }
    requires none { NoneMet (length chained.now.head.now) met.old.bytes.now }
    ensures first { MatchOption result (NoRepeatOf chained.now.links.now v) (FirstRepeatOf chained.now.links.now v) }
    ensures met { OnlyMet (length chained.now.head.now) chained.now.links.now v met.new.bytes.now }
    ensures lent { StillLent met.old.n met.old met.new }
{
    for (place, w) in chained.round(v) {
        if met.is_marked(w as usize) {
            return Some(place);
        }
        met.mark(w as usize);
    }
    None
}

// Walks the links of `v` and takes the marks of their other ends back.
fn unmark_neighbours(chained: &Chained<'_>, v: u16, met: &mut Marks<'_>)
    requires marks { MarksOf (length chained.now.head.now) met.old }
    requires met { OnlyMet (length chained.now.head.now) chained.now.links.now v met.old.bytes.now }
    ensures none { NoneMet (length chained.now.head.now) met.new.bytes.now }
    ensures lent { StillLent met.old.n met.old met.new }
{
    for (_, w) in chained.round(v) {
        met.unmark(w as usize);
    }
}

// How many links stand before the first that repeats an earlier one. All, where none does: of all spaces the least count is the reply, so it is no Option.
fn count_fresh(chained: &Chained<'_>, met: &mut Marks<'_>) -> usize
    requires few { length chained.now.head.now ≤ 4096 }
    requires marks { MarksOf (length chained.now.head.now) met.old }
    requires none { NoneMet (length chained.now.head.now) met.old.bytes.now }
    ensures fresh { FirstRepeat chained.now.links.now result }
    ensures lent { StillLent met.old.n met.old met.new }
{
    let mut fresh = chained.links.len();
    for v in 0..chained.head.len() as u16 {
        if let Some(place) = mark_neighbours(chained, v, met) {
            fresh = fresh.min(place);
        }
        unmark_neighbours(chained, v, met);
    }
    fresh
}

// Chains the links of each space, and finds the place of the first that repeats an earlier one.
pub(crate) fn chain_and_search(
    links: &[(u16, u16)],
    head: &mut [u16],
    next: &mut [(u16, u16)],
    met: &mut Marks<'_>,
) -> Option<usize>
    requires ends { EndsGood (length head.old) links.now }
    requires room { (length next.old ≡ length links.now) × (length head.old ≤ 4096) × (length links.now ≤ 32768) }
    requires marks { MarksOf (length head.old) met.old }
    requires none { NoneMet (length head.old) met.old.bytes.now }
    ensures first { MatchOption result (FirstRepeat links.now (length links.now)) (λ p. (p < length links.now) × FirstRepeat links.now p) }
    ensures chains { Chains (length head.old) links.now head.new next.new 0 }
    ensures lent { StillLent met.old.n met.old met.new }
{
    chain(links, head, next);
    let fresh = count_fresh(&Chained { links, head, next }, met);
    (fresh < links.len()).then_some(fresh)
}
