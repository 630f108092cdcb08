ghost use Rattle.std.specs.Prelude.{◌≡◌, ◌+◌, ◌-◌, ◌<◌, ◌≤◌, true, length, if◌then◌else◌, nat_eq, slice_index_or};
ghost use Rattle.std.specs.Iterator.{at_most};
ghost use Rattle.std.proofs.Props.{props};
ghost use Rattle.maps.specs.Chains.{Chains, Next, StepsRound, other, touches};
ghost use Rattle.maps.specs.LinkChecks.{EndsGood};

// The end of a link that is not `v`.
pub fn far_end(link: (u16, u16), v: u16) -> u16
    ensures { result ≡ other v link }
{
    if link.0 == v { link.1 } else { link.0 }
}

// Of the places after a link on the chains of its two ends, the one on the chain of `v`.
pub fn place_after(link: (u16, u16), v: u16, after: (u16, u16)) -> u16
    ensures { result ≡ (if nat_eq link.0 v then after.0 else after.1) }
{
    if link.0 == v { after.0 } else { after.1 }
}

// Links chained by their spaces, so that the links of one space can be walked.
#[derive(Clone, Copy)]
pub struct Chained<'a> {
    pub links: &'a [(u16, u16)],
    pub head: &'a [u16],
    pub next: &'a [(u16, u16)],
    ghost ends: { EndsGood (length head.now) links.now } by { Prim.hlevel props },
    ghost chains: { Chains (length head.now) links.now head.now next.now 0 },
    ghost long: { length next.now ≡ length links.now },
}

// A walk along the links of `v`, in list order: the place of each, and its other end.
#[derive(Clone, Copy)]
pub struct Round<'a> {
    pub chained: Chained<'a>,
    pub v: u16,
    pub at: usize,
    ghost on: { at < length chained.links.now → touches v (slice_index_or chained.links.now at (0, 0)) ≡ true },
}

impl<'a> Chained<'a> {
    // The walk along the links of `v`, before its first step. A number that is no space has no links.
    pub fn round(&self, v: u16) -> Round<'a>
        ensures chained { result.chained ≡ self.now }
        ensures v { result.v ≡ v }
        ensures first { Next self.now.links.now v 0 result.at }
    {
        let at = self
            .head
            .get(v as usize)
            .map_or(self.links.len(), |p| *p as usize);
        Round {
            chained: *self,
            v,
            at,
        }
    }
}

impl Iterator for Round<'_> {
    type Item = (usize, u16);

    ghost next_gives = { λ s r t. (t.chained ≡ s.chained) × (t.v ≡ s.v) × StepsRound s.chained.links.now s.v s.at r t.at };

    ghost remaining = { λ s. at_most (length s.chained.links.now - s.at) };

    fn next(&mut self) -> Option<(usize, u16)> {
        let at = self.at;
        let link = *self.chained.links.get(at)?;
        self.at = place_after(link, self.v, self.chained.next[at]) as usize;
        Some((at, far_end(link, self.v)))
    }
}

// Chains the links of each space in list order. By place: from the back, and what is written stands at the same place in `next`. The three parts are one `Chained` from then on.
pub(crate) fn chain(links: &[(u16, u16)], head: &mut [u16], next: &mut [(u16, u16)])
    requires ends { EndsGood (length head.old) links.now }
    requires room { (length next.old ≡ length links.now) × (length links.now ≤ 32768) }
    ensures { Chains (length head.old) links.now head.new next.new 0 }
{
    head.fill(links.len() as u16);
    for i in (0..links.len()).rev() {
        let (a, b) = links[i];
        next[i] = (head[a as usize], head[b as usize]);
        head[a as usize] = i as u16;
        head[b as usize] = i as u16;
    }
}
