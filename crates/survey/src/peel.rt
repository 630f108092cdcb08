ghost use Rattle.std.specs.Prelude.{◌≡◌, ◌+◌, ◌-◌, ◌<◌, ◌≤◌, length, MatchResult, nat_le, nat_lt, slice_index, slice_set};
ghost use Rattle.maps.specs.Density.{LargestThick};
ghost use Rattle.maps.specs.LinkChecks.{GoodLinks};
ghost use Rattle.survey.specs.Orders.{Ordering};
ghost use Rattle.survey.specs.Walk.{Degrees, Queue, Work};

use maps::chains::Chained;

// Some spaces are left, and each has more than `k` neighbours among them.
#[derive(Clone, Copy)]
pub(crate) struct TooDense;

// Whether a space of this degree can be placed next.
fn can_settle(degree: u16, k: u16) -> bool
    ensures { result ≡ nat_le degree k }
{
    degree <= k
}

// Takes one from the degree of `w`. What is left of it.
fn lower_degree(degree: &mut [u16], w: u16) -> u16
    requires { (w < length degree.old) × (1 ≤ slice_index degree.old w) }
    ensures value { result ≡ slice_index degree.old w - 1 }
    ensures after { degree.new ≡ slice_set degree.old w (slice_index degree.old w - 1) }
{
    let left = degree[w as usize] - 1;
    degree[w as usize] = left;
    left
}

// Settles the space at `settled`: lowers the degree of each of its neighbours, and queues those that fall to `k` in front of `queued`. Where the queue then begins. `degree` and `order` are no part of one struct: the survey lends them on, as counts and as its reply.
fn lower(
    chained: &Chained<'_>,
    k: u16,
    degree: &mut [u16],
    order: &mut [u16],
    settled: usize,
    queued: usize,
) -> usize
    requires good { GoodLinks (length order.old) chained.now.links.now }
    requires work { Work k (length order.old) chained.now.links.now order.old degree.old (settled + 1) queued }
    requires low { queued ≤ settled }
    ensures { Work k (length order.old) chained.now.links.now order.new degree.new settled result }
{
    let mut queued = queued;
    for (_, w) in chained.round(order[settled]) {
        if lower_degree(degree, w) == k {
            queued -= 1;
            order[queued] = w;
        }
    }
    queued
}

// Counts the links of each space.
fn count_links(links: &[(u16, u16)], degree: &mut [u16])
    requires good { GoodLinks (length degree.old) links.now }
    requires room { length links.now ≤ 32768 }
    ensures { Degrees (length degree.old) links.now degree.new }
{
    degree.fill(0);
    for (a, b) in links {
        degree[*a as usize] += 1;
        degree[*b as usize] += 1;
    }
}

// Puts the spaces of degree at most `k` at the end of the order. Where they begin: the queue lies in the order, so that no call uses the heap.
fn seed(k: u16, degree: &[u16], order: &mut [u16]) -> usize
    requires room { (length degree.now ≡ length order.old) × (length order.old ≤ 4096) }
    ensures { Queue k (length order.old) order.new degree.now result }
{
    let mut queued = order.len();
    for (v, links) in degree.iter().enumerate() {
        if can_settle(*links, k) {
            queued -= 1;
            order[queued] = v as u16;
        }
    }
    queued
}

// Orders the spaces from the last place to the first: each time one that has at most `k` neighbours among those not yet settled. If there is none, the degrees of those that are left are above `k`.
pub(crate) fn peel(
    chained: &Chained<'_>,
    k: u16,
    degree: &mut [u16],
    order: &mut [u16],
) -> Result<(), TooDense>
    requires good { GoodLinks (length order.old) chained.now.links.now }
    requires room { (length order.old ≤ 4096) × (length chained.now.links.now ≤ 32768) × (length degree.old ≡ length order.old) }
    ensures { MatchResult result (λ _. Ordering k (length order.old) chained.now.links.now order.new) (λ _. LargestThick k (length order.old) chained.now.links.now (λ v. nat_lt k (slice_index degree.new v))) }
{
    count_links(chained.links, degree);
    let mut queued = seed(k, degree, order);
    for settled in (0..order.len()).rev() {
        if queued > settled {
            return Err(TooDense);
        }
        queued = lower(chained, k, degree, order, settled, queued);
    }
    Ok(())
}
