ghost use Rattle.std.specs.Prelude.{◌≡◌, ◌+◌, ◌*◌, ◌<◌, ◌≤◌, length, slice_index, slice_set};
ghost use Rattle.maps.specs.LinkChecks.{GoodLinks};
ghost use Rattle.survey.specs.Orders.{Ordering};
ghost use Rattle.survey.specs.Tables.{Table};
ghost use Rattle.survey.specs.Walk.{Placed};

use maps::reading::EMPTY;

// Notes the place of each space in the order.
fn note_places(links: &[(u16, u16)], k: u16, order: &[u16], places: &mut [u16])
    requires ordered { Ordering k (length places.old) links.now order.now }
    requires room { length places.old ≤ 4096 }
    ensures { Placed (length places.old) order.now places.new }
{
    for (i, v) in order.iter().enumerate() {
        places[*v as usize] = i as u16;
    }
}

// Writes `w` into the first empty cell of row `v`.
fn enter(k: usize, v: usize, w: u16, count: &mut [u16], table: &mut [u16])
    requires row { (v < length count.old) × (v * k + slice_index count.old v < length table.old) × (slice_index count.old v < k) × (k ≤ 8) × (v < 4096) }
    ensures table { table.new ≡ slice_set table.old (v * k + slice_index count.old v) w }
    ensures count { count.new ≡ slice_set count.old v (slice_index count.old v + 1) }
{
    table[v * k + count[v] as usize] = w;
    count[v] += 1;
}

// Fills the table of an order: each link goes into the row of its later end.
pub(crate) fn fill_table(
    links: &[(u16, u16)],
    k: u16,
    order: &[u16],
    places: &mut [u16],
    count: &mut [u16],
    table: &mut [u16],
)
    requires good { GoodLinks (length order.now) links.now }
    requires ordered { Ordering k (length order.now) links.now order.now }
    requires room { (k ≤ 8) × (length order.now ≤ 4096) × (length places.old ≡ length order.now) × (length count.old ≡ length order.now) × (length table.old ≡ length order.now * k) }
    ensures { Table k (length order.now) links.now order.now table.new }
{
    note_places(links, k, order, places);
    count.fill(0);
    table.fill(EMPTY);
    for (a, b) in links {
        if places[*a as usize] < places[*b as usize] {
            enter(k as usize, *b as usize, *a, count, table);
        } else {
            enter(k as usize, *a as usize, *b, count, table);
        }
    }
}
