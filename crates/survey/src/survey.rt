ghost use Rattle.std.specs.Prelude.{◌≡◌, ◌*◌, ◌≤◌, length, nat_lt, slice_index, ◌↔◌, IsTrue};
ghost use Rattle.maps.specs.Checks.{Decides};
ghost use Rattle.maps.specs.LinkChecks.{GoodLinks};
ghost use Rattle.maps.specs.Marks.{Cleared};
ghost use Rattle.maps.specs.Sets.{bytes};
ghost use Rattle.survey.specs.Outcome.{BadDepth, ReadMap, Short, Surveyed, survey_row};
ghost use Rattle.survey.specs.Parts.{Parts};
ghost use Rattle.survey.specs.Refusals.{survey_number, survey_place};
ghost use Rattle.survey.specs.SurveyMemory.{SameMemory, contents};

use crate::fill::fill_table;
use crate::memory::SurveyMemory;
use crate::peel::peel;
use crate::refusals::SurveyRefusal;
use maps::chains::Chained;
use maps::checks::{check_links, is_too_large};
use maps::memory::ListMemory;
use maps::reading::EMPTY;
use maps::source::Map;

// The survey's own working memory, large enough for every map: fixed arrays, since no call uses the heap.
#[derive(Drop)]
struct Work {
    links: [(u16, u16); 32768],
    next: [(u16, u16); 32768],
    head: [u16; 4096],
    degree: [u16; 4096],
    places: [u16; 4096],
}

// Writes 1 for each space whose degree is above `k`, and 0 for each other. By place: after a zip with iter_mut nothing is known of what it wrote.
fn write_set(k: u16, degree: &[u16], set: &mut [u8])
    requires room { length degree.now ≡ length set.old }
    ensures { set.new ≡ bytes (length set.old) (λ v. nat_lt k (slice_index degree.now v)) }
{
    for (v, member) in set.iter_mut().enumerate() {
        *member = u8::from(degree[v] > k);
    }
}

// Surveys faultless links that are chained, in memory of exactly the size it needs: slices cut from the two records, so they come one by one. That they are faultless stays a clause: links are chained before that is known.
fn survey_parts(
    chained: &Chained<'_>,
    k: u16,
    places: &mut [u16],
    degree: &mut [u16],
    order: &mut [u16],
    table: &mut [u16],
    set: &mut [u8],
) -> Result<(), SurveyRefusal>
    requires good { GoodLinks (length order.old) chained.now.links.now }
    requires limits { (length order.old ≤ 4096) × (k ≤ 8) × (length chained.now.links.now ≤ 32768) }
    requires room { (length places.old ≡ length order.old) × (length degree.old ≡ length order.old) × (length table.old ≡ length order.old * k) × (length set.old ≡ length order.old) }
    ensures { Parts (length order.old) k chained.now.links.now order.new table.new set.old set.new result }
{
    let Ok(()) = peel(chained, k, degree, order) else {
        write_set(k, degree, set);
        order.fill(EMPTY);
        table.fill(EMPTY);
        return Err(SurveyRefusal::Dense);
    };
    fill_table(chained.links, k, order, places, degree, table);
    Ok(())
}

// Whether a depth is not 1 to 8.
pub(crate) fn is_bad_depth(depth: u16) -> bool
    ensures { IsTrue result ↔ BadDepth depth }
{
    depth < 1 || depth > 8
}

// The checks before the list of links is read.
fn check_call(
    spaces: u32,
    links: u32,
    depth: u16,
    memory: &SurveyMemory<'_>,
) -> Result<(), SurveyRefusal>
    ensures { Decides survey_number survey_place (survey_row spaces links depth (contents memory.now)) result }
{
    if is_bad_depth(depth) {
        return Err(SurveyRefusal::DepthOutOfRange);
    }
    if is_too_large(spaces, links) {
        return Err(SurveyRefusal::SizeOutOfRange);
    }
    let n = spaces as usize;
    let SurveyMemory {
        order,
        table,
        set,
        marks,
    } = memory;
    if order.len() < n || table.len() < n * depth as usize || set.len() < n || marks.len() < n {
        return Err(SurveyRefusal::ShortMemory);
    }
    Ok(())
}

// Surveys a map whose size is in range, with working memory that is large enough for every such map.
fn survey_list<M: Map>(
    map: &M,
    depth: u16,
    work: &mut Work,
    memory: &mut SurveyMemory<'_>,
) -> Result<(), SurveyRefusal>
    requires limits { (depth ≤ 8) × (1 ≤ (M.meaning map.now).spaces) × ((M.meaning map.now).spaces ≤ 4096) × (length (M.meaning map.now).links ≤ 32768) }
    requires room { Short (M.meaning map.now).spaces depth (contents memory.old) → ⊥ }
    ensures read_map { ReadMap (M.meaning map.now).spaces depth (M.meaning map.now).links (contents memory.old) result (contents memory.new) }
    ensures cleared { Cleared (M.meaning map.now).spaces memory.old.marks.now memory.new.marks.now }
    ensures same { SameMemory memory.old memory.new }
{
    check_links(
        map,
        &mut ListMemory {
            links: &mut work.links,
            head: &mut work.head,
            next: &mut work.next,
            marks: memory.marks,
        },
    )?;
    let n = map.spaces() as usize;
    let m = map.links() as usize;
    let cells = n * depth as usize;
    let chained = Chained {
        links: &work.links[..m],
        head: &work.head[..n],
        next: &work.next[..m],
    };
    // Slices first: a part of a field that is an array can't be lent on its own.
    let places = &mut work.places[..];
    let degree = &mut work.degree[..];
    survey_parts(
        &chained,
        depth,
        &mut places[..n],
        &mut degree[..n],
        &mut memory.order[..n],
        &mut memory.table[..cells],
        &mut memory.set[..n],
    )
}

// Surveys a map: the order, the table and with it the colours of its links; or, where the map is dense, its largest thick set.
pub fn survey<M: Map>(
    map: &M,
    depth: u16,
    memory: &mut SurveyMemory<'_>,
) -> Result<(), SurveyRefusal>
    ensures surveyed { Surveyed (M.meaning map.now) depth (contents memory.old) result (contents memory.new) }
    ensures same { SameMemory memory.old memory.new }
{
    check_call(map.spaces(), map.links(), depth, memory)?;
    let mut work = Work {
        links: [(0, 0); 32768],
        next: [(0, 0); 32768],
        head: [0; 4096],
        degree: [0; 4096],
        places: [0; 4096],
    };
    survey_list(map, depth, &mut work, memory)
}
