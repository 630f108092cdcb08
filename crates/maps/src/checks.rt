ghost use Rattle.std.specs.Prelude.{◌≡◌, ℕ, ◌<◌, ◌≤◌, ◌↔◌, length, IsTrue, slice_index_or};
ghost use Rattle.maps.specs.Links.{pair_at};
ghost use Rattle.maps.specs.Checks.{Decides};
ghost use Rattle.maps.specs.ListMemory.{SameMemory, contents};
ghost use Rattle.maps.specs.Listing.{BadEnds, Listed, ReadInto, ReadList, RefusesAt, SoundTo, TooLarge, TooShort, list_row};
ghost use Rattle.maps.specs.Refusals.{list_number, list_place};
ghost use Rattle.maps.specs.Repeats.{NoneMet};
ghost use Rattle.maps.specs.Searching.{MarksOf, StillLent};

use crate::marks::Marks;
use crate::memory::ListMemory;
use crate::refusals::ListRefusal;
use crate::repeats::chain_and_search;
use crate::source::Map;

// Whether a map has no space, or more spaces or links than are allowed.
pub fn is_too_large(spaces: u32, links: u32) -> bool
    ensures { IsTrue result ↔ TooLarge spaces links }
{
    spaces < 1 || spaces > 4096 || links > 32768
}

// A map's size and the memory lent for its links.
fn check_room(spaces: u32, links: u32, memory: &ListMemory<'_>) -> Result<(), ListRefusal>
    ensures { Decides list_number list_place (list_row spaces links (contents memory.now)) result }
{
    if is_too_large(spaces, links) {
        return Err(ListRefusal::SizeOutOfRange);
    }
    let n = spaces as usize;
    let m = links as usize;
    let ListMemory {
        links,
        head,
        next,
        marks,
    } = memory;
    if marks.len() < n || links.len() < m || head.len() < n || next.len() < m {
        return Err(ListRefusal::ShortMemory);
    }
    Ok(())
}

// Copies a map's links, as long as their ends are two different spaces below n. How many were copied: a length, by which the caller goes on.
fn copy_sound<M: Map>(map: &M, n: u32, links: &mut [(u16, u16)]) -> usize
    requires { (length links.old ≡ length (M.meaning map.now).links) × (length links.old ≤ 32768) }
    ensures { SoundTo n (M.meaning map.now).links links.new result }
{
    for (i, copy) in links.iter_mut().enumerate() {
        let Some((a, b)) = map.pair(i as u32) else {
            return i;
        };
        if a as u32 >= n || b as u32 >= n || a == b {
            return i;
        }
        *copy = (a, b);
    }
    links.len()
}

// Why the link at a place is refused whose ends are not two different spaces below n. The pair is asked for again, since what was copied is told as a length.
fn end_fault<M: Map>(map: &M, n: u32, place: usize) -> ListRefusal
    requires { (place < length (M.meaning map.now).links) × (place ≤ 32768) × BadEnds n (slice_index_or (M.meaning map.now).links place (0, 0)) }
    ensures { RefusesAt n (M.meaning map.now).links place result }
{
    let place = place as u32;
    match map.pair(place) {
        Some((a, b)) if a as u32 >= n || b as u32 >= n => ListRefusal::EndOutOfRange { place },
        _ => ListRefusal::EqualEnds { place },
    }
}

// Checks the links of a map in memory of the sizes that it needs.
fn check_parts<M: Map>(
    map: &M,
    links: &mut [(u16, u16)],
    head: &mut [u16],
    next: &mut [(u16, u16)],
    met: &mut Marks<'_>,
) -> Result<(), ListRefusal>
    requires size { (length head.old ≡ (M.meaning map.now).spaces) × (length links.old ≡ length (M.meaning map.now).links) × (length next.old ≡ length links.old) }
    requires room { (length head.old ≤ 4096) × (length links.old ≤ 32768) }
    requires marks { MarksOf (length head.old) met.old }
    requires none { NoneMet (length head.old) met.old.bytes.now }
    ensures read { ReadList (M.meaning map.now).spaces (M.meaning map.now).links links.new head.new next.new result }
    ensures lent { StillLent met.old.n met.old met.new }
{
    let n = map.spaces();
    let sound = copy_sound(map, n, links);
    if let Some(place) = chain_and_search(&links[..sound], head, &mut next[..sound], met) {
        return Err(ListRefusal::RepeatedLink {
            place: place as u32,
        });
    }
    if sound < links.len() {
        return Err(end_fault(map, n, sound));
    }
    Ok(())
}

// Checks the links of a map that is not too large, in memory that suffices for it.
fn check_lists<M: Map>(map: &M, memory: &mut ListMemory<'_>) -> Result<(), ListRefusal>
    requires size { TooLarge (M.meaning map.now).spaces (length (M.meaning map.now).links) → ⊥ }
    requires room { TooShort (M.meaning map.now).spaces (length (M.meaning map.now).links) (contents memory.old) → ⊥ }
    ensures read { ReadInto (M.meaning map.now) (contents memory.old) result (contents memory.new) }
    ensures same { SameMemory memory.old memory.new }
{
    let n = map.spaces() as usize;
    let m = map.links() as usize;
    let mut met = Marks::new(memory.marks, n);
    check_parts(
        map,
        &mut memory.links[..m],
        &mut memory.head[..n],
        &mut memory.next[..m],
        &mut met,
    )
}

// Checks a map's list of links: its size, the memory lent, then each link in list order. An accepted list is left in `links`, chained by `head` and `next`; the marks end as 0.
pub fn check_links<M: Map>(map: &M, memory: &mut ListMemory<'_>) -> Result<(), ListRefusal>
    ensures listed { Listed (M.meaning map.now) (contents memory.old) result (contents memory.new) }
    ensures same { SameMemory memory.old memory.new }
{
    check_room(map.spaces(), map.links(), memory)?;
    check_lists(map, memory)
}
