use std::alloc::{AllocError, Global};
use std::ops::Range;

// Each space linked to the next.
pub(crate) fn path(heap: Global, spaces: u16) -> Result<Vec<u16>, AllocError> {
    (1..spaces).flat_map(|v| [v - 1, v]).collect(heap)
}

// The ends of links, which `lay` adds for each of these spaces.
// The spaces are walked by a for: collect of one chain in another stayed open.
fn build<F: FnMut(&mut Vec<u16>, u16) -> Result<(), AllocError>>(
    heap: Global,
    spaces: Range<u16>,
    mut lay: F,
) -> Result<Vec<u16>, AllocError>
    requires { F.IsAlwaysCallable lay }
{
    let mut ends = Vec::new(heap);
    for v in spaces {
        lay(&mut ends, v)?;
    }
    Ok(ends)
}

// Each space linked to the ones before it, at most `back` of them.
pub(crate) fn steps(heap: Global, spaces: u16, back: u16) -> Result<Vec<u16>, AllocError> {
    build(heap, 1..spaces, |ends: &mut Vec<u16>, v: u16| {
        ends.extend((v.saturating_sub(back)..v).rev().flat_map(|u| [v, u]))
    })
}

// 4,096 spaces in a circle, each linked to the next eight: 32,768 links.
pub(crate) fn circle(heap: Global) -> Result<Vec<u16>, AllocError> {
    build(heap, 0..4096, |ends: &mut Vec<u16>, v: u16| {
        ends.extend((1..9).flat_map(|d| [v, v.wrapping_add(d) % 4096]))
    })
}

// 4,096 spaces, of which eight are linked to each of the others: 32,704 links.
pub(crate) fn hubs(heap: Global) -> Result<Vec<u16>, AllocError> {
    build(heap, 8..4096, |ends: &mut Vec<u16>, v: u16| {
        ends.extend((0..8).flat_map(|hub| [hub, v]))
    })
}
