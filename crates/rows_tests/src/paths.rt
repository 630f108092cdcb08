// Paths of up to 4,096 spaces with one cell to each, and one link more than a path.
use rows::link_rows::LinkRows;
use rows::memory::SpaceRecord;
use std::fmt;
use std::iter::Zip;
use std::ops::Range;

// What was counted.
#[derive(Drop)]
pub(crate) struct Counts {
    laid: usize,
    closed: bool,
    read: usize,
    one_more: bool,
    members: usize,
    marked: usize,
    again: usize,
    read_again: usize,
}

impl fmt::Display for Counts {
    fn fmt<W: fmt::Write>(&self, f: &mut fmt::Formatter<W>) -> fmt::Result {
        write!(
            f,
            "{} laid, closed {}, {} read, ",
            self.laid, self.closed, self.read
        )?;
        write!(
            f,
            "one more {}, {} in the set, {} marks left, ",
            self.one_more, self.members, self.marked
        )?;
        write!(
            f,
            "{} lifted and laid again, {} read",
            self.again, self.read_again
        )
    }
}

// The links of a path of `n` spaces.
fn path(n: u16) -> Zip<Range<u16>, Range<u16>> {
    (0..n).zip(1..n)
}

// Lays the links of a path of `n` spaces so that the space `free` is left with a free cell: how many.
fn lay_path(
    rows: &mut LinkRows<'_>,
    n: u16,
    free: u16,
    members: &mut [u8],
    marks: &mut [u8],
) -> usize {
    path(n)
        .map(|(a, b)| if b <= free {
            rows.lay(a, b, members, marks)
        } else {
            rows.lay(b, a, members, marks)
        })
        .filter(|answer| answer.is_ok())
        .count()
}

// How many links of the path are read as kept, with the ends in either order.
fn read_path(rows: &LinkRows<'_>, n: u16) -> usize {
    path(n)
        .filter_map(|(a, b)| rows.read(b, a))
        .filter(|reading| reading.linked)
        .count()
}

// Lifts each link of the path and lays it again: how many could be, and were not read in between.
fn lay_again(rows: &mut LinkRows<'_>, n: u16, members: &mut [u8], marks: &mut [u8]) -> usize {
    path(n)
        .map(|(a, b)| {
            let lifted = rows.lift(b, a);
            let twice = rows.lift(a, b);
            let laid = rows.lay(a, b, members, marks).is_ok();
            lifted && !twice && laid
        })
        .filter(|again| *again)
        .count()
}

// How many of the bytes are not 0.
fn count(bytes: &[u8]) -> usize {
    bytes.iter().filter(|b| **b != 0).count()
}

// Lays a path, then the link of `a` and `b`, then the same once more; then lifts and lays each link of the path again.
fn run(n: u16, free: u16, a: u16, b: u16) -> Counts {
    let mut records = [SpaceRecord::default(); 4096];
    let mut table = [0u16; 4096];
    let mut members = [0u8; 4096];
    let mut marks = [1u8; 4096];
    let mut rows = LinkRows::new(&mut records, &mut table);
    let _ = rows.clear(n as usize, 1);
    let laid = lay_path(&mut rows, n, free, &mut members, &mut marks);
    let closed = rows.lay(a, b, &mut members, &mut marks).is_ok();
    let read = read_path(&rows, n);
    let one_more = rows.lay(a, b, &mut members, &mut marks).is_ok();
    let found = count(&members);
    let again = lay_again(&mut rows, n, &mut members, &mut marks);
    let read_again = read_path(&rows, n);
    Counts {
        laid,
        closed,
        read,
        one_more,
        members: found,
        marked: count(&marks[0..(n as usize).min(4096)]),
        again,
        read_again,
    }
}

// A path whose middle space has the free cell, closed into a ring: half of the links are turned.
pub(crate) fn ring(n: u16) -> Counts {
    run(n, n / 2, 0, n.saturating_sub(1))
}

// A path whose last space has the free cell, and the link of the first space and the third: nearly all links are turned.
pub(crate) fn chord(n: u16) -> Counts {
    run(n, n, 0, 2)
}
