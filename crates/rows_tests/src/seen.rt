// What is seen after calls on a triangle: the answer, and the first bytes of set and marks.
use rows::link_rows::LinkRows;
use rows::link_rows::calls::Refusal;
use rows::memory::SpaceRecord;
use std::fmt;

// How a link was laid or refused.
#[derive(Drop)]
struct Answer(Result<(), Refusal>);

impl fmt::Display for Answer {
    fn fmt<W: fmt::Write>(&self, f: &mut fmt::Formatter<W>) -> fmt::Result {
        match self.0 {
            Ok(()) => write!(f, "laid"),
            Err(Refusal::ShortMemory) => write!(f, "short memory"),
            Err(Refusal::EndOutOfRange) => write!(f, "end out of range"),
            Err(Refusal::EqualEnds) => write!(f, "equal ends"),
            Err(Refusal::Crowded) => write!(f, "crowded"),
        }
    }
}

// Bytes, each after a blank.
#[derive(Drop)]
struct Bytes([u8; 5]);

impl fmt::Display for Bytes {
    fn fmt<W: fmt::Write>(&self, f: &mut fmt::Formatter<W>) -> fmt::Result {
        for b in &self.0 {
            write!(f, " {b}")?;
        }
        Ok(())
    }
}

#[derive(Drop)]
pub(crate) struct Seen {
    answer: Answer,
    members: Bytes,
    marks: Bytes,
}

impl fmt::Display for Seen {
    fn fmt<W: fmt::Write>(&self, f: &mut fmt::Formatter<W>) -> fmt::Result {
        write!(
            f,
            "{}, set{}, marks{}",
            self.answer, self.members, self.marks
        )
    }
}

// Lays these links in turn, three spaces of four with one cell to each, lending so many bytes for the set: the answer to the last.
pub(crate) fn lay_links(links: &[(u16, u16)], bytes: usize) -> Seen {
    let mut records = [SpaceRecord::default(); 4];
    let mut table = [9u16; 6];
    let mut members = [5u8; 5];
    let mut marks = [3u8; 5];
    let mut rows = LinkRows::new(&mut records, &mut table);
    let _ = rows.clear(4, 1);
    let end = bytes.min(5);
    let mut answer = Ok(());
    for (a, b) in links {
        answer = rows.lay(*a, *b, &mut members[0..end], &mut marks);
    }
    Seen {
        answer: Answer(answer),
        members: Bytes(members),
        marks: Bytes(marks),
    }
}
