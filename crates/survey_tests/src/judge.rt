use maps::pairs::Pairs;
use maps::reading::EMPTY;
use maps::source::Map;
use std::alloc::{AllocError, Global};
use survey::look_up::look_up;
use survey::memory::SurveyMemory;
use survey::refusals::SurveyRefusal;
use survey::survey::survey;

// What the memory holds before a survey.
pub const WORD: u16 = 43_690;

pub const BYTE: u8 = 170;

// More than the survey needs, by this much.
pub const SPARE: usize = 3;

// A part of the memory.
#[derive(Clone, Copy, PartialEq, Eq)]
pub(crate) enum Part {
    Order,
    Table,
    Set,
    Marks,
}

// The memory lent to a survey.
#[derive(Drop)]
pub(crate) struct Memory {
    pub order: Vec<u16>,
    pub table: Vec<u16>,
    pub set: Vec<u8>,
    pub marks: Vec<u8>,
}

// How long a part is that the survey needs so long: some to spare, unless a part lacks one.
fn length(part: Part, needed: usize, lack: Option<Part>) -> usize {
    match lack {
        None => needed.saturating_add(SPARE),
        Some(short) if short == part => needed.saturating_sub(1),
        Some(_) => needed,
    }
}

impl Memory {
    // Memory for so many spaces and cells, of which one part may lack one.
    pub(crate) fn new(
        heap: Global,
        spaces: usize,
        cells: usize,
        lack: Option<Part>,
    ) -> Result<Memory, AllocError> {
        Ok(Memory {
            order: vec![in heap; WORD; length(Part::Order, spaces, lack)]?,
            table: vec![in heap; WORD; length(Part::Table, cells, lack)]?,
            set: vec![in heap; BYTE; length(Part::Set, spaces, lack)]?,
            marks: vec![in heap; BYTE; length(Part::Marks, spaces, lack)]?,
        })
    }

    // Surveys a map in this memory.
    pub(crate) fn survey<M: Map>(&mut self, map: &M, depth: u16) -> Result<(), SurveyRefusal> {
        survey(
            map,
            depth,
            &mut SurveyMemory {
                order: &mut self.order,
                table: &mut self.table,
                set: &mut self.set,
                marks: &mut self.marks,
            },
        )
    }
}

// The place of each space in the order, where it has one.
fn places(heap: Global, order: &[u16]) -> Result<Vec<Option<usize>>, AllocError> {
    let mut places = vec![in heap; None; order.len()]?;
    for (i, space) in order.iter().enumerate() {
        if let Some(place) = places.get_mut(*space as usize) {
            *place = Some(i);
        }
    }
    Ok(places)
}

// The order is as long as the map, every space has a place, and no more than `k` links lead to spaces before it.
fn is_ordered<M: Map>(heap: Global, map: &M, order: &[u16], k: u16) -> Result<bool, AllocError> {
    let places = places(heap, order)?;
    let mut before = vec![in heap; 0u32; order.len()]?;
    for (a, b) in Pairs::of(map) {
        let in_order = places.get(a as usize) < places.get(b as usize);
        let later = if in_order { b } else { a };
        if let Some(count) = before.get_mut(later as usize) {
            *count = count.saturating_add(1);
        }
    }
    Ok(
        order.len() == map.spaces() as usize
            && places.iter().all(|place| place.is_some())
            && before.iter().all(|count| *count <= k as u32),
    )
}

// The table says yes for each link, and has one filled cell for each.
fn is_tabled<M: Map>(map: &M, table: &[u16], k: u16) -> bool {
    let filled = table.iter().filter(|cell| **cell != EMPTY).count();
    filled == map.links() as usize
        && Pairs::of(map).all(|(a, b)| {
            look_up(map.spaces(), k, table, a, b).is_ok_and(|reading| reading.linked)
        })
}

// How many spaces and cells of its memory a survey uses.
pub(crate) fn used<M: Map>(map: &M, depth: u16) -> (usize, usize) {
    let n = map.spaces().min(5000) as usize;
    (n, n * depth.min(9) as usize)
}

// Each of these is `x`.
fn all_are<T: Copy + PartialEq>(cells: &[T], x: T) -> bool {
    cells.iter().all(|cell| *cell == x)
}

// What a survey uses of a part of the memory, and what is past it.
fn parted<T>(part: &[T], used: usize) -> (&[T], &[T]) {
    part.split_at(used.min(part.len()))
}

// The memory holds what it should after this reply.
pub(crate) fn is_right<M: Map>(
    heap: Global,
    map: &M,
    k: u16,
    memory: &Memory,
    reply: Result<(), SurveyRefusal>,
) -> Result<bool, AllocError> {
    let (n, cells) = used(map, k);
    let (order, past_order) = parted(&memory.order, n);
    let (table, past_table) = parted(&memory.table, cells);
    let (set, past_set) = parted(&memory.set, n);
    let (marks, past_marks) = parted(&memory.marks, n);
    let past = all_are(past_order, WORD)
        && all_are(past_table, WORD)
        && all_are(past_set, BYTE)
        && all_are(past_marks, BYTE);
    let cleared = all_are(marks, 0);
    let unwritten = all_are(order, WORD) && all_are(table, WORD);
    let unset = all_are(set, BYTE);
    Ok(
        past && match reply {
            Ok(()) => {
                cleared && unset && is_ordered(heap, map, order, k)? && is_tabled(map, table, k)
            }
            Err(SurveyRefusal::Dense) => {
                cleared
                    && set.iter().all(|member| *member <= 1)
                    && all_are(order, EMPTY)
                    && all_are(table, EMPTY)
            }
            Err(
                SurveyRefusal::DepthOutOfRange
                | SurveyRefusal::SizeOutOfRange
                | SurveyRefusal::ShortMemory,
            ) => unwritten && unset && all_are(marks, BYTE),
            Err(_) => cleared && unwritten && unset,
        },
    )
}
