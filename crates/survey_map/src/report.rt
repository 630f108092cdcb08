ghost use Rattle.std.specs.Prelude.{◌≡◌, ◌==◌, ℕ, ◌+◌, ◌*◌, ◌<◌, drop, length, position, take, MatchOption, ◌≢◌, slice_index};
ghost use Rattle.std.specs.Iterator.{IsFinite};

use crate::request::{Ground, Request};
use maps::drawn::DrawnMap;
use maps::hex::HexSheet;
use maps::pairs::Pairs;
use maps::reading::EMPTY;
use maps::source::Map;
use std::fmt::Display;
use survey::look_up::look_up;
use survey::memory::SurveyMemory;
use survey::refusals::SurveyRefusal;
use survey::survey::survey;

// The table that a survey wrote of so many spaces, at this depth.
#[derive(Clone, Copy)]
struct Table<'a> {
    spaces: u32,
    depth: u16,
    cells: &'a [u16],
}

impl Table<'_> {
    // The first place in the row of `a` whose cell names `b`.
    fn place_in_row(&self, a: u16, b: u16) -> Option<usize>
        ensures first { result ≡ position (λ c. c == b) (take self.now.depth (drop (a * self.now.depth) self.now.cells.now)) }
        ensures cell { let k = self.now.depth in let cells = self.now.cells.now in MatchOption result ((p : ℕ) → p < k → a * k + p < length cells → slice_index cells (a * k + p) ≢ b) (λ p. (p < k) × (a * k + p < length cells) × (slice_index cells (a * k + p) ≡ b)) }
    {
        let depth = self.depth as usize;
        let mut row = self.cells.iter().skip(a as usize * depth).take(depth);
        row.position(|cell| *cell == b)
    }
}

// Surveys the map that was asked for, and prints what came of it.
pub(crate) fn report(rt: &HostRuntime, request: &Request) -> anyhow::Result<()> {
    let depth = request.depth;
    match request.ground {
        Ground::Hex { width, height } => {
            println!(rt; "hex sheet of {width} by {height}, depth {depth}")?;
            match HexSheet::new(width, height) {
                Ok(sheet) => report_map(rt, &sheet, request)?,
                Err(_) => println!(rt; "refused 10")?,
            }
        }
        Ground::Drawn { spaces } => {
            println!(rt; "drawn map of {spaces} spaces, depth {depth}")?;
            let map = DrawnMap::new(spaces, request.ends.as_slice());
            report_map(rt, &map, request)?;
        }
    }
    println!(rt; "")?;
    Ok(())
}

// Surveys a map in memory of its own. Never inlined: the survey's working memory would stay on the stack while a map of another source is surveyed.
#[inline(never)]
fn report_map<M: Map>(rt: &HostRuntime, map: &M, request: &Request) -> anyhow::Result<()> {
    let heap = rt.alloc();
    let spaces = map.spaces();
    let depth = request.depth;
    let n = spaces.min(4096) as usize;
    let mut order = vec![in heap; 0u16; n]?;
    let mut cells = vec![in heap; 0u16; n * depth.min(8) as usize]?;
    let mut set = vec![in heap; 0u8; n]?;
    let mut marks = vec![in heap; 0u8; n]?;
    let reply = survey(
        map,
        depth,
        &mut SurveyMemory {
            order: &mut order,
            table: &mut cells,
            set: &mut set,
            marks: &mut marks,
        },
    );
    match reply {
        Ok(()) => {
            let table = Table {
                spaces,
                depth,
                cells: &cells,
            };
            print!(rt; "accepted, order")?;
            print_items(rt, order.iter())?;
            print_rows(rt, &table)?;
            print_colours(rt, map, &table)?;
            print_answers(rt, &table, &request.questions)
        }
        Err(refusal) => print_refusal(rt, refusal, &set),
    }
}

// Prints the rest of a line: each item after a space.
fn print_items<T: Display + Drop, I: Iterator<Item = T> + Drop>(
    rt: &HostRuntime,
    items: I,
) -> anyhow::Result<()>
    requires can { I.can_next items }
    requires ends { IsFinite (I.remaining items) }
{
    for item in items {
        print!(rt; " {item}")?;
    }
    println!(rt; "")?;
    Ok(())
}

// Prints the filled cells of each space's row.
fn print_rows(rt: &HostRuntime, table: &Table<'_>) -> anyhow::Result<()> {
    let rows = table.cells.chunks(table.depth.max(1) as usize);
    for (space, row) in rows.enumerate() {
        print!(rt; "row {space}:")?;
        print_items(rt, row.iter().filter(|cell| **cell != EMPTY))?;
    }
    Ok(())
}

// Prints each link with its colour.
fn print_colours<M: Map>(rt: &HostRuntime, map: &M, table: &Table<'_>) -> anyhow::Result<()> {
    for (a, b) in Pairs::of(map) {
        let colour = table
            .place_in_row(a, b)
            .or_else(|| table.place_in_row(b, a));
        if let Some(colour) = colour {
            println!(rt; "link {a}-{b}: colour {colour}")?;
        }
    }
    Ok(())
}

// Prints the refusal, and the set of a dense map.
// Twin of that of survey_tests but for what follows a dense map: the two programs share no crate of their own.
fn print_refusal(rt: &HostRuntime, refusal: SurveyRefusal, set: &[u8]) -> anyhow::Result<()> {
    print!(rt; "refused {refusal}")?;
    if refusal == SurveyRefusal::Dense {
        print!(rt; ", set")?;
        let members = set.iter().enumerate().filter(|(_, member)| **member == 1);
        return print_items(rt, members.map(|(space, _)| space));
    }
    println!(rt; "")?;
    Ok(())
}

// Prints of each two spaces whether they are linked, and how many cells were read to tell.
fn print_answers(
    rt: &HostRuntime,
    table: &Table<'_>,
    questions: &[(u16, u16)],
) -> anyhow::Result<()> {
    for (a, b) in questions {
        match look_up(table.spaces, table.depth, table.cells, *a, *b) {
            Ok(reading) => {
                let answer = if reading.linked { "yes" } else { "no" };
                let cells = reading.cells;
                println!(rt; "{a}-{b}: {answer}, cells read: {cells}")?;
            }
            Err(refusal) => println!(rt; "{a}-{b}: refused {refusal}")?,
        }
    }
    Ok(())
}
