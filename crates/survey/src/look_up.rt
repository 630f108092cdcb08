ghost use Rattle.survey.specs.LookingUp.{LookedUp};

use crate::refusals::LookUpRefusal;
use crate::survey::is_bad_depth;
use maps::checks::is_too_large;
use maps::reading::{Reading, read_link};

// Whether two spaces are linked, by a table that a survey of so many spaces wrote at this depth. The ends are tested as those of a link in a list; each call has refusals of its own.
pub fn look_up(
    spaces: u32,
    depth: u16,
    table: &[u16],
    a: u16,
    b: u16,
) -> Result<Reading, LookUpRefusal>
    ensures { LookedUp spaces depth table.now a b result }
{
    if is_bad_depth(depth) {
        return Err(LookUpRefusal::DepthOutOfRange);
    }
    if is_too_large(spaces, 0) {
        return Err(LookUpRefusal::SizeOutOfRange);
    }
    if table.len() < spaces as usize * depth as usize {
        return Err(LookUpRefusal::ShortTable);
    }
    if a as u32 >= spaces || b as u32 >= spaces {
        return Err(LookUpRefusal::EndOutOfRange);
    }
    if a == b {
        return Err(LookUpRefusal::EqualEnds);
    }
    Ok(read_link(table, depth, a, b))
}
