use crate::build::{circle, hubs, path, steps};
use crate::judge::{Memory, Part, is_right, used};
use maps::drawn::DrawnMap;
use maps::hex::HexSheet;
use maps::source::Map;
use survey::refusals::SurveyRefusal;

// A drawn map and a depth.
#[derive(Clone, Copy)]
struct Case<'a> {
    name: &'a str,
    spaces: u32,
    depth: u16,
    ends: &'a [u16],
}

static CASES: [Case<'static>; 14] = [
    Case {
        name: "triangle at 1",
        spaces: 3,
        depth: 1,
        ends: &[0, 1, 1, 2, 0, 2],
    },
    Case {
        name: "triangle at 2",
        spaces: 3,
        depth: 2,
        ends: &[0, 1, 1, 2, 0, 2],
    },
    Case {
        name: "one space at 1",
        spaces: 1,
        depth: 1,
        ends: &[],
    },
    Case {
        name: "no space",
        spaces: 0,
        depth: 1,
        ends: &[],
    },
    Case {
        name: "depth 0",
        spaces: 1,
        depth: 0,
        ends: &[],
    },
    Case {
        name: "depth 9",
        spaces: 1,
        depth: 9,
        ends: &[],
    },
    Case {
        name: "depth 0 and no space",
        spaces: 0,
        depth: 0,
        ends: &[],
    },
    Case {
        name: "0-1 and 1-0",
        spaces: 2,
        depth: 1,
        ends: &[0, 1, 1, 0],
    },
    Case {
        name: "an end too large",
        spaces: 3,
        depth: 1,
        ends: &[0, 1, 3, 2],
    },
    Case {
        name: "equal ends",
        spaces: 3,
        depth: 1,
        ends: &[0, 1, 1, 2, 2, 2],
    },
    Case {
        name: "repeated, then equal ends",
        spaces: 3,
        depth: 1,
        ends: &[0, 1, 0, 1, 2, 2],
    },
    Case {
        name: "equal ends, then repeated",
        spaces: 3,
        depth: 1,
        ends: &[2, 2, 0, 1, 0, 1],
    },
    Case {
        name: "triangle with a tail at 1",
        spaces: 6,
        depth: 1,
        ends: &[5, 4, 4, 3, 3, 2, 2, 1, 1, 0, 0, 2],
    },
    Case {
        name: "star at 1",
        spaces: 5,
        depth: 1,
        ends: &[0, 1, 0, 2, 3, 0, 4, 0],
    },
];

// Surveys a map, prints the reply, and whether the memory is as it should be.
fn try_map<M: Map>(
    rt: &HostRuntime,
    name: &str,
    map: &M,
    depth: u16,
    lack: Option<Part>,
) -> anyhow::Result<()> {
    let heap = rt.alloc();
    let (spaces, cells) = used(map, depth);
    let mut memory = Memory::new(heap, spaces, cells, lack)?;
    let reply = memory.survey(map, depth);
    print!(rt; "{name}: ")?;
    match reply {
        Ok(()) => print!(rt; "accepted")?,
        Err(refusal) => print_refusal(rt, refusal, &memory.set)?,
    }
    let right = is_right(heap, map, depth, &memory, reply)?;
    let word = if right { "right" } else { "WRONG" };
    println!(rt; ", memory {word}")?;
    Ok(())
}

// Prints the refusal, and of a dense map the first ten spaces of its set, and how many it has.
// Twin of that of survey_map but for what follows a dense map: the two programs share no crate of their own.
fn print_refusal(rt: &HostRuntime, refusal: SurveyRefusal, set: &[u8]) -> anyhow::Result<()> {
    print!(rt; "refused {refusal}")?;
    if refusal == SurveyRefusal::Dense {
        let members = set.iter().enumerate().filter(|(_, member)| **member == 1);
        for (space, _) in members.take(10) {
            print!(rt; " {space}")?;
        }
        let count = set.iter().filter(|member| **member == 1).count();
        print!(rt; " ({count} spaces)")?;
    }
    Ok(())
}

// A drawn map, in enough memory.
fn try_drawn(rt: &HostRuntime, case: &Case<'_>) -> anyhow::Result<()> {
    let map = DrawnMap::new(case.spaces, case.ends);
    try_map(rt, case.name, &map, case.depth, None)
}

// The maps of the table.
pub(crate) fn run_cases(rt: &HostRuntime) -> anyhow::Result<()> {
    for case in &CASES {
        try_drawn(rt, case)?;
    }
    Ok(())
}

fn try_hex(rt: &HostRuntime) -> anyhow::Result<()> {
    let sheet = HexSheet::new(3, 3).unwrap();
    try_map(rt, "3 by 3 hexes at 2", &sheet, 2, None)?;
    try_map(rt, "3 by 3 hexes at 3", &sheet, 3, None)?;
    try_map(rt, "in a short order", &sheet, 3, Some(Part::Order))?;
    try_map(rt, "in a short table", &sheet, 3, Some(Part::Table))?;
    try_map(rt, "in a short set", &sheet, 3, Some(Part::Set))?;
    try_map(rt, "with short marks", &sheet, 3, Some(Part::Marks))?;
    let sheet = HexSheet::new(64, 64).unwrap();
    try_map(rt, "64 by 64 hexes at 2", &sheet, 2, None)?;
    try_map(rt, "64 by 64 hexes at 3", &sheet, 3, None)
}

fn try_path(rt: &HostRuntime) -> anyhow::Result<()> {
    let ends = path(rt.alloc(), 4096)?;
    let case = Case {
        name: "path at 1",
        spaces: 4096,
        depth: 1,
        ends: &ends,
    };
    try_drawn(rt, &case)?;
    let name = "4,097 spaces";
    let spaces = 4097;
    try_drawn(
        rt,
        &Case {
            name,
            spaces,
            ..case
        },
    )
}

fn try_steps(rt: &HostRuntime) -> anyhow::Result<()> {
    let ends = steps(rt.alloc(), 4096, 8)?;
    let case = Case {
        name: "eight steps back at 8",
        spaces: 4096,
        depth: 8,
        ends: &ends,
    };
    try_drawn(rt, &case)?;
    let name = "eight steps back at 7";
    let depth = 7;
    try_drawn(
        rt,
        &Case {
            name,
            depth,
            ..case
        },
    )
}

fn try_hubs(rt: &HostRuntime) -> anyhow::Result<()> {
    let ends = hubs(rt.alloc())?;
    let case = Case {
        name: "eight hubs at 8",
        spaces: 4096,
        depth: 8,
        ends: &ends,
    };
    try_drawn(rt, &case)
}

fn try_circle(rt: &HostRuntime) -> anyhow::Result<()> {
    let mut ends = circle(rt.alloc())?;
    let case = Case {
        name: "32,768 links at 8",
        spaces: 4096,
        depth: 8,
        ends: &ends,
    };
    try_drawn(rt, &case)?;
    ends.extend_from_slice(&[0, 2048])?;
    let case = Case {
        name: "32,769 links",
        spaces: 4096,
        depth: 8,
        ends: &ends,
    };
    try_drawn(rt, &case)
}

// Maps that are built: hex sheets, and the largest that are allowed.
pub(crate) fn run_built(rt: &HostRuntime) -> anyhow::Result<()> {
    try_hex(rt)?;
    try_path(rt)?;
    try_steps(rt)?;
    try_hubs(rt)?;
    try_circle(rt)
}
