// Surveys the maps on standard input, one after the other, and answers look-ups on their tables.
#![tactic(auto)]

use crate::report::report;
use crate::request::Stage;

mod report;
mod request;

// Reports on a map whose text has ended, if its depth and size were read and no line was faulty.
fn finish(rt: &HostRuntime, stage: Stage) -> anyhow::Result<()> {
    match stage {
        Stage::Pairs(request) => report(rt, &request),
        _ => Ok(()),
    }
}

// Reads the text line by line; an empty line ends a map.
fn run(rt: &HostRuntime) -> anyhow::Result<()> {
    let heap = rt.alloc();
    let mut stage = Stage::Start;
    for (i, line) in rt.lines(heap).enumerate() {
        let line = line?;
        if line.is_empty() {
            finish(rt, stage)?;
            stage = Stage::Start;
            continue;
        }
        stage = match stage.read(heap, line.as_str()) {
            Ok(next) => next,
            Err(fault) => {
                let number = i.saturating_add(1);
                println!(rt; "line {number}: {fault}")?;
                Stage::Faulty
            }
        };
    }
    finish(rt, stage)
}

fn main(rt: HostRuntime) -> anyhow::Result<()> {
    run(&rt)
}
