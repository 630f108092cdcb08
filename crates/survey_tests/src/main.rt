// Surveys maps small and large, and checks what each survey wrote. With a number as its argument it surveys the largest maps that often, and prints no more than that.
#![tactic(auto)]

use crate::cases::{run_built, run_cases};
use crate::repeat::repeat;
use std::env;

mod build;
mod cases;
mod judge;
mod repeat;

fn run(rt: &HostRuntime) -> anyhow::Result<()> {
    let mut words = env::args(rt)?;
    let _program = words.next();
    if let Some(word) = words.next() {
        return repeat(rt, word.parse::<u32>()?);
    }
    run_cases(rt)?;
    run_built(rt)
}

fn main(rt: HostRuntime) -> anyhow::Result<()> {
    run(&rt)
}
