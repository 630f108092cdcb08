use crate::build::{circle, hubs, steps};
use crate::judge::Memory;
use maps::drawn::DrawnMap;

// Surveys 4,096 spaces at depth 8 over and over: each linked to eight before it, all in a circle, and all linked to eight hubs.
pub(crate) fn repeat(rt: &HostRuntime, times: u32) -> anyhow::Result<()> {
    let heap = rt.alloc();
    let sparse = steps(heap, 4096, 8)?;
    let dense = circle(heap)?;
    let star = hubs(heap)?;
    let maps = [&sparse, &dense, &star].map(|ends| DrawnMap::new(4096, ends));
    let mut memory = Memory::new(heap, 4096, 32_768, None)?;
    let accepted = maps
        .iter()
        .cycle()
        .take(times as usize)
        .filter(|map| memory.survey(*map, 8).is_ok())
        .count();
    println!(rt; "{times} surveys, {accepted} accepted")?;
    Ok(())
}
