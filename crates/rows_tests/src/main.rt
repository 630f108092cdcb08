// What the rows do on small maps and on long chains of turns.
#![tactic(auto)]

mod paths;
mod seen;

use crate::paths::{chord, ring};
use crate::seen::lay_links;

fn main(rt: HostRuntime) -> Result<(), std::io::Error> {
    println!(rt; "triangle: {}", lay_links(&[(0, 1), (1, 2), (0, 2)], 5))?;
    println!(rt;
        "fourth link: {}",
        lay_links(&[(0, 1), (1, 2), (0, 2), (2, 1)], 5)
    )?;
    println!(rt; "end 4 of 4: {}", lay_links(&[(0, 4)], 5))?;
    println!(rt; "equal ends: {}", lay_links(&[(2, 2)], 5))?;
    println!(rt; "short set: {}", lay_links(&[(0, 1)], 3))?;
    println!(rt; "ring of 4096: {}", ring(4096))?;
    println!(rt; "chord of a path of 4096: {}", chord(4096))?;
    println!(rt; "ring of 3: {}", ring(3))?;
    Ok(())
}
