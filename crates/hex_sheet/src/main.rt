// Prints a hex sheet as an artist checks it against the drawing: its size, each link and each centre.
#![tactic(auto)]

use anyhow::Context;
use maps::centre::Centre;
use maps::hex::HexSheet;
use maps::pairs::Pairs;
use maps::source::Map;
use std::{env, io};

// One line for each link, in the sheet's order.
fn print_links(rt: &impl Print, sheet: &HexSheet) -> io::Result<()> {
    // Zipped with the places: that a count of them fits is not known of Pairs.
    for (place, (a, b)) in (0..sheet.links()).zip(Pairs::of(sheet)) {
        println!(rt; "link {place}: {a} - {b}")?;
    }
    Ok(())
}

// One line for each space, with its centre in tile widths and heights.
fn print_centres(rt: &impl Print, sheet: &HexSheet) -> io::Result<()> {
    for space in 0..sheet.spaces() as u16 {
        let Centre { x, y } = sheet.centre(space).unwrap();
        println!(rt; "space {space}: x {x}, y {y}")?;
    }
    Ok(())
}

fn print_sheet(rt: &impl Print, width: u16, height: u16) -> anyhow::Result<()> {
    let sheet = HexSheet::new(width, height)
        .ok()
        .context("refused with 10: width and height are 1 to 64")?;
    let spaces = sheet.spaces();
    let links = sheet.links();
    println!(rt; "hex sheet {width} by {height}: {spaces} spaces, {links} links")?;
    print_links(rt, &sheet)?;
    print_centres(rt, &sheet)?;
    Ok(())
}

fn run(rt: &HostRuntime) -> anyhow::Result<()> {
    let mut args = env::args(rt)?;
    let _program = args.next();
    let size = args.next().zip(args.next());
    let (width, height) = size.context("usage: hex_sheet WIDTH HEIGHT")?;
    print_sheet(rt, width.parse::<u16>()?, height.parse::<u16>()?)
}

fn main(rt: HostRuntime) -> anyhow::Result<()> {
    run(&rt)
}
