// Runs the library of maps on worked cases and prints what it got; the stored output has what the rules say.
#![tactic(auto)]

ghost use Rattle.std.specs.Prelude.{◌≤◌};

use maps::centre::Centre;
use maps::checks::check_links;
use maps::drawn::DrawnMap;
use maps::hex::HexSheet;
use maps::memory::ListMemory;
use maps::reading::read_link;
use maps::refusals::ListRefusal;
use maps::source::Map;
use std::{io, iter};

// The numbers that a source tells, and its pairs at some places.
fn print_map<M: Map>(rt: &impl Print, name: &str, map: &M, places: &[u32]) -> io::Result<()> {
    let spaces = map.spaces();
    let links = map.links();
    print!(rt; "{name}: {spaces} spaces, {links} links;")?;
    for place in places {
        match map.pair(*place) {
            Some((a, b)) => print!(rt; " {a}-{b}")?,
            None => print!(rt; " none")?,
        }
    }
    println!(rt; "")
}

fn print_sheet(rt: &impl Print, width: u16, height: u16, places: &[u32]) -> io::Result<()> {
    match HexSheet::new(width, height) {
        Ok(sheet) => {
            print!(rt; "{width} by {height} ")?;
            print_map(rt, "sheet", &sheet, places)
        }
        Err(_) => println!(rt; "{width} by {height} refused"),
    }
}

fn sheets(rt: &impl Print) -> io::Result<()> {
    print_sheet(rt, 3, 3, &[0, 5, 6, 7, 8, 9, 10, 11, 12, 13, 14, 15, 16])?;
    print_sheet(rt, 1, 1, &[0])?;
    print_sheet(rt, 1, 64, &[0, 1, 62, 63])?;
    print_sheet(rt, 64, 1, &[0, 62, 63])?;
    print_sheet(
        rt,
        64,
        64,
        &[0, 4031, 4032, 4033, 4158, 4159, 12032, 12033, 4294967295],
    )?;
    print_sheet(rt, 0, 3, &[])?;
    print_sheet(rt, 3, 0, &[])?;
    print_sheet(rt, 65, 3, &[])?;
    print_sheet(rt, 3, 65, &[])
}

fn print_centre(rt: &impl Print, width: u16, height: u16, space: u16) -> io::Result<()> {
    let Ok(sheet) = HexSheet::new(width, height) else {
        return println!(rt; "{width} by {height} refused");
    };
    match sheet.centre(space) {
        Ok(Centre { x, y }) => println!(rt; "{width} by {height}, space {space}: {x} {y}"),
        Err(_) => println!(rt; "{width} by {height}, space {space}: refused"),
    }
}

fn centres(rt: &impl Print) -> io::Result<()> {
    print_centre(rt, 3, 3, 0)?;
    print_centre(rt, 3, 3, 5)?;
    print_centre(rt, 3, 3, 8)?;
    print_centre(rt, 3, 3, 9)?;
    print_centre(rt, 64, 64, 4095)?;
    print_centre(rt, 64, 64, 4096)?;
    print_centre(rt, 1, 1, 65535)
}

fn drawn_maps(rt: &impl Print) -> io::Result<()> {
    print_map(rt, "drawn", &DrawnMap::new(4, &[0, 1, 1, 2]), &[0, 1, 2])?;
    print_map(
        rt,
        "drawn, odd tail",
        &DrawnMap::new(4, &[0, 1, 7]),
        &[0, 1],
    )?;
    print_map(rt, "drawn, no links", &DrawnMap::new(4294967295, &[]), &[0])?;
    print_map(rt, "drawn, one number", &DrawnMap::new(1, &[0]), &[0])?;
    print_map(
        rt,
        "drawn, equal ends",
        &DrawnMap::new(0, &[5, 5, 65535, 0]),
        &[0, 1, 2, 4294967295],
    )
}

// The reply to a list of links, with room for so many links and spaces.
fn reply_to<const LINKS: usize, const SPACES: usize>(
    spaces: u32,
    ends: &[u16],
    marks: &mut [u8; SPACES],
) -> Result<(), ListRefusal>
    requires { (LINKS ≤ 32768) × (SPACES ≤ 4096) }
{
    let mut links = [(0u16, 0u16); LINKS];
    let mut head = [0u16; SPACES];
    let mut next = [(0u16, 0u16); LINKS];
    let map = DrawnMap::new(spaces, ends);
    check_links(
        &map,
        &mut ListMemory {
            links: &mut links,
            head: &mut head,
            next: &mut next,
            marks,
        },
    )
}

// The reply with room for eight, and the marks, of which the last two are past the spaces.
fn print_check(rt: &impl Print, spaces: u32, ends: &[u16]) -> io::Result<()> {
    let mut marks = [9u8; 8];
    let reply = reply_to::<8, 8>(spaces, ends, &mut marks);
    println!(rt; "{spaces} spaces, {ends:?}: {reply:?}, marks {marks:?}")
}

fn checks(rt: &impl Print) -> io::Result<()> {
    print_check(rt, 6, &[0, 1, 1, 2, 5, 0])?;
    print_check(rt, 6, &[])?;
    print_check(rt, 6, &[0, 1, 6, 2])?;
    print_check(rt, 6, &[0, 1, 2, 65535])?;
    print_check(rt, 6, &[0, 1, 6, 6])?;
    print_check(rt, 6, &[0, 1, 3, 3])?;
    print_check(rt, 6, &[0, 1, 1, 0])?;
    print_check(rt, 6, &[4, 5, 0, 1, 2, 3, 5, 4, 6, 0])?;
    print_check(rt, 6, &[4, 5, 0, 1, 3, 3, 5, 4])?;
    print_check(rt, 6, &[0, 1, 2, 3, 3, 2, 1, 0, 0, 1])?;
    print_check(rt, 6, &[1, 0, 0, 2, 0, 3, 0, 4, 5, 0, 4, 0])?;
    print_check(rt, 0, &[0, 1])?;
    print_check(rt, 4097, &[0, 1])?;
    print_check(rt, 9, &[0, 1])?;
    print_check(
        rt,
        6,
        &[0, 1, 0, 2, 0, 3, 0, 4, 0, 5, 1, 2, 1, 3, 1, 4, 1, 5],
    )
}

// A list of the largest size, of which the last link may repeat the first.
fn print_large(rt: &impl Print, name: &str, spaces: u32, ends: &[u16]) -> io::Result<()> {
    let reply = reply_to::<32768, 4096>(spaces, ends, &mut [1u8; 4096]);
    println!(rt; "{name}: {reply:?}")
}

// Writes links one after the other, two numbers to each.
fn draw<I: Iterator<Item = (u16, u16)> + Drop>(ends: &mut [u16], links: I)
    requires { I.can_next links }
{
    for (link, (a, b)) in ends.chunks_exact_mut(2).zip(links) {
        link.copy_from_slice(&[a, b]);
    }
}

// The links 0-1, 1-2 and so on, to 4094-4095.
fn draw_path(ends: &mut [u16]) {
    draw(ends, (0..4095).map(|v| (v, v + 1)));
}

// Each two of 255 spaces, the higher first, by the higher; what follows is filled with the link 0-254.
fn draw_clique(ends: &mut [u16]) {
    let clique = (1..255).flat_map(|a| (0..a).map(move |b| (a, b)));
    draw(ends, clique.chain(iter::repeat((0, 254))));
}

fn large_lists(rt: &impl Print) -> io::Result<()> {
    let ends = [0u16; 65538];
    print_large(rt, "32,769 links", 4096, &ends)?;
    print_large(rt, "32,768 links, equal ends", 4096, &ends[0..65536])?;
    let mut ends = [0u16; 65536];
    draw_path(&mut ends);
    print_large(rt, "a path of 4,096 spaces", 4096, &ends[0..8190])?;
    draw_clique(&mut ends);
    print_large(rt, "255 spaces, each linked to all", 255, &ends[0..64770])?;
    print_large(rt, "one of them linked again", 255, &ends[0..64772])
}

fn readings(rt: &impl Print) -> io::Result<()> {
    let table = [1, 3, 65535, 2, 0, 7, 3, 65535, 1, 0, 65535, 0];
    let in_low = read_link(&table, 3, 3, 0);
    let in_high = read_link(&table, 3, 2, 3);
    let past_hole = read_link(&table, 3, 3, 1);
    let missing = read_link(&table, 3, 1, 2);
    let past_end = read_link(&table, 3, 9, 4);
    println!(rt; "0-3 {in_low:?}")?;
    println!(rt; "2-3 {in_high:?}")?;
    println!(rt; "1-3 {past_hole:?}")?;
    println!(rt; "1-2 {missing:?}")?;
    println!(rt; "4-9 {past_end:?}")
}

fn main(rt: HostRuntime) -> io::Result<()> {
    sheets(&rt)?;
    centres(&rt)?;
    drawn_maps(&rt)?;
    checks(&rt)?;
    large_lists(&rt)?;
    readings(&rt)
}
