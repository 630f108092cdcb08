// Prints whole sheets, and what the steps answer where the bytes are too few or not as many as before.
#![tactic(auto)]

use league::owner::OwnerTotal;
use league::refusal::SheetRefusal;
use league::score::league_points;
use league::sheet::steps::{begin, print_sheet};
use league::sheet::{Begun, Footed, Headed, Listed};
use std::io;
use std::io::Write;
use values::goods::Goods;
use values::kind::Kind;
use values::points::Points;

// The points of so many halves; 0 out of range.
fn points(links: u16, halves: i32) -> OwnerTotal<Points> {
    let total = Points::new(halves).unwrap_or_else(Points::zero);
    OwnerTotal { links, total }
}

// The goods of these columns; none out of range.
fn goods(links: u16, wood: i32, stone: i32, ore: i32, cloth: i32) -> OwnerTotal<Goods> {
    let total = Goods::new(wood, stone, ore, cloth).unwrap_or_else(Goods::zero);
    OwnerTotal { links, total }
}

// Prints a whole sheet, or the refusal's number, and how many bytes are as they were.
fn show<K: Kind>(
    rt: &HostRuntime,
    bytes: usize,
    standing: u16,
    owners: &[OwnerTotal<K>; 7],
) -> io::Result<()> {
    let mut all = [b'#'; 600];
    if bytes > 600 {
        return Ok(());
    }
    let print = &mut all[0..bytes];
    match print_sheet(print, standing, owners) {
        Ok(len) => {
            rt.stdout().write_all(&print[0..len])?;
            println!(rt; "{len} bytes")?;
        }
        Err(refusal) => println!(rt; "refused {}", refusal.number())?,
    }
    println!(rt; "{} left", left(print))
}

// How many bytes are still as they were.
fn left(print: &[u8]) -> usize {
    print.iter().filter(|byte| **byte == b'#').count()
}

fn sheets_of_points(rt: &HostRuntime) -> io::Result<()> {
    let none = points(0, 0);
    let played = [points(1, -1), points(1, 6), none, none, none, none, none];
    show(rt, 512, 4, &played)?;
    show(rt, 511, 4, &played)?;
    let halves = [
        points(9, 1),
        points(10, -1),
        points(99, 3),
        points(100, -3),
        points(2, 5),
        points(3, 5),
        none,
    ];
    show(rt, 600, 65535, &halves)?;
    let ends = [
        points(1, 1_000_000_000),
        points(2, -1_000_000_000),
        points(3, 999_999_999),
        points(4, -999_999_999),
        none,
        none,
        none,
    ];
    show(rt, 513, 0, &ends)
}

fn sheets_of_goods(rt: &HostRuntime) -> io::Result<()> {
    let none = goods(0, 0, 0, 0, 0);
    let traded = [
        goods(7, 3, 0, -1, 5),
        goods(6, 1, 1, 1, 1),
        goods(5, 0, 0, 0, -1),
        none,
        goods(4, 7, 0, 0, 0),
        goods(3, 0, 0, 0, 8),
        none,
    ];
    show(rt, 512, 12, &traded)?;
    let most = 1_000_000_000;
    let rich = goods(65535, most, most, most, most);
    show(rt, 512, 65535, &[rich; 7])?;
    let poor = goods(65535, -most, -most, -most, -most);
    show(rt, 512, 65535, &[poor; 7])
}

// Prints that a step was refused, with how many bytes are as they were: the sheet that came back.
fn refused<S: Drop>(
    rt: &HostRuntime,
    step: &str,
    all: &[u8; 600],
    (sheet, refusal): (S, SheetRefusal),
) -> io::Result<S> {
    let number = refusal.number();
    println!(rt; "{step} refused {number}, {} left", left(all))?;
    Ok(sheet)
}

// Heads a sheet, after it was refused in other numbers of bytes. A step that goes otherwise ends the test, here and below: then lines of the stored output are missing.
fn headed_at_last(
    rt: &HostRuntime,
    all: &mut [u8; 600],
    begun: Begun,
) -> io::Result<Option<Headed>> {
    let Err((begun, refusal)) = begun.head::<Points>(&mut all[0..511], 4) else {
        return Ok(None);
    };
    println!(rt; "head refused {}", refusal.number())?;
    let Err(back) = begun.head::<Points>(&mut all[0..513], 4) else {
        return Ok(None);
    };
    let begun = refused(rt, "head", all, back)?;
    Ok(begun.head::<Points>(&mut all[0..512], 4).ok())
}

// Lists a sheet, after it was refused in another number of bytes.
fn listed_at_last(
    rt: &HostRuntime,
    all: &mut [u8; 600],
    headed: Headed,
    owners: &[OwnerTotal<Points>; 7],
) -> io::Result<Option<Listed>> {
    let Err(back) = headed.list(&mut all[0..600], owners) else {
        return Ok(None);
    };
    let headed = refused(rt, "list", all, back)?;
    Ok(headed.list(&mut all[0..512], owners).ok())
}

// Foots a sheet, after it was refused in another number of bytes.
fn footed_at_last(
    rt: &HostRuntime,
    all: &mut [u8; 600],
    listed: Listed,
) -> io::Result<Option<Footed>> {
    let Err(back) = listed.foot(&mut all[0..100]) else {
        return Ok(None);
    };
    let listed = refused(rt, "foot", all, back)?;
    Ok(listed.foot(&mut all[0..512]).ok())
}

// Takes a sheet of 512 bytes through its steps, each refused first.
fn one_by_one(rt: &HostRuntime, all: &mut [u8; 600], begun: Begun) -> io::Result<()> {
    let one = points(1, 1);
    let Some(headed) = headed_at_last(rt, all, begun)? else {
        return Ok(());
    };
    let Some(listed) = listed_at_last(rt, all, headed, &[one; 7])? else {
        return Ok(());
    };
    let Some(footed) = footed_at_last(rt, all, listed)? else {
        return Ok(());
    };
    let len = footed.len();
    rt.stdout().write_all(&all[0..len])?;
    println!(rt; "{len} bytes, {} left", left(&all[..]))
}

fn main(rt: HostRuntime) -> io::Result<()> {
    for weight in [-3, -2, -1, 0, 1, 2, 3] {
        println!(rt; "{weight} halves: {}", league_points(weight))?;
    }
    sheets_of_points(&rt)?;
    sheets_of_goods(&rt)?;
    let mut all = [b'#'; 600];
    if let Err(refusal) = begin(&all[0..511]) {
        println!(rt; "begin refused {}", refusal.number())?;
    }
    let begun = begin(&all[0..512]).unwrap();
    one_by_one(&rt, &mut all, begun)
}
