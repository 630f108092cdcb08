#![tactic(auto)]

use std::io;
use values::goods::Goods;
use values::kind::Kind;
use values::number::read_number;
use values::points::Points;
use values::text::Text;
use values::theorems::reread;

fn shown(bytes: &[u8]) -> &str {
    std::str::from_utf8(bytes).unwrap_or("no text")
}

// What reading makes of a text: whether the value fits, its weight, and whether it is written so.
fn print_read<K: Kind>(rt: &HostRuntime, bytes: &[u8]) -> io::Result<()> {
    print!(rt; "[{}]", shown(bytes))?;
    let Some(value) = K::read(bytes) else {
        return println!(rt; " refused");
    };
    let fits = value.fits();
    let weight = value.weight();
    let same = value.write().as_slice() == bytes;
    println!(rt; " fits {fits} weight {weight} written so {same}")
}

// A value that may be absent: its text, how long it is, its weight, and whether it is read again.
fn print_value<K: Kind>(rt: &HostRuntime, name: &str, value: Option<K>) -> io::Result<()> {
    print!(rt; "{name}: ")?;
    let Some(value) = value else {
        return println!(rt; "absent");
    };
    let text = value.write();
    let bytes = text.as_slice().len();
    let weight = value.weight();
    let again = reread(&value).is_some();
    println!(rt; "{text}, bytes {bytes}, weight {weight}, read again {again}")
}

// Texts that points are read from, or are not.
const POINTS: [&[u8]; 26] = [
    b"0",
    b"-0.5",
    b"0.5",
    b"-1",
    b"1.5",
    b"5000",
    b"-5000",
    b"5000.5",
    b"-5000.5",
    b"500000",
    b"-500000",
    b"500000.5",
    b"-500000.5",
    b"",
    b"-",
    b"-0",
    b"00",
    b"+1",
    b"1.0",
    b".5",
    b"1.50",
    b" 1",
    b"1 ",
    b"1,2,3,4",
    b"99999999999999999999",
    b"1\xff",
];

// Texts that goods are read from, or are not.
const GOODS: [&[u8]; 19] = [
    b"0,0,0,0",
    b"1,-2,3,-4",
    b"10000,-10000,10000,-10000",
    b"10001,0,0,0",
    b"0,-10001,0,0",
    b"0,0,10001,0",
    b"0,0,0,-10001",
    b"1000000,1000000,-1000000,1000000",
    b"1000001,0,0,0",
    b"0,0,0,-1000001",
    b"",
    b"1,2,3",
    b"1,2,3,4,5",
    b"1,2,3,4,",
    b",,,",
    b"-0,2,3,4",
    b"1,00,3,4",
    b"1,2,+3,4.0",
    b"1, 2,3,4",
];

// What reading makes of each of these texts.
fn print_readings<K: Kind>(rt: &HostRuntime, texts: &[&[u8]]) -> io::Result<()> {
    for text in texts {
        print_read::<K>(rt, text)?;
    }
    Ok(())
}

// Sums and differences at the edge of the range.
fn print_edges<K: Kind>(rt: &HostRuntime, edge: K, unit: K) -> io::Result<()> {
    print_value(rt, "edge", Some(edge))?;
    print_value(rt, "edge + unit", edge.sum(&unit))?;
    print_value(rt, "edge - unit", edge.difference(&unit))?;
    print_value(rt, "edge - edge", edge.difference(&edge))?;
    let Some(other) = K::zero().difference(&edge) else {
        return println!(rt; "no other edge");
    };
    print_value(rt, "-edge", Some(other))?;
    print_value(rt, "-edge - unit", other.difference(&unit))?;
    print_value(rt, "-edge + unit", other.sum(&unit))
}

// A thousand times the value, by sums.
fn thousandfold<K: Kind>(value: &K) -> Option<K> {
    let mut total = K::zero();
    for _ in 0..1000 {
        total = total.sum(value)?;
    }
    Some(total)
}

fn points_edges(rt: &HostRuntime) -> io::Result<()> {
    print_value(rt, "past the range", Points::new(1_000_000_001))?;
    print_value(rt, "past it below", Points::new(-1_000_000_001))?;
    let Some(step) = <Points as Kind>::read(b"500000") else {
        return println!(rt; "no step");
    };
    let Some(half) = Points::new(1) else {
        return println!(rt; "no half");
    };
    let Some(edge) = thousandfold(&step) else {
        return println!(rt; "no edge");
    };
    print_edges(rt, edge, half)
}

// One column alone leaves the range.
fn print_column(rt: &HostRuntime, edge: Goods, column: Option<Goods>) -> io::Result<()> {
    let Some(column) = column else {
        return println!(rt; "no column");
    };
    print_value(rt, "edge - column", edge.difference(&column))?;
    print_value(rt, "edge + column", edge.sum(&column))
}

fn goods_edges(rt: &HostRuntime) -> io::Result<()> {
    let m = 1_000_000_000;
    print_value(rt, "past the range", Goods::new(0, 0, m + 1, 0))?;
    let Some(edge) = Goods::new(-m, -m, -m, -m) else {
        return println!(rt; "no edge");
    };
    let Some(unit) = Goods::new(-1, -1, -1, -1) else {
        return println!(rt; "no unit");
    };
    print_edges(rt, edge, unit)?;
    print_column(rt, edge, Goods::new(1, 0, 0, 0))?;
    print_column(rt, edge, Goods::new(0, 1, 0, 0))?;
    print_column(rt, edge, Goods::new(0, 0, 1, 0))?;
    print_column(rt, edge, Goods::new(0, 0, 0, 1))
}

fn numbers(rt: &HostRuntime) -> io::Result<()> {
    let texts: [&[u8]; 9] = [
        b"0",
        b"65535",
        b"65536",
        b"",
        b"00",
        b"+1",
        b"-1",
        b"1 ",
        b"4294967296",
    ];
    for text in texts {
        let text_shown = shown(text);
        match read_number(text, 65_535) {
            Some(n) => println!(rt; "{text_shown} is {n}")?,
            None => println!(rt; "{text_shown} is no number")?,
        }
    }
    print!(rt; "{}", Text::from(u32::MAX))?;
    for z in [i32::MIN, -10, 0, 9, 10, i32::MAX] {
        print!(rt; " {}", Text::from(z))?;
    }
    println!(rt; "")
}

fn main(rt: HostRuntime) -> io::Result<()> {
    let points = char::from(<Points as Kind>::letter());
    let goods = char::from(<Goods as Kind>::letter());
    println!(rt; "letters {points} {goods}")?;
    print_readings::<Points>(&rt, &POINTS)?;
    print_readings::<Goods>(&rt, &GOODS)?;
    points_edges(&rt)?;
    goods_edges(&rt)?;
    numbers(&rt)
}
