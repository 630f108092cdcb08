ghost use Rattle.std.specs.Prelude.{◌≤◌};

mod fields;
pub mod steps;

// A sheet is begun, headed, listed and footed, in bytes that are lent to each step.
// It holds how many bytes it began with, and how many are written.
// Four types, not one over the most that is written: the compiler then names the state where a step is misused.

// How many bytes a sheet began with: enough for any.
#[derive(Clone, Copy)]
struct Size {
    bytes: usize,
    ghost enough: { 512 ≤ bytes },
}

// Begun: nothing is written.
#[derive(Drop)]
pub struct Begun {
    size: Size,
}

// Headed: the head is written.
#[derive(Drop)]
pub struct Headed {
    size: Size,
    len: usize,
    ghost bound: { len ≤ 10 },
}

// Listed: the owners are written too.
#[derive(Drop)]
pub struct Listed {
    size: Size,
    len: usize,
    ghost bound: { len ≤ 500 },
}

// Footed: the whole sheet is written.
#[derive(Drop)]
pub struct Footed {
    written: usize,
    ghost bound: { written ≤ 504 },
}
