ghost use Rattle.std.specs.Prelude.{◌≤◌, length};

use arrayvec::ArrayString;

pub mod writing;

// A short text: at most 47 bytes.
#[derive(Clone, Copy, Debug, PartialEq, Eq)]
pub struct Text {
    text: ArrayString<47>,
    ghost short: { length text.bytes ≤ 47 },
}
