ghost use Rattle.league.specs.Writing.{Puts};
ghost use Rattle.std.specs.Prelude.{[], ◌∷◌, ◌++◌, decimal};

use values::text::Text;

// Writes the text from at on, if there is room for it, and returns where it ends; otherwise returns at.
// It answers no Option, and takes print and at as two: so it is public, and so it stays.
pub fn put(print: &mut [u8], at: usize, text: &[u8]) -> usize
    ensures { Puts print.old at text.now result print.new }
{
    if at > print.len() {
        return at;
    }
    if print.len() - at < text.len() {
        return at;
    }
    let end = at + text.len();
    print[at..end].copy_from_slice(text);
    end
}

// Writes a text and one byte more, if there is room for both, and answers as `put`: the calls below hand it on. One test for both, so that nothing is written where only the text fits.
fn put_ended(print: &mut [u8], at: usize, text: &[u8], last: u8) -> usize
    ensures { Puts print.old at (text.now ++ (last ∷ [])) result print.new }
{
    if at > print.len() {
        return at;
    }
    if print.len() - at <= text.len() {
        return at;
    }
    let end = put(print, at, text);
    put(print, end, &[last])
}

// The four below are one line each over `put_ended`; with a parameter in place of their names a call would say less.

// Writes a field that another follows, and a tab, if there is room for both.
pub fn put_field(print: &mut [u8], at: usize, text: &[u8]) -> usize
    ensures { Puts print.old at (text.now ++ (9 ∷ [])) result print.new }
{
    put_ended(print, at, text, b'\t')
}

// Writes the last field of a line, and a line end, if there is room for both.
pub fn put_last(print: &mut [u8], at: usize, text: &[u8]) -> usize
    ensures { Puts print.old at (text.now ++ (10 ∷ [])) result print.new }
{
    put_ended(print, at, text, b'\n')
}

// Writes a number in decimal as a field that another follows.
pub fn put_number(print: &mut [u8], at: usize, number: u32) -> usize
    ensures { Puts print.old at (decimal number ++ (9 ∷ [])) result print.new }
{
    put_field(print, at, Text::from(number).as_slice())
}

// Writes a number in decimal as the last field of a line.
pub fn put_last_number(print: &mut [u8], at: usize, number: u32) -> usize
    ensures { Puts print.old at (decimal number ++ (10 ∷ [])) result print.new }
{
    put_last(print, at, Text::from(number).as_slice())
}
