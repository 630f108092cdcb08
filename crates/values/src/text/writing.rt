ghost use Rattle.std.specs.Prelude.{◌≡◌, ◌+◌, ◌≤◌, [], ◌∷◌, ◌++◌, length, decimal, Some};
ghost use Rattle.std.specs.Fmt.{signed_decimal};
ghost use Rattle.values.specs.Columns.{Held};
ghost use Rattle.values.specs.Shown.{shown};
ghost use Rattle.values.specs.Texts.{goods_text, halves_text, minus};

use super::Text;
use arrayvec::ArrayString;
use itoa::{Buffer, Integer};
use std::fmt;

// The number in decimal. Both are a line over `number`, since each type states its own text.
impl From<u32> for Text {
    ghost from_gives = { λ n text. shown text ≡ decimal n };

    fn from(n: u32) -> Text {
        Text::number(n)
    }
}

// The number in decimal, with a minus sign if it is below 0.
impl From<i32> for Text {
    ghost from_gives = { λ z text. shown text ≡ signed_decimal z };

    fn from(z: i32) -> Text {
        Text::number(z)
    }
}

impl fmt::Display for Text {
    ghost output = { λ text. Some (shown text) };

    fn fmt<W: fmt::Write>(&self, f: &mut fmt::Formatter<W>) -> fmt::Result {
        fmt::Display::fmt(&self.text, f)
    }
}

impl Text {
    // Four columns in decimal, parted by commas.
    pub(crate) fn parted(columns: &[i32; 4]) -> Text
        requires { Held columns.now }
        ensures { shown result ≡ goods_text columns.now }
    {
        let mut text = Text::empty();
        for (i, z) in columns.iter().enumerate() {
            if i > 0 {
                text.push_comma();
            }
            text.push_number(*z);
        }
        text
    }

    pub fn as_slice(&self) -> &[u8]
        ensures shows { result.now ≡ shown self.now }
        ensures short { length result.now ≤ 47 }
    {
        self.text.as_str().as_bytes()
    }

    pub(crate) fn empty() -> Text
        ensures { shown result ≡ [] }
    {
        Text {
            text: ArrayString::new(),
        }
    }

    // The number in decimal, with a minus sign if it is below 0.
    fn number<I: Integer>(n: I) -> Text
        requires { I.MAX_STR_LEN ≤ 47 }
        ensures after { shown result ≡ I.text n }
        ensures room { length (shown result) ≤ I.MAX_STR_LEN }
    {
        let mut text = Text::empty();
        text.push_number(n);
        text
    }

    // The same, behind what is written.
    fn push_number<I: Integer>(&mut self, n: I)
        requires { length (shown self.old) + I.MAX_STR_LEN ≤ 47 }
        ensures after { shown self.new ≡ shown self.old ++ I.text n }
        ensures room { length (shown self.new) ≤ length (shown self.old) + I.MAX_STR_LEN }
    {
        self.text.push_str(Buffer::new().format(n));
    }

    // A comma.
    fn push_comma(&mut self)
        requires { length (shown self.old) + 1 ≤ 47 }
        ensures { shown self.new ≡ shown self.old ++ (44 ∷ []) }
    {
        self.text.push(',');
    }

    // A minus sign if the number is below 0.
    pub(crate) fn push_minus(&mut self, z: i32)
        requires { length (shown self.old) + 1 ≤ 47 }
        ensures { shown self.new ≡ shown self.old ++ minus z }
    {
        if z < 0 {
            self.text.push('-');
        }
    }

    // The whole part of n halves, and .5 if n is odd.
    pub(crate) fn push_halves(&mut self, n: u32)
        requires { length (shown self.old) + 12 ≤ 47 }
        ensures { shown self.new ≡ shown self.old ++ halves_text n }
    {
        self.push_number(n / 2);
        if n % 2 == 1 {
            self.text.push_str(".5");
        }
    }
}
