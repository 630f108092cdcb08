ghost use Rattle.values.specs.Reading.{ReadsNumber};

use crate::guess::guess_number;
use crate::text::Text;

// The number up to most that is written so in decimal, if there is one: no sign, no leading zeros.
pub fn read_number(bytes: &[u8], most: u32) -> Option<u32>
    ensures { ReadsNumber most bytes.now result }
{
    guess_number(bytes, most).filter(|n| Text::from(*n).as_slice() == bytes)
}
