ghost use Rattle.std.specs.Prelude.{◌≡◌, ◌≤◌, length};
ghost use Rattle.league.specs.Refusals.{Begins, GoesOn, Prints, SameSize, Step};
ghost use Rattle.league.specs.Sheets.{foot_text, head_text, owners_text, sheet_text};
ghost use Rattle.league.specs.Writing.{Wrote};

use super::fields::{put_foot, put_head, put_owners};
use super::{Begun, Footed, Headed, Listed, Size};
use crate::owner::OwnerTotal;
use crate::refusal::SheetRefusal;
use values::kind::Kind;

// The fewest bytes that a sheet is begun in.
const FEWEST: usize = 512;

// Begins a sheet in these bytes.
pub fn begin(print: &[u8]) -> Result<Begun, SheetRefusal>
    ensures { Begins (λ s. s.size.bytes) (length print.now) result }
{
    if print.len() < FEWEST {
        return Err(SheetRefusal::WrongSize);
    }
    Ok(Begun {
        size: Size { bytes: print.len() },
    })
}

// The sheet, if these are as many bytes as it began with.
fn same_size<S>(size: Size, sheet: S, print: &[u8]) -> Result<S, (S, SheetRefusal)>
    ensures { SameSize size.bytes (length print.now) sheet result }
{
    if print.len() == size.bytes {
        Ok(sheet)
    } else {
        Err((sheet, SheetRefusal::WrongSize))
    }
}

impl Begun {
    // Writes the head: T, the kind's letter, the standing links.
    pub fn head<K: Kind>(
        self,
        print: &mut [u8],
        standing: u16,
    ) -> Result<Headed, (Begun, SheetRefusal)>
        ensures { Step self (GoesOn self.size.bytes (length print.old)) print.old print.new (λ s. (s.size.bytes ≡ self.size.bytes) × Wrote print.old 0 (head_text K.capital standing) s.len print.new) result }
    {
        let sheet = same_size(self.size, self, print)?;
        let len = put_head(print, K::letter(), standing);
        Ok(Headed {
            size: sheet.size,
            len,
        })
    }
}

impl Headed {
    // Writes a line for each of owners 1 to 7: owner, links, total, league points, place.
    pub fn list<K: Kind>(
        self,
        print: &mut [u8],
        owners: &[OwnerTotal<K>; 7],
    ) -> Result<Listed, (Headed, SheetRefusal)>
        ensures { Step self (GoesOn self.size.bytes (length print.old)) print.old print.new (λ s. (s.size.bytes ≡ self.size.bytes) × Wrote print.old self.len (owners_text K.columns K.weigh K.text owners.now) s.len print.new) result }
    {
        let sheet = same_size(self.size, self, print)?;
        let len = put_owners(print, sheet.len, owners);
        Ok(Listed {
            size: sheet.size,
            len,
        })
    }
}

impl Listed {
    // Writes the foot: Z and 7.
    pub fn foot(self, print: &mut [u8]) -> Result<Footed, (Listed, SheetRefusal)>
        ensures { Step self (GoesOn self.size.bytes (length print.old)) print.old print.new (λ s. Wrote print.old self.len foot_text s.written print.new) result }
    {
        let sheet = same_size(self.size, self, print)?;
        let written = put_foot(print, sheet.len);
        Ok(Footed { written })
    }
}

impl Footed {
    // How many bytes the sheet has: at most 504.
    pub fn len(&self) -> usize
        ensures is { result ≡ self.now.written }
        ensures bound { result ≤ 504 }
    {
        self.written
    }
}

// Writes a whole sheet, and returns how many bytes it has.
pub fn print_sheet<K: Kind>(
    print: &mut [u8],
    standing: u16,
    owners: &[OwnerTotal<K>; 7],
) -> Result<usize, SheetRefusal>
    ensures { Prints print.old (sheet_text K.capital K.columns K.weigh K.text standing owners.now) print.new result }
{
    let headed = begin(print)?.head::<K>(print, standing)?;
    let listed = headed.list(print, owners)?;
    let footed = listed.foot(print)?;
    Ok(footed.len())
}
