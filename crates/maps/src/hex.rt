ghost use Rattle.std.specs.Prelude.{◌≡◌, ◌+◌, ◌-◌, ◌*◌, ◌<◌, ◌≤◌, length, Some, MatchResult};
ghost use Rattle.maps.specs.Centres.{Centred, column_of, row_of};
ghost use Rattle.maps.specs.HexLinks.{Size, hex_links, hex_meaning, space_at};
ghost use Rattle.maps.specs.Links.{pair_at};
ghost use Rattle.maps.specs.Ranges.{hex_in_range};
ghost use Rattle.maps.specs.Refusals.{size_number, space_number};

use crate::centre::{Centre, centre_at};
use crate::refusals::{SizeRefusal, SpaceRefusal};
use crate::source::Map;

// A sheet of hexes in rows. It stores its size alone and computes its links.
#[derive(Clone, Copy)]
pub struct HexSheet {
    width: u8,
    height: u8,
    ghost ok: { Size width × Size height },
}

impl HexSheet {
    // A sheet of that size; width and height are 1 to 64.
    pub fn new(width: u16, height: u16) -> Result<HexSheet, SizeRefusal>
        ensures { MatchResult result (λ s. Size width × Size height × (s.width ≡ width) × (s.height ≡ height)) (λ e. (size_number e ≡ 10) × (Size width × Size height → ⊥)) }
    {
        if width < 1 || width > 64 || height < 1 || height > 64 {
            return Err(SizeRefusal::SizeOutOfRange);
        }
        Ok(HexSheet {
            width: width as u8,
            height: height as u8,
        })
    }

    // The space in a row and a column.
    fn space(&self, row: u32, column: u32) -> u16
        requires row { row < self.now.height }
        requires column { column < self.now.width }
        ensures { result ≡ space_at self.now.width row column }
    {
        (row * self.width as u32 + column) as u16
    }

    // The row and the column of a space.
    fn place_of(&self, space: u16) -> (u8, u8)
        requires { space < self.now.width * self.now.height }
        ensures { (result.0 ≡ row_of self.now.width space) × (result.1 ≡ column_of self.now.width space) × (result.0 < 64) × (result.1 < 64) }
    {
        let width = self.width as u16;
        ((space / width) as u8, (space % width) as u8)
    }

    // The centre of a space.
    pub fn centre(&self, space: u16) -> Result<Centre, SpaceRefusal>
        ensures { MatchResult result (λ c. (space < self.now.width * self.now.height) × Centred (row_of self.now.width space) (column_of self.now.width space) c.x c.y) (λ e. (space_number e ≡ 11) × (self.now.width * self.now.height ≤ space)) }
    {
        if space >= self.width as u16 * self.height as u16 {
            return Err(SpaceRefusal::NoSuchSpace);
        }
        let (row, column) = self.place_of(space);
        Ok(centre_at(row, column))
    }

    // How many links the sheet has.
    fn count_links(&self) -> u32
        ensures { result ≡ length (hex_links self.now.width self.now.height) }
    {
        let w = self.width as u32;
        let h = self.height as u32;
        h * (w - 1) + (h - 1) * (2 * w - 1)
    }

    // The link at a place among the neighbours in rows.
    fn pair_beside(&self, place: u32) -> (u16, u16)
        requires { place < self.now.height * (self.now.width - 1) }
        ensures { Some result ≡ pair_at (hex_links self.now.width self.now.height) place }
    {
        let gaps = self.width as u32 - 1;
        let row = place / gaps;
        let column = place % gaps;
        (self.space(row, column), self.space(row, column + 1))
    }

    // The link at a place among those between rows, if there is one.
    fn pair_across(&self, place: u32) -> Option<(u16, u16)>
        ensures { result ≡ pair_at (hex_links self.now.width self.now.height) (self.now.height * (self.now.width - 1) + place) }
    {
        let steps = 2 * self.width as u32 - 1;
        let row = place / steps;
        let step = place % steps;
        if row >= self.height as u32 - 1 {
            return None;
        }
        let ahead = (step + 1) / 2;
        let behind = step / 2;
        if row % 2 == 0 {
            Some((self.space(row, ahead), self.space(row + 1, behind)))
        } else {
            Some((self.space(row, behind), self.space(row + 1, ahead)))
        }
    }
}

impl Map for HexSheet {
    ghost meaning = { λ s. hex_meaning s.width s.height };

    ghost fits = { λ s. hex_in_range s.width s.height s.ok.0 s.ok.1 };

    fn spaces(&self) -> u32 {
        self.width as u32 * self.height as u32
    }

    fn links(&self) -> u32 {
        self.count_links()
    }

    fn pair(&self, place: u32) -> Option<(u16, u16)> {
        let beside = self.height as u32 * (self.width as u32 - 1);
        if place < beside {
            return Some(self.pair_beside(place));
        }
        self.pair_across(place - beside)
    }
}
