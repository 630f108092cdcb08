ghost use Rattle.std.specs.Prelude.{◌≡◌, ℕ, ◌^◌, ◌<◌, length, slice_index};
ghost use Rattle.maps.specs.DrawnLinks.{drawn_links, drawn_meaning};
ghost use Rattle.maps.specs.Links.{pair_at};
ghost use Rattle.maps.specs.Ranges.{drawn_in_range};

use crate::source::Map;

// A map that was drawn link by link, two numbers to each.
#[derive(Clone, Copy)]
pub struct DrawnMap<'a> {
    spaces: u32,
    ends: &'a [u16],
    ghost spaces_fit: { spaces < 2 ^ 32 },
    ghost ends_fit: { (i : ℕ) → i < length ends.now → slice_index ends.now i < 2 ^ 16 },
}

impl<'a> DrawnMap<'a> {
    // A map of so many spaces, over a list of ends.
    pub fn new(spaces: u32, ends: &'a [u16]) -> DrawnMap<'a>
        ensures spaces { result.spaces ≡ spaces }
        ensures ends { result.ends.now ≡ ends.now }
    {
        DrawnMap { spaces, ends }
    }
}

// How many links a list of ends has.
fn count_links(ends: &[u16]) -> u32
    ensures { result ≡ length (drawn_links ends.now) }
{
    u32::try_from(ends.len() / 2).unwrap_or(u32::MAX)
}

// The pair at a place: the numbers from there on, taken apart as first end, second end, rest, as was asked for. A list has at most u32::MAX links.
fn pair_from(ends: &[u16], place: u32) -> Option<(u16, u16)>
    ensures { result ≡ pair_at (drawn_links ends.now) place }
{
    if place == u32::MAX {
        return None;
    }
    match ends.get(2 * place as usize..)? {
        [first, second, _rest @ ..] => Some((*first, *second)),
        _ => None,
    }
}

impl<'a> Map for DrawnMap<'a> {
    ghost meaning = { λ d. drawn_meaning d.spaces d.ends.now };

    ghost fits = { λ d. drawn_in_range d.spaces d.ends.now d.spaces_fit d.ends_fit };

    fn spaces(&self) -> u32 {
        self.spaces
    }

    fn links(&self) -> u32 {
        count_links(self.ends)
    }

    fn pair(&self, place: u32) -> Option<(u16, u16)> {
        pair_from(self.ends, place)
    }
}
