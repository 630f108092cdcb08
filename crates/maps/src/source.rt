ghost use Rattle.maps.specs.Links.{InRange, Meaning, pair_at};
ghost use Rattle.std.specs.Prelude.{◌≡◌, length};

// A source of maps. It stands for a number of spaces and a list of pairs, and every reply is taken from these.
pub trait Map {
    ghost meaning: { Self → Meaning };

    ghost fits: { (m : Self) → InRange (meaning m) };

    // How many spaces the map has.
    fn spaces(&self) -> u32
        ensures { result ≡ (meaning self.now).spaces };

    // How many links the map lists.
    fn links(&self) -> u32
        ensures { result ≡ length (meaning self.now).links };

    // The pair at a place of the list, from 0; absent exactly where the list has no such place.
    fn pair(&self, place: u32) -> Option<(u16, u16)>
        ensures { result ≡ pair_at (meaning self.now).links place };
}
