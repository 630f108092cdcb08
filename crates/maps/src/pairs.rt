ghost use Rattle.std.specs.Prelude.{◌≡◌, drop};
ghost use Rattle.std.specs.Iterator.{YieldsFirst, item_count};

use crate::source::Map;

// The pairs that a source lists, in list order.
#[derive(Clone, Copy)]
pub struct Pairs<'a, M> {
    map: &'a M,
    place: u32,
}

impl<'a, M: Map> Pairs<'a, M> {
    // All of them, before the first is told.
    pub fn of(map: &'a M) -> Pairs<'a, M>
        ensures map { result.map.now ≡ map.now }
        ensures all { drop result.place (M.meaning result.map.now).links ≡ (M.meaning map.now).links }
    {
        Pairs { map, place: 0 }
    }
}

impl<M: Map> Iterator for Pairs<'_, M> {
    type Item = (u16, u16);

    ghost next_gives = { YieldsFirst (λ s. drop s.place (M.meaning s.map.now).links) };

    ghost remaining = { item_count (λ s. drop s.place (M.meaning s.map.now).links) };

    fn next(&mut self) -> Option<(u16, u16)> {
        let pair = self.map.pair(self.place)?;
        self.place += 1;
        Some(pair)
    }
}
