// Why a hex sheet is not made.
#[derive(Clone, Copy, Debug, PartialEq, Eq)]
pub enum SizeRefusal {
    SizeOutOfRange,
}

// Why a hex sheet tells no centre.
#[derive(Clone, Copy, Debug, PartialEq, Eq)]
pub enum SpaceRefusal {
    NoSuchSpace,
}

// Why a map's list of links is not taken. A place counts from 0 in the list.
#[derive(Clone, Copy, Debug, PartialEq, Eq)]
pub enum ListRefusal {
    SizeOutOfRange,
    ShortMemory,
    EndOutOfRange { place: u32 },
    EqualEnds { place: u32 },
    RepeatedLink { place: u32 },
}
