use std::alloc::{AllocError, AllocFailed, Global};
use std::fmt;
use std::str::FromStr;

// What a line of text lacks.
// By hand: no further library for four texts.
#[derive(Clone, Copy)]
pub(crate) enum Fault {
    NoDepth,
    NoGround,
    NoPair,
    NoMemory,
}

impl fmt::Display for Fault {
    fn fmt<W: fmt::Write>(&self, f: &mut fmt::Formatter<W>) -> fmt::Result {
        f.write_str(match self {
            Fault::NoDepth => "a depth is wanted, as 3",
            Fault::NoGround => "a size is wanted, as hex 3 3 or spaces 9",
            Fault::NoPair => "two spaces are wanted, as 0 1 or ? 0 1",
            Fault::NoMemory => "there is no memory for it",
        })
    }
}

impl<T: Drop> From<AllocFailed<T>> for Fault {
    fn from(_e: AllocFailed<T>) -> Fault {
        Fault::NoMemory
    }
}

impl From<AllocError> for Fault {
    fn from(_e: AllocError) -> Fault {
        Fault::NoMemory
    }
}

// What a map is made of: a hex sheet, or spaces that are linked pair by pair.
#[derive(Clone, Copy)]
pub(crate) enum Ground {
    Hex { width: u16, height: u16 },
    Drawn { spaces: u32 },
}

// A map as its text gives it, and the look-ups on its table.
#[derive(Drop)]
pub(crate) struct Request {
    pub depth: u16,
    pub ground: Ground,
    pub ends: Vec<u16>,
    pub questions: Vec<(u16, u16)>,
}

// What was read of a map so far.
#[derive(Drop)]
pub(crate) enum Stage {
    // No line: the depth comes next.
    Start,
    // The depth: the size comes next.
    Depth(u16),
    // Depth and size: links and look-ups come.
    Pairs(Request),
    // A faulty line: the rest of the map is passed over.
    Faulty,
}

// Two numbers with a space between them.
fn two_numbers(text: &str) -> Option<(u16, u16)> {
    let (first, second) = text.split_once(' ')?;
    Some((first.parse::<u16>().ok()?, second.parse::<u16>().ok()?))
}

// A size: a hex sheet's, or a number of spaces.
impl FromStr for Ground {
    type Err = Fault;

    fn from_str(line: &str) -> Result<Ground, Fault> {
        if let Some(size) = line.strip_prefix("hex ") {
            let (width, height) = two_numbers(size).ok_or(Fault::NoGround)?;
            return Ok(Ground::Hex { width, height });
        }
        let number = line.strip_prefix("spaces ").ok_or(Fault::NoGround)?;
        let spaces = number.parse::<u32>().map_err(|_| Fault::NoGround)?;
        Ok(Ground::Drawn { spaces })
    }
}

impl Request {
    // A map of which depth and size are known.
    fn new(heap: Global, depth: u16, ground: Ground) -> Request {
        Request {
            depth,
            ground,
            ends: Vec::new(heap),
            questions: Vec::new(heap),
        }
    }

    // A look-up, or a link.
    fn read_pair(&mut self, line: &str) -> Result<(), Fault> {
        if let Some(question) = line.strip_prefix("? ") {
            let pair = two_numbers(question).ok_or(Fault::NoPair)?;
            self.questions.push(pair)?;
            return Ok(());
        }
        let (first, second) = two_numbers(line).ok_or(Fault::NoPair)?;
        self.ends.extend_from_slice(&[first, second])?;
        Ok(())
    }
}

impl Stage {
    // Reads the next line of the text.
    pub(crate) fn read(self, heap: Global, line: &str) -> Result<Stage, Fault> {
        match self {
            Stage::Start => {
                let depth = line.parse::<u16>().map_err(|_| Fault::NoDepth)?;
                Ok(Stage::Depth(depth))
            }
            Stage::Depth(depth) => {
                let ground = line.parse::<Ground>()?;
                Ok(Stage::Pairs(Request::new(heap, depth, ground)))
            }
            Stage::Pairs(mut request) => {
                request.read_pair(line)?;
                Ok(Stage::Pairs(request))
            }
            Stage::Faulty => Ok(Stage::Faulty),
        }
    }
}
