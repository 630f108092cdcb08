ghost use Rattle.std.specs.Fmt.{decimal};
ghost use Rattle.std.specs.Prelude.{◌≡◌, Some};
ghost use Rattle.survey.specs.Refusals.{from_list, look_up_number, survey_number, survey_place, survey_text};

use maps::refusals::ListRefusal;
use std::fmt;

// Why a map is not surveyed. A place counts from 0 in the map's list of links. One flat enum, with the cases of a list's refusal again: a caller matches one level.
#[derive(Clone, Copy, Debug, PartialEq, Eq)]
pub enum SurveyRefusal {
    DepthOutOfRange,
    SizeOutOfRange,
    ShortMemory,
    EndOutOfRange { place: u32 },
    EqualEnds { place: u32 },
    RepeatedLink { place: u32 },
    Dense,
}

impl SurveyRefusal {
    // The refusal's number. A case that holds a place cannot be cast, so the numbers stand in a match.
    pub fn number(&self) -> u8
        ensures { result ≡ survey_number self.now }
    {
        match self {
            SurveyRefusal::DepthOutOfRange => 20,
            SurveyRefusal::SizeOutOfRange => 10,
            SurveyRefusal::ShortMemory => 21,
            SurveyRefusal::EndOutOfRange { .. } => 11,
            SurveyRefusal::EqualEnds { .. } => 12,
            SurveyRefusal::RepeatedLink { .. } => 13,
            SurveyRefusal::Dense => 22,
        }
    }

    // The place of the link that is refused, if it is one.
    pub fn place(&self) -> Option<u32>
        ensures { result ≡ survey_place self.now }
    {
        match self {
            SurveyRefusal::EndOutOfRange { place }
            | SurveyRefusal::EqualEnds { place }
            | SurveyRefusal::RepeatedLink { place } => Some(*place),
            _ => None,
        }
    }
}

// The refusal's number, and the place that it names.
impl fmt::Display for SurveyRefusal {
    ghost output = { λ e. Some (survey_text e) };

    fn fmt<W: fmt::Write>(&self, f: &mut fmt::Formatter<W>) -> fmt::Result {
        let number = self.number();
        match self.place() {
            Some(place) => write!(f, "{number} at link {place}"),
            None => write!(f, "{number}"),
        }
    }
}

// Why a surveyed table is not read, each with its number.
#[derive(Clone, Copy, Debug, PartialEq, Eq)]
pub enum LookUpRefusal {
    DepthOutOfRange = 20,
    SizeOutOfRange = 10,
    ShortTable = 21,
    EndOutOfRange = 11,
    EqualEnds = 12,
}

impl LookUpRefusal {
    // The refusal's number.
    pub fn number(&self) -> u8
        ensures { result ≡ look_up_number self.now }
    {
        *self as u8
    }
}

// The refusal's number.
impl fmt::Display for LookUpRefusal {
    ghost output = { λ e. Some (decimal (look_up_number e)) };

    fn fmt<W: fmt::Write>(&self, f: &mut fmt::Formatter<W>) -> fmt::Result {
        write!(f, "{}", self.number())
    }
}

// A list of links that is refused is a survey that is refused.
impl From<ListRefusal> for SurveyRefusal {
    ghost from_gives = { λ e r. r ≡ from_list e };

    fn from(e: ListRefusal) -> SurveyRefusal {
        match e {
            ListRefusal::SizeOutOfRange => SurveyRefusal::SizeOutOfRange,
            ListRefusal::ShortMemory => SurveyRefusal::ShortMemory,
            ListRefusal::EndOutOfRange { place } => SurveyRefusal::EndOutOfRange { place },
            ListRefusal::EqualEnds { place } => SurveyRefusal::EqualEnds { place },
            ListRefusal::RepeatedLink { place } => SurveyRefusal::RepeatedLink { place },
        }
    }
}
