// The plain book of a board, as theory: what is proved of every run that it leads. No call.
#![tactic(auto)]

ghost use Rattle.book.specs.Theorems.{BookIsLawful};

// Replies of a plain book obey the law over runs.
pub fn book_is_lawful_stands() -> u8
    ensures { BookIsLawful }
{
    0
}
