use crate::columns::Columns;

pub mod kind;

// Points, counted in halves.
#[derive(Clone, Copy, Debug, PartialEq, Eq)]
pub struct Points {
    columns: Columns<1>,
}
