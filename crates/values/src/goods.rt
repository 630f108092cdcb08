use crate::columns::Columns;

pub mod kind;

// Goods of four sorts: wood, stone, ore, cloth.
#[derive(Clone, Copy, Debug, PartialEq, Eq)]
pub struct Goods {
    columns: Columns<4>,
}
