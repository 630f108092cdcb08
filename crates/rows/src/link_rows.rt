// Links kept in rows, with what always holds of them.
ghost use Rattle.rows.specs.View.{InFront, InNames, InSize};

pub mod calls;

use crate::memory::Memory;

// Each link lies in one cell of one of its two ends, a row has at most k filled cells, filled first, and every cell names a space.
#[derive(Drop)]
pub struct LinkRows<'a> {
    pub(crate) memory: Memory<'a>,
    ghost sizes: { InSize memory },
    ghost names: { InNames memory },
    ghost front: { InFront memory },
}
