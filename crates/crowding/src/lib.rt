// The theory of links kept in rows. Each function's contract is one theorem, and the check demands its proof.
#![tactic(auto)]

ghost use Rattle.crowding.specs.Theorems.{CanLay, Crowding, Flipped, KeptIfFair, Laid, Lifted, OneCapacity, OrderedFair, SameByPairs, TableWrites, Triangle, Turned};

// Links can be kept in rows exactly where no set holds more of them than it has cells.
pub fn kept_if_fair_stands() -> u8
    ensures { KeptIfFair }
{
    0
}

// The spaces reached, where all are full, are the smallest set that one link more overfills.
pub fn crowding_stands() -> u8
    ensures { Crowding }
{
    0
}

// A free cell that is reached makes room for one link more.
pub fn can_lay_stands() -> u8
    ensures { CanLay }
{
    0
}

// At one number of cells for every space, a set's cells are that many times its spaces.
pub fn one_capacity_stands() -> u8
    ensures { OneCapacity }
{
    0
}

// A number put into a row is one link more.
pub fn laid_stands() -> u8
    ensures { Laid }
{
    0
}

// A number taken out of a row is one link less.
pub fn lifted_stands() -> u8
    ensures { Lifted }
{
    0
}

// A link turned from one end to the other leaves the links as they were.
pub fn flipped_stands() -> u8
    ensures { Flipped }
{
    0
}

// A link turned on the way back brings the free cell one step nearer.
pub fn turned_stands() -> u8
    ensures { Turned }
{
    0
}

// Lists have the same links where each two spaces are joined as often.
pub fn same_by_pairs_stands() -> u8
    ensures { SameByPairs }
{
    0
}

// An order with few links to earlier spaces rules out crowding.
pub fn ordered_fair_stands() -> u8
    ensures { OrderedFair }
{
    0
}

// What writing and emptying a cell of a flat table does to its rows.
pub fn table_writes_stands() -> u8
    ensures { TableWrites }
{
    0
}

// A triangle fits one cell at a space, and one link more does not.
pub fn triangle_stands() -> u8
    ensures { Triangle }
{
    0
}
