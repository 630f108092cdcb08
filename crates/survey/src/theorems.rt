// Theorems on orders, tables and dense sets: each function's contract is one of them, and the check asks for its proof.
ghost use Rattle.survey.specs.Theorems.{NeighboursCounted, OrderedUnlessDense, TableReadsLinks};
ghost use Rattle.survey.specs.WorkedCases.{WorkedCases};

// An order exists exactly if the map is not dense.
pub fn ordered_unless_dense_stands() -> u8
    ensures { OrderedUnlessDense }
{
    0
}

// A surveyed table says yes exactly for the map's links.
pub fn table_reads_links_stands() -> u8
    ensures { TableReadsLinks }
{
    0
}

// Counting links counts neighbours.
pub fn neighbours_counted_stands() -> u8
    ensures { NeighboursCounted }
{
    0
}

// Four surveys, worked by hand.
pub fn worked_cases_stand() -> u8
    ensures { WorkedCases }
{
    0
}
