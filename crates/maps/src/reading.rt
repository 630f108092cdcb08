ghost use Rattle.std.specs.Prelude.{◌≡◌, ◌+◌, ◌*◌, ◌≤◌, length};
ghost use Rattle.maps.specs.Reading.{reading, reading_rows, row};

// What an empty cell of a table holds. No Option: clients read the table as plain numbers.
pub const EMPTY: u16 = 65_535;

// Whether a link is in a table, and how many cells were read to tell. No Option: cells are read either way.
#[derive(Clone, Copy, Debug, PartialEq, Eq)]
pub struct Reading {
    pub linked: bool,
    pub cells: u32,
}

// The cells of a space's row, as far as the table has them.
fn row_of(table: &[u16], depth: u16, space: u16) -> &[u16]
    ensures { result.now ≡ row depth table.now space }
{
    let start = (space as usize * depth as usize).min(table.len());
    let end = (start + depth as usize).min(table.len());
    &table[start..end]
}

// Reads the row of `v` for `w`, then the row of `w` for `v`. A labelled loop over two rows, broken with the reply: the form that was asked for.
fn read_rows(table: &[u16], depth: u16, v: u16, w: u16) -> Reading
    ensures answer { (result.linked, result.cells) ≡ reading_rows depth table.now v w }
    ensures few { result.cells ≤ 2 * depth }
{
    let mut cells = 0u32;
    let mut row = row_of(table, depth, v);
    let mut sought = w;
    let mut last = false;
    'rows: loop {
        for cell in row {
            if *cell == EMPTY {
                break;
            }
            cells += 1;
            if *cell == sought {
                break 'rows Reading {
                    linked: true,
                    cells,
                };
            }
        }
        if last {
            break 'rows Reading {
                linked: false,
                cells,
            };
        }
        row = row_of(table, depth, w);
        sought = v;
        last = true;
    }
}

// Reads a table of cells for the link of two spaces, `depth` cells to a row.
pub fn read_link(table: &[u16], depth: u16, a: u16, b: u16) -> Reading
    ensures answer { (result.linked, result.cells) ≡ reading depth table.now a b }
    ensures few { result.cells ≤ 2 * depth }
{
    read_rows(table, depth, a.min(b), a.max(b))
}
