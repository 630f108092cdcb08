ghost use Rattle.std.specs.Prelude.{◌+◌, ◌*◌, ◌%◌, ◌<◌, false};
ghost use Rattle.maps.specs.Centres.{Centred};
ghost use Rattle.std.specs.Float.Ieee.Exact.{HasValue};

// The centre of a hex, in tile widths and tile heights.
#[derive(Clone, Copy)]
pub struct Centre {
    pub x: f32,
    pub y: f32,
}

// Half a tile to the right in odd rows.
fn column_x(row: u8, column: u8) -> f32
    requires { column < 64 }
    ensures { HasValue result false (2 * column + row % 2) 2 }
{
    let x = column as f32;
    if row % 2 == 1 { x + 0.5 } else { x }
}

fn row_y(row: u8) -> f32
    requires { row < 64 }
    ensures { HasValue result false (3 * row) 4 }
{
    0.75 * row as f32
}

// The centre of the hex in a row and a column.
pub(crate) fn centre_at(row: u8, column: u8) -> Centre
    requires row { row < 64 }
    requires column { column < 64 }
    ensures { Centred row column result.x result.y }
{
    Centre {
        x: column_x(row, column),
        y: row_y(row),
    }
}
