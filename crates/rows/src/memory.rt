// The lent memory.
ghost use Rattle.std.specs.Prelude.{◌≡◌, ℕ, ◌*◌, ◌<◌, ◌≤◌, [], length, slice_index, slice_set};
ghost use Rattle.rows.specs.Keeping.{Keeps};
ghost use Rattle.maps.specs.Past.{SameFrom};
ghost use Rattle.rows.specs.Steps.{Noted};
ghost use Rattle.rows.specs.View.{Ready, parents, queues, turns};

use maps::reading::EMPTY;

// What a search notes: at place `i`, the space that it found i-th; at a space, from where and as which it was found.
#[derive(Clone, Copy, Debug, Default, PartialEq, Eq)]
pub struct SpaceRecord {
    pub(crate) parent: u16,
    pub(crate) queue: u16,
    pub(crate) turn: u16,
}

// Space records and a table, of which `n` spaces and `k` cells to each are in use. They stay beside the slices: more may be lent.
#[derive(Drop)]
pub struct Memory<'a> {
    pub(crate) records: &'a mut [SpaceRecord],
    pub(crate) table: &'a mut [u16],
    pub(crate) n: usize,
    pub(crate) k: usize,
}

// Notes `x` as the i-th space found.
fn set_queue(records: &mut [SpaceRecord], i: usize, x: u16)
    requires { i < length records.old }
    ensures queues { queues records.new ≡ slice_set (queues records.old) i x }
    ensures parents { parents records.new ≡ parents records.old }
    ensures turns { turns records.new ≡ turns records.old }
    ensures past { (n : ℕ) → i < n → SameFrom n records.old records.new }
{
    records[i].queue = x;
}

// Notes from where, and as which, the space `x` was found.
fn set_trail(records: &mut [SpaceRecord], x: usize, parent: u16, turn: u16)
    requires { x < length records.old }
    ensures queues { queues records.new ≡ queues records.old }
    ensures parents { parents records.new ≡ slice_set (parents records.old) x parent }
    ensures turns { turns records.new ≡ slice_set (turns records.old) x turn }
    ensures past { (n : ℕ) → x < n → SameFrom n records.old records.new }
{
    let record = &mut records[x];
    record.parent = parent;
    record.turn = turn;
}

// Empties the first `count` cells.
fn empty_cells(table: &mut [u16], count: usize)
    requires { count ≤ length table.old }
    ensures empty { (i : ℕ) → i < count → slice_index table.new i ≡ 65535 }
    ensures past { SameFrom count table.old table.new }
{
    table[..count].fill(EMPTY);
}

impl Memory<'_> {
    // Empties the rows of `n` spaces, `k` cells to each.
    pub(crate) fn clear(&mut self, n: usize, k: usize)
        requires small { (n ≤ 4096) × (k ≤ 8) }
        requires room { (n ≤ length self.old.records.now) × (n * k ≤ length self.old.table.now) }
        ensures ready { Ready self.new }
        ensures n { self.new.n ≡ n }
        ensures k { self.new.k ≡ k }
        ensures none { Keeps self.new [] }
        ensures past { SameFrom (n * k) self.old.table.now self.new.table.now }
        ensures records { self.new.records.now ≡ self.old.records.now }
    {
        empty_cells(self.table, n * k);
        self.n = n;
        self.k = k;
    }

    // Moves what the cell at `last` holds to `gap`, and empties that cell. Here, since a slice behind a struct with ghost fields can't be lent on its own.
    pub(crate) fn close_gap(&mut self, gap: usize, last: usize)
        requires { (gap < length self.old.table.now) × (last < length self.old.table.now) }
        ensures table { self.new.table.now ≡
            slice_set (slice_set self.old.table.now gap (slice_index self.old.table.now last)) last 65535 }
        ensures n { self.new.n ≡ self.old.n }
        ensures k { self.new.k ≡ self.old.k }
        ensures records { self.new.records.now ≡ self.old.records.now }
    {
        self.table[gap] = self.table[last];
        self.table[last] = EMPTY;
    }

    // Notes `x`, found from `parent`, as the i-th space found.
    pub(crate) fn note_found(&mut self, i: usize, x: u16, parent: u16)
        requires room { (i < length self.old.records.now) × (x < length self.old.records.now) }
        requires small { i < 65536 }
        ensures { Noted self.old self.new i x parent }
    {
        set_queue(self.records, i, x);
        set_trail(self.records, x as usize, parent, i as u16);
    }
}
