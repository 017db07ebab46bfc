// Lent memory: its words, and the stretches of them in which lists of cells lie.
#![tactic(auto)]

ghost use Rattle.std.specs.Prelude.{◌≡◌, ℕ, ◌+◌, ◌<◌, ◌≤◌, ◌^◌, ℤ, pos, neg_ℤ, ◌≤ℤ◌, length, get_or, set};
ghost use Rattle.model.specs.World.{size};
ghost use Rattle.lent.specs.Mem.{mem, seen, Same};
ghost use Rattle.lent.specs.Stretches.{to_z, with_entry, room_words, room_cells, Beside, Copied};
ghost use Rattle.lent.specs.Entries.{cell_of, Near};

mod list;

pub use list::CellList;
use model::Cell;

// No cell may lie farther out than this.
pub const EDGE: u64 = 1 << 60;

// So many cells are always held.
pub const MOST_CELLS: usize = 4096;

// The words of a place for a list, which has room for one cell more.
pub const PLACE_WORDS: usize = 2 * (MOST_CELLS + 1);

// The memory that a call is lent.
#[derive(Drop)]
pub struct Words<'a> {
    words: &'a mut [u64],
}

impl<'a> Words<'a> {
    pub fn new(lent: &'a mut [u64]) -> Self
        ensures words { mem result ≡ lent.old }
        ensures same { result.words.ghost_name ≡ lent.entry.ghost_name }
    {
        Words { words: lent }
    }

    // To read them only.
    pub fn view(&self) -> View<'_>
        ensures { seen result ≡ mem self.now }
    {
        View { lent: self.words }
    }

    pub fn read(&self, i: usize) -> u64
        requires { i < length (mem self.now) }
        ensures { result ≡ get_or (mem self.now) i 0 }
    {
        self.view().read(i)
    }

    pub fn write(&mut self, at: usize, value: u64)
        requires { at < length (mem self.old) }
        ensures after { mem self.new ≡ set (mem self.old) at value }
        ensures same { Same self.old self.new }
    {
        self.words[at] = value;
    }

    // Writes the cell i of the list that begins at the word `at`.
    pub fn write_cell(&mut self, at: usize, i: usize, entry: Entry)
        requires { (at + room_words ≤ length (mem self.old)) × (i < room_cells) }
        ensures after { mem self.new ≡ with_entry (mem self.old) at i entry.row entry.column }
        ensures same { Same self.old self.new }
    {
        let place = at + 2 * i;
        self.write(place, entry.row);
        self.write(place + 1, entry.column);
    }

    // Copies the cells from..from + n of the list that begins at the word `at` to where its cell `to` stands.
    pub fn copy_cells(&mut self, at: usize, from: usize, to: usize, n: usize)
        requires room { at + room_words ≤ length (mem self.old) }
        requires source { from + n ≤ room_cells }
        requires target { to + n ≤ room_cells }
        ensures copied { Copied at from to n (mem self.old) (mem self.new) }
        ensures beside { Beside at (mem self.old) (mem self.new) }
        ensures same { Same self.old self.new }
    {
        let first = at + 2 * from;
        self.words.copy_within(first..first + 2 * n, at + 2 * to);
    }
}

// The same for a call that only reads.
#[derive(Clone, Copy)]
pub struct View<'a> {
    lent: &'a [u64],
}

impl<'a> View<'a> {
    pub fn new(lent: &'a [u64]) -> Self
        ensures { seen result ≡ lent.now }
    {
        View { lent }
    }

    pub fn read(self, i: usize) -> u64
        requires { i < length (seen self) }
        ensures { result ≡ get_or (seen self.entry) i 0 }
    {
        self.lent[i]
    }
}

// A cell as it stands in lent memory: the words for its row and its column, by which cells are in order.
#[derive(Clone, Copy, PartialEq, Eq, PartialOrd, Ord, Debug)]
pub struct Entry {
    pub row: u64,
    pub column: u64,
}

impl Entry {
    pub fn from_cell(cell: Cell) -> Entry
        requires { (size cell.x ≤ 2 ^ 61) × (size cell.y ≤ 2 ^ 61) }
        ensures { cell_of result ≡ cell }
    {
        Entry {
            row: to_word(cell.y),
            column: to_word(cell.x),
        }
    }

    pub fn to_cell(self) -> Cell
        requires { Near self }
        ensures { result ≡ cell_of self }
    {
        Cell {
            x: to_coordinate(self.column),
            y: to_coordinate(self.row),
        }
    }
}

// A list of cells in lent memory: the word where it begins, and how many cells it has.
#[derive(Clone, Copy, PartialEq, Eq, Debug)]
pub struct Stretch {
    pub at: usize,
    pub len: usize,
}

const BIAS: i64 = 1 << 61;

// The word for a coordinate. A word can't be negative, so it is the number 2^61 larger.
pub fn to_word(z: i64) -> u64
    requires { (neg_ℤ (pos (2 ^ 61)) ≤ℤ z) × (z ≤ℤ pos (2 ^ 61)) }
    ensures { to_z result ≡ z }
{
    (z + BIAS) as u64
}

pub fn to_coordinate(word: u64) -> i64
    requires { word ≤ 2 ^ 62 }
    ensures { result ≡ to_z word }
{
    word as i64 - BIAS
}
