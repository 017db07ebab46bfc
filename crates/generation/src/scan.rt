ghost use Rattle.std.specs.Prelude.{◌≡◌, ℕ, ◌+◌, ◌*◌, ◌^◌, ◌<◌, ◌≤◌, min, true, false, List, length, ◌==◌, ◌≢◌};
ghost use Rattle.lent.specs.Lists.{words_of, stretch_of, cells_of};
ghost use Rattle.lent.specs.Stretches.{to_z, row_at, Listed};
ghost use Rattle.lent.specs.declared.Stretch.{Stretch};
ghost use Rattle.model.specs.Rules.{Rule, as_one, becomes};
ghost use Rattle.model.specs.Cells.{lives};
ghost use Rattle.generation.specs.Scan.{head_of, CursorAt, Window, Ready, Skipped, weight, plane_next, RowsAt, RowsSkipped, rows_left};

use lent::CellList;

// The head of a row that has ended: above any column.
const END: u64 = u64::MAX;

// Goes through the cells of one row: those from `at` to before `end` are left, `head` is the column of the first.
#[derive(Clone, Copy)]
pub struct Cursor {
    row: u64,
    at: usize,
    end: usize,
    head: u64,
}

fn head(list: CellList, at: usize, end: usize) -> u64
    requires { end ≤ (stretch_of list).len }
    ensures { result ≡ head_of (words_of list.entry) (stretch_of list.entry) at end }
{
    if at < end { list.at(at).column } else { END }
}

impl Cursor {
    fn new(list: CellList, row: u64, at: usize, end: usize) -> Cursor
        requires { end ≤ (stretch_of list).len }
        ensures { result ≡ record { row = row; at = at; end = end; head = head_of (words_of list.entry) (stretch_of list.entry) at end } }
    {
        Cursor {
            row,
            at,
            end,
            head: head(list, at, end),
        }
    }

    // Whether the row's cell in column x lives. The cursor moves on to the next column.
    fn take(&mut self, list: CellList, x: u64) -> bool
        requires { (CursorAt (words_of list) (stretch_of list) x self.old) × (x < 2 ^ 63) }
        ensures hit { result ≡ (self.old.head == x) }
        ensures lives { result ≡ lives (to_z x) (to_z self.old.row) (cells_of list.entry) }
        ensures moved { CursorAt (words_of list.entry) (stretch_of list.entry) (x + 1) self.new }
        ensures row { self.new.row ≡ self.old.row }
        ensures end { self.new.end ≡ self.old.end }
        ensures at { self.new.at ≡ self.old.at + as_one result }
    {
        if self.head != x {
            return false;
        }
        let at = self.at + 1;
        self.at = at;
        self.head = head(list, at, self.end);
        true
    }
}

// The window over three rows: `left` and `middle` count the living cells of its columns x and x + 1, `alive` is its centre,
// and the cursors stand at its right column.
#[derive(Clone, Copy)]
pub struct Sweep {
    above: Cursor,
    here: Cursor,
    below: Cursor,
    pub x: u64,
    left: u32,
    middle: u32,
    alive: bool,
}

// A cell as the rule sees it.
#[derive(Clone, Copy)]
pub struct Spot {
    pub alive: bool,
    pub neighbours: u32,
}

impl Sweep {
    // Left of all cells of the three rows.
    pub fn start(list: CellList, rows: Rows) -> Sweep
        requires { RowsAt (words_of list) (stretch_of list) rows }
        ensures window { Window (words_of list.entry) (stretch_of list.entry) result }
        ensures row { result.above.row ≡ rows.top }
        ensures x { result.x ≡ 0 }
    {
        Sweep {
            above: Cursor::new(list, rows.top, rows.a, rows.b),
            here: Cursor::new(list, rows.top + 1, rows.b, rows.c),
            below: Cursor::new(list, rows.top + 2, rows.c, rows.d),
            x: 0,
            left: 0,
            middle: 0,
            alive: false,
        }
    }

    // Moves on to the next column with a living cell within reach; false if there is none.
    pub fn skip(&mut self) -> bool
        ensures { (m : List ℕ) (s : Stretch) → Listed m s → Window m s self.old → Skipped m s self.old self.new result }
    {
        if self.left > 0 {
            return true;
        }
        if self.middle > 0 {
            return true;
        }
        let first = self.above.head.min(self.here.head).min(self.below.head);
        if first == END {
            return false;
        }
        self.x = first.saturating_sub(2);
        true
    }

    // The row whose cells are worked out.
    pub fn row(&self) -> u64
        ensures { result ≡ self.now.here.row }
    {
        self.here.row
    }

    // The centre of the window, which moves on by one column.
    pub fn slide(&mut self, list: CellList) -> Spot
        requires { (Window (words_of list) (stretch_of list) self.old) × (Ready self.old) }
        ensures window { Window (words_of list.entry) (stretch_of list.entry) self.new }
        ensures x { self.new.x ≡ self.old.x + 1 }
        ensures row { self.new.above.row ≡ self.old.above.row }
        ensures fate { (law : Rule) → plane_next law (words_of list.entry) (stretch_of list.entry) (to_z (self.old.x + 1)) (to_z self.old.here.row) ≡ becomes law result.alive result.neighbours }
        ensures few { result.neighbours ≤ 8 }
        ensures falls { weight self.new < weight self.old }
    {
        let x = self.x + 2;
        let above = self.above.take(list, x);
        let here = self.here.take(list, x);
        let below = self.below.take(list, x);
        let right = u32::from(above) + u32::from(here) + u32::from(below);
        let neighbours = self.left + self.middle + right - u32::from(self.alive);
        let spot = Spot {
            alive: self.alive,
            neighbours,
        };
        self.x += 1;
        self.left = self.middle;
        self.middle = right;
        self.alive = here;
        spot
    }
}

// Three rows of the list, top, top + 1 and top + 2: their cells lie from a to b, from b to c and from c to d.
#[derive(Clone, Copy)]
pub struct Rows {
    pub top: u64,
    a: usize,
    b: usize,
    c: usize,
    d: usize,
}

// Where the row of the cells from `at` on ends.
fn row_end(list: CellList, at: usize, row: u64) -> usize
    requires { at ≤ (stretch_of list).len }
    ensures low { at ≤ result }
    ensures high { result ≤ (stretch_of list.entry).len }
    ensures inside { (k : ℕ) → at ≤ k → k < result → row_at (words_of list.entry) (stretch_of list.entry).at k ≡ row }
    ensures ends { result < (stretch_of list.entry).len → row_at (words_of list.entry) (stretch_of list.entry).at result ≢ row }
{
    let end = list.len();
    (at..end).find(|i| list.at(*i).row != row).unwrap_or(end)
}

impl Rows {
    // Above all cells.
    pub fn start() -> Rows
        ensures { result ≡ record { top = 0; a = 0; b = 0; c = 0; d = 0 } }
    {
        Rows {
            top: 0,
            a: 0,
            b: 0,
            c: 0,
            d: 0,
        }
    }

    // Moves on to the next rows with a cell; false if there are none.
    pub fn skip(&mut self, list: CellList) -> bool
        requires { RowsAt (words_of list) (stretch_of list) self.old }
        ensures { RowsSkipped (words_of list.entry) (stretch_of list.entry) self.old self.new result }
    {
        if self.a < self.d {
            return true;
        }
        if self.d == list.len() {
            return false;
        }
        let row = list.at(self.d).row;
        let end = row_end(list, self.d, row);
        self.top = row - 2;
        self.d = end;
        true
    }

    // The three rows that begin one lower.
    pub fn slide(&mut self, list: CellList)
        requires { (RowsAt (words_of list) (stretch_of list) self.old) × (self.old.a < self.old.d) }
        ensures rows { RowsAt (words_of list.entry) (stretch_of list.entry) self.new }
        ensures top { self.new.top ≡ self.old.top + 1 }
        ensures falls { rows_left (stretch_of list.entry) self.new < rows_left (stretch_of list.entry) self.old }
    {
        let end = row_end(list, self.d, self.top + 3);
        self.a = self.b;
        self.b = self.c;
        self.c = self.d;
        self.d = end;
        self.top += 1;
    }
}
