// Ordered lists of cells in stretches of lent words: to find a cell, to put or erase one, to read a row.
#![tactic(auto)]

ghost use Rattle.std.specs.Prelude.{◌≡◌, ℕ, ◌+◌, ◌*◌, ◌<◌, ◌≤◌, true, false, length, pos, ◌+ℤ◌, if◌then◌else◌, MatchBool};
ghost use Rattle.model.specs.World.{far, bits};
ghost use Rattle.model.specs.Cells.{lives, put};
ghost use Rattle.lent.specs.Mem.{mem, Same};
ghost use Rattle.lent.specs.Lists.{words_of, stretch_of, cells_of};
ghost use Rattle.lent.specs.Entries.{cell_of};
ghost use Rattle.lent.specs.Stretches.{Listed, Beside, cells_in, entry, room_cells};
ghost use Rattle.cells.specs.Places.{Place, Holds, longer, shorter};

use lent::{CellList, EDGE, Entry, Stretch, Words};
use model::Cell;

pub fn is_far(cell: Cell) -> bool
    ensures { result ≡ far cell.x cell.y }
{
    cell.x.unsigned_abs() > EDGE || cell.y.unsigned_abs() > EDGE
}

// The place of a cell in the list, where it is or would have to be put.
pub fn find(list: CellList, entry: Entry) -> usize
    ensures { Place (words_of list.entry) (stretch_of list.entry) entry.row entry.column result }
{
    list.entries()
        .partition_point(|&[row, column]| Entry { row, column } < entry)
}

// Whether this is the place of a cell.
fn is_place(list: CellList, entry: Entry, i: usize) -> bool
    ensures { MatchBool result (Place (words_of list.entry) (stretch_of list.entry) entry.row entry.column i) (Place (words_of list.entry) (stretch_of list.entry) entry.row entry.column i → ⊥) }
{
    i <= list.len()
        && (i == 0 || list.at(i - 1) < entry)
        && (i == list.len() || list.at(i) >= entry)
}

// The place of a cell, with a guess that is tried first.
fn find_near(list: CellList, entry: Entry, near: usize) -> usize
    ensures { Place (words_of list.entry) (stretch_of list.entry) entry.row entry.column result }
{
    if is_place(list, entry, near) {
        near
    } else {
        find(list, entry)
    }
}

// Whether the i-th cell is that one.
pub fn holds(list: CellList, i: usize, entry: Entry) -> bool
    ensures { MatchBool result (Holds (words_of list.entry) (stretch_of list.entry) i entry.row entry.column) (Holds (words_of list.entry) (stretch_of list.entry) i entry.row entry.column → ⊥) }
{
    i < list.len() && list.at(i) == entry
}

// Whether a cell lives.
pub fn lives_at(list: CellList, cell: Cell) -> bool
    ensures { result ≡ lives cell.x cell.y (cells_of list.entry) }
{
    lives_near(list, cell, usize::MAX).0
}

// The same, with a guess at its place. Gives one for the next cell of its row too.
#[inline(always)]
fn lives_near(list: CellList, cell: Cell, near: usize) -> (bool, usize)
    ensures { result.0 ≡ lives cell.x cell.y (cells_of list.entry) }
{
    if is_far(cell) {
        return (false, near);
    }
    let entry = Entry::from_cell(cell);
    let place = find_near(list, entry, near);
    let lives = holds(list, place, entry);
    (lives, place + usize::from(lives))
}

// Puts a cell that isn't in the list at its place, i. Gives the stretch of the list afterwards.
pub fn insert(words: &mut Words, s: Stretch, i: usize, entry: Entry) -> Stretch
    requires listed { Listed (mem words.old) s }
    requires room { s.len < room_cells }
    requires place { Place (mem words.old) s entry.row entry.column i }
    requires absent { Holds (mem words.old) s i entry.row entry.column → ⊥ }
    ensures stretch { result ≡ longer s }
    ensures same { Same words.old words.new }
    ensures beside { Beside s.at (mem words.old) (mem words.new) }
    ensures cells { cells_in (mem words.new) (longer s) ≡ put (cell_of entry) true (cells_in (mem words.old) s) }
{
    words.copy_cells(s.at, i, i + 1, s.len - i);
    words.write_cell(s.at, i, entry);
    Stretch {
        at: s.at,
        len: s.len + 1,
    }
}

// Erases the cell i of the list. Gives the stretch of the list afterwards.
pub fn remove(words: &mut Words, s: Stretch, i: usize) -> Stretch
    requires listed { Listed (mem words.old) s }
    requires within { i < s.len }
    ensures stretch { result ≡ shorter s }
    ensures same { Same words.old words.new }
    ensures beside { Beside s.at (mem words.old) (mem words.new) }
    ensures cells { cells_in (mem words.new) (shorter s) ≡ put (entry (mem words.old) s.at i) false (cells_in (mem words.old) s) }
{
    words.copy_cells(s.at, i + 1, i, s.len - i - 1);
    Stretch {
        at: s.at,
        len: s.len - 1,
    }
}

// The cell i places to the right of another, as 0 or 1, with such guesses.
fn cell_byte(list: CellList, from: Cell, i: usize, near: usize) -> (u8, usize)
    ensures { result.0 ≡ (if lives (from.x +ℤ pos i) from.y (cells_of list.entry) then 1 else 0) }
{
    match from.x.checked_add_unsigned(i as u64) {
        Some(x) => {
            let (lives, next) = lives_near(list, Cell { x, y: from.y }, near);
            (u8::from(lives), next)
        }
        None => (0, near),
    }
}

// The cells of a row from this one to the right, as 0 and 1, as many as there is place for.
pub fn row(list: CellList, from: Cell, out: &mut [u8])
    ensures { out.new ≡ bits from.x from.y (length out.old) (cells_of list.entry) }
{
    // The living cells of a row follow one another in the list, so only the first has to be searched for.
    let mut near = 0;
    for (i, byte) in out.iter_mut().enumerate() {
        (*byte, near) = cell_byte(list, from, i, near);
    }
}
