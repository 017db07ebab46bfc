// Lists of cells in stretches of lent words: to compare and to measure them.
#![tactic(auto)]

ghost use Rattle.std.specs.Prelude.{◌≡◌, [], ℕ, ◌+◌, ◌<◌, ◌≤◌, Option, nat_le};
ghost use Rattle.model.specs.declared.Period.{Period};
ghost use Rattle.model.specs.Cells.{same_cells, box_of, bounds_of};
ghost use Rattle.model.specs.World.{returned, edge, size, farthest, reach};
ghost use Rattle.lent.specs.Lists.{words_of, stretch_of, cells_of};
ghost use Rattle.measure.specs.Shifts.{shift_period, shift_of};
ghost use Rattle.measure.specs.Sizes.{outness};
ghost use Rattle.measure.specs.Boxes.{widened};

use lent::{CellList, EDGE};
use model::{Bounds, Cell};

// How a list was moved: by dx to the right and dy down.
#[derive(Clone, Copy, PartialEq, Eq, Debug)]
pub struct Shift {
    pub dx: i64,
    pub dy: i64,
}

// Whether two lists have the same cells.
pub fn same(a: CellList, b: CellList) -> bool
    ensures { result ≡ same_cells (cells_of a.entry) (cells_of b.entry) }
{
    a.entries() == b.entries()
}

// From one cell to another.
fn shift_between(a: Cell, b: Cell) -> Shift
    requires first { (size a.x ≤ edge) × (size a.y ≤ edge) }
    requires second { (size b.x ≤ edge) × (size b.y ≤ edge) }
    ensures { result ≡ shift_of a b }
{
    Shift {
        dx: b.x - a.x,
        dy: b.y - a.y,
    }
}

// By how much the second list is the first one moved, if it is.
pub fn find_shift(a: CellList, b: CellList) -> Option<Shift>
    ensures { (t : ℕ) (go : Option Period) → returned t (cells_of a.entry) (cells_of b.entry) go ≡ shift_period t result go }
{
    if a.len() != b.len() {
        return None;
    }
    if a.is_empty() {
        return Some(Shift { dx: 0, dy: 0 });
    }
    let shift = shift_between(a.cell(0), b.cell(0));
    (1..a.len())
        .all(|i| shift_between(a.cell(i), b.cell(i)) == shift)
        .then_some(shift)
}

// How far out a cell lies: its larger coordinate, without sign.
fn distance(cell: Cell) -> u64
    ensures { result ≡ outness cell }
{
    cell.x.unsigned_abs().max(cell.y.unsigned_abs())
}

fn farthest_out(list: CellList) -> u64
    ensures { result ≡ farthest (cells_of list.entry) }
{
    // from the end, since a list is its first cell and the rest
    let mut most = 0u64;
    for i in (0..list.len()).rev() {
        most = most.max(distance(list.cell(i)));
    }
    most
}

// Whether what lies so far out stays inside for n generations. The sum of both may not fit a word, so this compares n with
// what is left.
fn stays_inside(out: u64, n: u64) -> bool
    requires { out ≤ edge }
    ensures { result ≡ nat_le (out + n) edge }
{
    n <= EDGE - out
}

// Whether no cell can come to lie beyond the edge in n generations.
pub fn fits(list: CellList, n: u64) -> bool
    ensures { result ≡ reach n (cells_of list.entry) }
{
    list.is_empty() || stays_inside(farthest_out(list), n)
}

// The box around one cell.
fn around(cell: Cell) -> Bounds
    ensures { result ≡ box_of cell [] }
{
    Bounds {
        left: cell.x,
        top: cell.y,
        right: cell.x,
        bottom: cell.y,
    }
}

// The box around one cell more.
fn widen(bounds: Bounds, cell: Cell) -> Bounds
    ensures { result ≡ widened bounds cell }
{
    Bounds {
        left: bounds.left.min(cell.x),
        top: bounds.top.min(cell.y),
        right: bounds.right.max(cell.x),
        bottom: bounds.bottom.max(cell.y),
    }
}

// The box around the cells; an empty list has none.
pub fn bounds(list: CellList) -> Option<Bounds>
    ensures { result ≡ bounds_of (cells_of list.entry) }
{
    if list.is_empty() {
        return None;
    }
    let mut bounds = around(list.cell(0));
    for i in (1..list.len()).rev() {
        bounds = widen(bounds, list.cell(i));
    }
    Some(bounds)
}
