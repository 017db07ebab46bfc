// Squares with nothing around them.
#![tactic(auto)]

ghost use Rattle.std.specs.Prelude.{◌≡◌, suc, ◌+◌, ◌<◌, ◌≤◌, false};
ghost use Rattle.model.specs.Squares.{padded};
ghost use Rattle.nodes.specs.Memory.{hold_room};
ghost use Rattle.slots.specs.Stores.{Same, Good};
ghost use Rattle.pieces.specs.Nine.{Outcome};
ghost use Rattle.pads.specs.Padding.{BlankGiven, corner_of, Framed, Starting, CornersJoined};

use holds::Hold;
use model::Quarters;
use pieces::quarter;
use slots::Store;
use store::{Full, intern, intern_leaf};

// The square of this depth in which nothing lives.
pub fn empty(store: &mut Store, depth: usize) -> Result<usize, Full>
    requires { (Good store.old) × (depth ≤ 60) }
    ensures same { Same store.old store.new }
    ensures blank { BlankGiven store.old store.new depth result }
{
    if depth == 0 {
        return intern_leaf(store, 0);
    }
    let quarter = empty(store, depth - 1)?;
    intern(store, depth - 1, Quarters::all(quarter))
}

// The i-th quarter of a padded square; `below` is the depth of the held square's quarters.
fn corner(store: &mut Store, below: usize, place: usize, i: usize) -> Result<usize, Full>
    requires { (Framed store.old below place) × (i < 4) }
    ensures same { Same store.old store.new }
    ensures corner { Outcome store.old store.new (suc below) (suc below) place (corner_of below i) result }
{
    let blank = empty(store, below)?;
    let (row, column) = (i / 2, i % 2);
    let inner = quarter(store, store.held(place), row, column);
    // it lies in the corner towards the middle
    let four = Quarters::all(blank).with(1 - row, 1 - column, inner);
    intern(store, below, four)
}

// The held square with nothing around it, twice as wide.
pub fn pad(store: &mut Store, below: usize, place: usize) -> Result<usize, Full>
    requires { (Framed store.old below place) × (store.old.top + 4 ≤ hold_room) }
    ensures same { Same store.old store.new }
    ensures padded { Outcome store.old store.new (suc below) (suc (suc below)) place (padded false (suc (suc (suc below)))) result }
{
    let mut corners = Hold::start(store);
    let whole = join_corners(store, below, place, &mut corners);
    corners.release(store);
    whole
}

fn join_corners(
    store: &mut Store,
    below: usize,
    place: usize,
    corners: &mut Hold,
) -> Result<usize, Full>
    requires { Starting store.old corners.old below place }
    ensures same { Same store.old store.new }
    ensures joined { CornersJoined store.old store.new corners.old corners.new below place result }
{
    for i in 0..4 {
        let number = corner(store, below, place, i)?;
        corners.add(store, number);
    }
    let four = Quarters::of(|row, column| corners.number(store, 2 * row + column));
    intern(store, below + 1, four)
}
