// The nine overlapping squares of which a leap is made, and work on a square that is held for its time.
#![tactic(auto)]

ghost use Rattle.std.specs.Prelude.{ℕ, suc, ◌+◌, ◌/◌, ◌%◌, ◌<◌, ◌≤◌, Bool};
ghost use Rattle.nodes.specs.Memory.{hold_room};
ghost use Rattle.model.specs.Squares.{Square};
ghost use Rattle.slots.specs.Stores.{Same, Good, Has, Is, table};
ghost use Rattle.holds.specs.Holding.{held, Pushed};
ghost use Rattle.pieces.specs.Nine.{quarter_at, sixteenth, ninth, Steady, Answers, MiddleGiven, Outcome, Given};
ghost use Rattle.collect.specs.Collecting.{FourOf};

use holds::Hold;
use leaf::middle;
use model::Quarters;
use slots::Store;
use squares::{cells, quarters};
use store::{Full, intern, intern_leaf};

// The quarter in this row and column, 0 or 1 each.
pub fn quarter(store: &Store, number: usize, row: usize, column: usize) -> usize
    requires good { Good store.now }
    requires within { number < store.now.slots }
    ensures { (d : ℕ) (q : Square Bool) → Is store.now (suc d) number q → Is store.now d result (quarter_at row column q) }
{
    quarters(store, number).at(row, column)
}

// The quarter of a quarter in this row and column, 0 to 3 each.
pub fn small_quarter(store: &Store, number: usize, row: usize, column: usize) -> usize
    requires good { Good store.now }
    requires has { (d : ℕ) × Has store.now (suc (suc d)) number }
    ensures { (d : ℕ) (q : Square Bool) → Is store.now (suc (suc d)) number q → Is store.now d result (sixteenth row column q) }
{
    let large = quarter(store, number, row / 2, column / 2);
    quarter(store, large, row % 2, column % 2)
}

// One of the nine, `below` being the depth of the quarters of quarters: a quarter, or put together of four of these.
pub fn piece(store: &mut Store, below: usize, place: usize, i: usize) -> Result<usize, Full>
    requires good { (Good store.old) × (below < 60) }
    requires square { (place < store.old.top) × ((Has store.old (suc (suc below)) (held store.old place)) × (i < 9)) }
    ensures same { Same store.old store.new }
    ensures good { Good store.new }
    ensures steady { Steady store.old store.new }
    ensures is { Answers (suc (suc below)) (suc below) place (ninth i) store.old store.new result }
{
    let number = store.held(place);
    let row = i / 3;
    let column = i % 3;
    if row % 2 == 0 && column % 2 == 0 {
        return Ok(quarter(store, number, row / 2, column / 2));
    }
    let four = Quarters {
        nw: small_quarter(store, number, row, column),
        ne: small_quarter(store, number, row, column + 1),
        sw: small_quarter(store, number, row + 1, column),
        se: small_quarter(store, number, row + 1, column + 1),
    };
    intern(store, below, four)
}

// The middle of four squares of this depth that lie together.
pub fn middle_of(store: &mut Store, depth: usize, four: Quarters<usize>) -> Result<usize, Full>
    requires good { Good store.old }
    requires four { (FourOf store.old depth four) × (depth < 60) }
    ensures same { Same store.old store.new }
    ensures middle { MiddleGiven store.old store.new depth four result }
{
    if depth == 0 {
        let words = four.map(|number| cells(store, number));
        return intern_leaf(store, middle(words));
    }
    let inside = Quarters {
        nw: quarters(store, four.nw).se,
        ne: quarters(store, four.ne).sw,
        sw: quarters(store, four.sw).ne,
        se: quarters(store, four.se).nw,
    };
    intern(store, depth - 1, inside)
}

// Holds a square for the time of a step, which is given the place at which it is held.
pub fn while_held<F: FnOnce(&mut Store, usize) -> Result<usize, Full>>(
    store: &mut Store,
    number: usize,
    step: F,
) -> Result<usize, Full>
    requires good { Good store.old }
    requires square { (number < store.old.slots) × (2 ≤ (table store.old number).state) }
    requires room { store.old.top < hold_room }
    requires callable { (w : _) → Good w.now → Pushed store.old w.now number → F.pre step w store.old.top }
    requires steady { (w : _) (r : _) (w' : _) → F.post step w store.old.top r w' → Same w.now w'.now × Good w'.now × Steady w.now w'.now }
    ensures same { Same store.old store.new }
    // what the step makes of the held square is made of the square with this number
    ensures given { (e d : ℕ) (f : Square Bool → Square Bool) → ((w : _) (r : _) (w' : _) → F.post step w store.old.top r w' → Outcome w.now w'.now e d store.old.top f r) → Given store.old store.new e d number f result }
{
    let place = store.top;
    let hold = Hold::take(store, number);
    let done = step(store, place);
    hold.release(store);
    done
}
