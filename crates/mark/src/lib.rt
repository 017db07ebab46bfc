// The first part of a collection: the squares that are needed are marked.
#![tactic(auto)]

ghost use Rattle.std.specs.Prelude.{ℕ, ◌<◌, ◌≤◌, All};
ghost use Rattle.nodes.specs.Nodes.{Sound};
ghost use Rattle.nodes.specs.Memory.{Marked, held_in};
ghost use Rattle.nodes.specs.Marking.{MarksAt};
ghost use Rattle.slots.specs.Stores.{mem, Same, Fixed, Laid, table, Closed, Has};

use slots::{State, Store};

// Marks a square and all squares that it is made of. A square is marked after its quarters, so that at every moment the quarters of marked squares are marked.
#[cycle(marking)]
pub fn mark(store: &mut Store, depth: usize, number: usize)
    requires laid { Laid store.old }
    requires sound { (Sound store.old.slots (table store.old)) × (Closed store.old) }
    requires has { Has store.old depth number }
    ensures same { Same store.old store.new }
    ensures fixed { Fixed store.old store.new }
    ensures closed { Closed store.new }
    ensures marks { MarksAt store.old.at (mem store.old) (mem store.new) }
    ensures done { Marked store.old.at (mem store.new) number }
{
    if store.is_marked(number) {
        return;
    }
    if depth > 0 {
        let quarters = store.node(number).quarters();
        mark_each(store, depth - 1, &quarters.each());
    }
    store.set_marked(number);
}

// Marks squares of one depth.
#[cycle(marking)]
pub fn mark_each(store: &mut Store, depth: usize, numbers: &[usize])
    requires laid { Laid store.old }
    requires sound { (Sound store.old.slots (table store.old)) × (Closed store.old) }
    requires has { All (Has store.old depth) numbers.now }
    ensures same { Same store.old store.new }
    ensures fixed { Fixed store.old store.new }
    ensures closed { Closed store.new }
    ensures marks { MarksAt store.old.at (mem store.old) (mem store.new) }
    ensures done { All (Marked store.old.at (mem store.new)) numbers.now }
{
    for number in numbers {
        mark(store, depth, *number);
    }
}

// Marks what is held.
pub fn mark_held(store: &mut Store)
    requires laid { Laid store.old }
    requires sound { (Sound store.old.slots (table store.old)) × (Closed store.old) }
    requires held { (k : ℕ) → k < store.old.top → (held_in store.old.at (mem store.old) k < store.old.slots) × (2 ≤ (table store.old (held_in store.old.at (mem store.old) k)).state) }
    ensures same { Same store.old store.new }
    ensures fixed { Fixed store.old store.new }
    ensures closed { Closed store.new }
    ensures marks { MarksAt store.old.at (mem store.old) (mem store.new) }
    ensures done { (k : ℕ) → k < store.old.top → Marked store.old.at (mem store.new) (held_in store.old.at (mem store.old) k) }
{
    for k in 0..store.top {
        let number = store.held(k);
        let State::Square(depth) = store.state(number) else {
            unreachable!()
        };
        mark(store, depth, number);
    }
}
