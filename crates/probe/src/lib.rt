// Nodes in the table of slots: found, or put where the search for them ends.
#![tactic(auto)]

ghost use Rattle.std.specs.Prelude.{◌≡◌, ℕ, ◌+◌, ◌<◌, ◌≤◌, true, false, ◌≢◌};
ghost use Rattle.model.specs.Squares.{living};
ghost use Rattle.nodes.specs.Nodes.{Sound};
ghost use Rattle.slots.specs.Stores.{mem, Same, Fixed, Cut, Laid, Good, table};
ghost use Rattle.probe.specs.Adding.{Added};
ghost use Rattle.probe.specs.Places.{Proper, square_in, Found, Filled, Countable, counts_of};

use model::Quarters;
use nodes::Node;
use slots::{SlotWord, State, Store};

// Where a node is, or may be put.
#[derive(Clone, Copy, PartialEq, Eq, Debug)]
pub enum Place {
    // the slot that holds it
    Old(usize),
    // the first slot on its way that holds no square
    New(usize),
    // no slot is left
    Nowhere,
}

// Goes from the node's home from slot to slot, after the last to the first, until it is there or a slot is empty.
pub fn find(store: &Store, node: Node) -> Place
    requires laid { Laid store.now }
    requires sound { (Sound store.now.slots (table store.now)) × (2 ≤ node.state) }
    ensures { Found store.now.slots (table store.now) node result }
{
    let mut spot = None;
    let home = store.home(node);
    for slot in (home..store.slots).chain(0..home) {
        match store.state(slot) {
            State::Empty => return Place::New(spot.unwrap_or(slot)),
            State::Free => spot = spot.or(Some(slot)),
            State::Square(_) => {
                let other = store.node(slot);
                if other == node {
                    return Place::Old(slot);
                }
            }
        }
    }
    match spot {
        Some(slot) => Place::New(slot),
        None => Place::Nowhere,
    }
}

// The number of a node: found, or made if there is room for it. If not, at least three quarters of the slots hold squares, and nothing was changed.
pub fn add(store: &mut Store, node: Node) -> Option<usize>
    requires good { Good store.old }
    requires proper { Proper store.old.slots (table store.old) node }
    ensures same { Same store.old store.new }
    ensures cut { Cut store.old store.new }
    ensures good { Good store.new }
    ensures added { Added store.old store.new node result }
{
    match find(store, node) {
        Place::Old(slot) => Some(slot),
        Place::New(slot) => {
            if store.left == 0 {
                return None;
            }
            let count = count_of(store, node);
            fill(store, slot, node, count);
            store.left -= 1;
            Some(slot)
        }
        Place::Nowhere => None,
    }
}

// How many cells live in the square of a node.
fn count_of(store: &Store, node: Node) -> u128
    requires good { Good store.now }
    requires proper { Proper store.now.slots (table store.now) node }
    ensures { (d : ℕ) → node.state ≡ d + 2 → result ≡ living (square_in (table store.now) d node) }
{
    if node.is_leaf() {
        return u128::from(leaf::count(node.upper));
    }
    sum_counts(store, node.quarters())
}

fn sum_counts(store: &Store, quarters: Quarters<usize>) -> u128
    requires laid { Laid store.now }
    requires within { Countable store.now.at store.now.slots (mem store.now) quarters }
    ensures { result ≡ counts_of store.now.at (mem store.now) quarters }
{
    let upper = store.count(quarters.nw) + store.count(quarters.ne);
    let lower = store.count(quarters.sw) + store.count(quarters.se);
    upper + lower
}

// Puts a node with its count into a slot, without notes.
fn fill(store: &mut Store, slot: usize, node: Node, count: u128)
    requires laid { Laid store.old }
    requires within { slot < store.old.slots }
    ensures same { Same store.old store.new }
    ensures fixed { Fixed store.old store.new }
    ensures filled { Filled store.old.at slot node count (mem store.old) (mem store.new) }
{
    store.set_word(slot, SlotWord::Tag, node.state);
    store.set_word(slot, SlotWord::Upper, node.upper);
    store.set_word(slot, SlotWord::Lower, node.lower);
    store.set_word(slot, SlotWord::LeapNote, 0);
    store.set_word(slot, SlotWord::FurtherNote, 0);
    store.set_word(slot, SlotWord::CountLow, (count % (1 << 64)) as u64);
    store.set_word(slot, SlotWord::CountHigh, (count >> 64) as u64);
}
