// The store of squares: each different square once, found by its quarters or its cells.
#![tactic(auto)]

ghost use Rattle.std.specs.Prelude.{◌≡◌, ◌+◌, ◌-◌, ◌*◌, ◌^◌, ◌<◌, ◌≤◌, length, Some, codes};
ghost use Rattle.nodes.specs.Nodes.{limit};
ghost use Rattle.nodes.specs.Memory.{FrontAt};
ghost use Rattle.slots.specs.Stores.{mem, Same, Fixed, Cut, Laid, Good, Still, table};
ghost use Rattle.probe.specs.Places.{Proper};
ghost use Rattle.probe.specs.Adding.{Grown};
ghost use Rattle.collect.specs.Collecting.{FourOf};
ghost use Rattle.store.specs.Interning.{Interned, LeafInterned, slots_in, Added, NodeKept, Cleared};

use collect::{collect, collect_but};
use model::Quarters;
use nodes::Node;
use probe::add;
use slots::{HOLD_ROOM, SLOT_WORDS, State, Store, limit};
use std::error::Error;
use std::fmt;

// The store has no room for another square.
#[derive(Clone, Copy, PartialEq, Eq, Debug)]
pub struct Full;

impl fmt::Display for Full {
    ghost output = { λ _. Some (codes "the store is full") };

    fn fmt<W: fmt::Write>(&self, f: &mut fmt::Formatter<W>) -> fmt::Result {
        f.write_str("the store is full")
    }
}

impl Error for Full {}

// A store without squares, in the words from `at` on.
pub fn open(lent: &mut [u64], at: usize) -> Store
    requires { (at + 2055 ≤ length lent.old) × (length lent.old ≤ 2 ^ 28) }
    ensures same { result.words.ghost_name ≡ lent.entry.ghost_name }
    ensures good { Good result }
    ensures numbers { (result.at ≡ at) × ((result.slots ≡ slots_in (length lent.old - at)) × ((result.top ≡ 0) × (result.left ≡ limit result.slots))) }
    ensures front { FrontAt at lent.old (mem result) }
{
    let slots = (lent.len() - at - HOLD_ROOM) / SLOT_WORDS;
    let mut store = Store::new(lent, at, slots, limit(slots));
    clear(&mut store);
    store
}

fn clear(store: &mut Store)
    requires laid { Laid store.old }
    ensures same { Same store.old store.new }
    ensures fixed { Fixed store.old store.new }
    ensures cleared { Cleared store.old.at store.old.slots (mem store.old) (mem store.new) }
{
    for slot in 0..store.slots {
        store.set_state(slot, State::Empty);
    }
}

// The number of the square with these quarters, which are squares of this depth: found, or made. If there is no room, what is neither held nor a quarter is forgotten first.
pub fn intern(store: &mut Store, depth: usize, quarters: Quarters<usize>) -> Result<usize, Full>
    requires good { Good store.old }
    requires four { (FourOf store.old depth quarters) × (depth < 60) }
    ensures same { Same store.old store.new }
    ensures good { Good store.new }
    ensures still { Still store.old.top store.old store.new }
    ensures top { store.new.top ≡ store.old.top }
    ensures is { Interned store.old store.new depth quarters result }
{
    intern_node(store, Node::four(depth, quarters))
}

// The number of the leaf with these cells.
pub fn intern_leaf(store: &mut Store, cells: u64) -> Result<usize, Full>
    requires good { Good store.old }
    ensures same { Same store.old store.new }
    ensures good { Good store.new }
    ensures still { Still store.old.top store.old store.new }
    ensures top { store.new.top ≡ store.old.top }
    ensures is { LeafInterned store.new cells result }
{
    intern_node(store, Node::leaf(cells))
}

#[inline(always)]
fn intern_node(store: &mut Store, node: Node) -> Result<usize, Full>
    requires good { Good store.old }
    requires proper { Proper store.old.slots (table store.old) node }
    ensures same { Same store.old store.new }
    ensures good { Good store.new }
    ensures still { Still store.old.top store.old store.new }
    ensures top { store.new.top ≡ store.old.top }
    ensures added { Added store.old store.new node result }
{
    if let Some(number) = add(store, node) {
        return Ok(number);
    }
    make_room(store, node);
    add_again(store, node)
}

// Forgets what is neither held nor a quarter of the node.
fn make_room(store: &mut Store, node: Node)
    requires good { Good store.old }
    requires proper { Proper store.old.slots (table store.old) node }
    ensures same { Same store.old store.new }
    ensures good { Good store.new }
    ensures still { Still store.old.top store.old store.new }
    ensures top { store.new.top ≡ store.old.top }
    ensures kept { NodeKept store.old store.new node }
{
    if node.is_leaf() {
        collect(store);
    } else {
        let quarters = node.quarters();
        collect_but(store, node.depth() - 1, quarters);
    }
}

// Adds a node after a collection. Where that left little room the store is full, or else every few squares would cost a collection.
fn add_again(store: &mut Store, node: Node) -> Result<usize, Full>
    requires good { Good store.old }
    requires proper { Proper store.old.slots (table store.old) node }
    ensures same { Same store.old store.new }
    ensures cut { Cut store.old store.new }
    ensures good { Good store.new }
    ensures grown { Grown store.old store.new }
    ensures added { Added store.old store.new node result }
{
    if store.left < store.slots / 16 {
        return Err(Full);
    }
    add(store, node).ok_or(Full)
}
