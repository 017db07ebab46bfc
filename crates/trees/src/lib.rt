// Trees of squares for tests and measurements. Their cells come from a seed.
#![tactic(auto)]

mod seeds;

ghost use Rattle.std.specs.Prelude.{ℕ, Err, ◌≡◌, ◌+◌, ◌-◌, ◌*◌, ◌/◌, ◌%◌, ◌^◌, ◌<◌, ◌≤◌, if◌then◌else◌, MatchResult};
ghost use Rattle.std.specs.Result.{ForOk};
ghost use Rattle.nodes.specs.Memory.{hold_room};
ghost use Rattle.leaf.specs.AsSquares.{word_square};
ghost use Rattle.slots.specs.Stores.{Good, table};
ghost use Rattle.holds.specs.Holding.{Last};
ghost use Rattle.store.specs.Interning.{Interned};
ghost use Rattle.trees.specs.Mixed.{mix};
ghost use Rattle.trees.specs.Growing.{grown, Inside, Kept, IsFull, Made, Holds, HeldAlso, TakenOr, GroveOr, woven};

use holds::Hold;
use model::Quarters;
use seeds::FIRST_FACTOR;
pub use seeds::{Leaves, Place, mix};
use slots::Store;
use store::{Full, intern, intern_leaf};

// The tree of this depth at a place. The lowest digit of `order` to the base 4 says with which quarter to begin, the others are for the quarters.
pub fn grow(
    store: &mut Store,
    leaves: Leaves,
    depth: usize,
    place: Place,
    order: u64,
) -> Result<usize, Full>
    requires good { Good store.old }
    requires room { store.old.top + 4 * depth ≤ hold_room }
    requires inside { (depth ≤ 40) × (Inside (40 - depth) place) }
    ensures kept { Kept store.old store.new }
    ensures is { Made store.new depth (grown leaves depth place) result }
{
    if depth == 0 {
        return intern_leaf(store, leaves.cells(place));
    }
    let first = (order % 4) as usize;
    let number = grow(store, leaves, depth - 1, place.quarter(first), order / 4)?;
    let mut hold = Hold::take(store, number);
    for k in 1..4 {
        let next = place.quarter((first + k) % 4);
        let made = grow(store, leaves, depth - 1, next, order / 4);
        hold = hold_also(hold, store, made)?;
    }
    let quarters = Quarters::of(|row, column| {
        hold.number(store, (4 + 2 * row + column - first) % 4)
    });
    let made = intern(store, depth - 1, quarters);
    hold.release(store);
    made
}

// Holds what was made too, or, if the store was full, lets go of what is held.
fn hold_also(mut hold: Hold, store: &mut Store, made: Result<usize, Full>) -> Result<Hold, Full>
    requires good { Good store.old }
    requires made { ForOk made (λ i. (i < store.old.slots) × (2 ≤ (table store.old i).state)) }
    requires room { (store.old.top < hold_room) × (Last store.old hold) }
    ensures { HeldAlso store.old store.new hold made result }
{
    match made {
        Ok(number) => {
            hold.add(store, number);
            Ok(hold)
        }
        Err(full) => {
            hold.release(store);
            Err(full)
        }
    }
}

// Grows a tree and holds it.
pub fn grow_held(
    store: &mut Store,
    leaves: Leaves,
    depth: usize,
    place: Place,
    order: u64,
) -> Result<Hold, Full>
    requires good { Good store.old }
    requires room { store.old.top + 4 * depth < hold_room }
    requires inside { (depth ≤ 40) × (Inside (40 - depth) place) }
    ensures { TakenOr store.old store.new 1 depth (λ _. grown leaves depth place) result }
{
    let number = grow(store, leaves, depth, place, order)?;
    Ok(Hold::take(store, number))
}

// Grows trees one after another, none of which is held, and says how many of them took a collection.
pub fn churn(store: &mut Store, leaves: Leaves, depth: usize, trees: u64) -> Result<u64, Full>
    requires good { Good store.old }
    requires room { store.old.top + 4 * depth ≤ hold_room }
    requires inside { (depth < 20) × (trees < 2 ^ 20) }
    ensures kept { Kept store.old store.new }
    ensures most { MatchResult result (λ n. n ≤ trees) (λ _. IsFull store.new) }
{
    let tally = often(store, trees, |store, x| {
        grow(store, leaves, depth, Place { x, y: 0 }, x)
    })?;
    Ok(tally.collections)
}

// All trees that there was room for, and the refusal of the next, where one was refused.
pub struct Grove {
    pub hold: Hold,
    pub refusal: Option<Full>,
}

// Grows trees one after another and holds all of them, as long as there is room, or as many as said.
pub fn grow_many(store: &mut Store, leaves: Leaves, depth: usize, trees: u64) -> Result<Grove, Full>
    requires good { Good store.old }
    requires room { store.old.top + 4 * depth + trees ≤ hold_room }
    requires inside { (depth < 20) × (0 < trees) }
    ensures { GroveOr store.old store.new trees depth (λ x. grown leaves depth (record { x = x; y = 0 })) result }
{
    let mut hold = grow_held(store, leaves, depth, Place { x: 0, y: 0 }, 0)?;
    for x in 1..trees {
        match grow(store, leaves, depth, Place { x, y: 0 }, x) {
            Ok(number) => hold.add(store, number),
            Err(full) => {
                return Ok(Grove {
                    hold,
                    refusal: Some(full),
                });
            }
        }
    }
    Ok(Grove {
        hold,
        refusal: None,
    })
}

// So many leaves are held together, a bed; nodes are made over four of them.
const BED: u64 = 1024;

pub fn plant(store: &mut Store, seed: u64) -> Result<Hold, Full>
    requires good { Good store.old }
    requires room { store.old.top + 1024 ≤ hold_room }
    ensures { TakenOr store.old store.new 1024 0 (λ k. word_square (mix seed k)) result }
{
    let number = intern_leaf(store, mix(seed, 0))?;
    let mut hold = Hold::take(store, number);
    for k in 1..BED {
        let made = intern_leaf(store, mix(seed, k));
        hold = hold_also(hold, store, made)?;
    }
    Ok(hold)
}

// The node over four leaves of the bed; the key says which.
pub fn weave(store: &mut Store, bed: &Hold, key: u64) -> Result<usize, Full>
    requires good { Good store.old }
    requires bed { Holds store.old bed.now 1024 0 }
    ensures kept { Kept store.old store.new }
    ensures bed { Holds store.new bed.now 1024 0 }
    ensures is { Interned store.old store.new 0 (woven store.old bed.now key) result }
{
    let quarters = Quarters {
        nw: bed.number(store, (key % BED) as usize),
        ne: bed.number(store, (key / BED % BED) as usize),
        sw: bed.number(store, (key / (BED * BED) % BED) as usize),
        se: bed.number(store, (key / (BED * BED * BED) % BED) as usize),
    };
    intern(store, 0, quarters)
}

// What a loop of interns did.
#[derive(Clone, Copy, Default, PartialEq, Eq, Debug)]
pub struct Tally {
    // the sum of the numbers
    pub sum: usize,
    pub collections: u64,
}

impl Tally {
    // One intern more, which gave this number.
    fn add(&mut self, number: usize, collected: bool)
        requires { self.old.collections < 2 ^ 64 - 1 }
        ensures sum { self.new.sum ≡ (self.old.sum + number) % 2 ^ 64 }
        ensures collections { self.new.collections ≡ self.old.collections + (if collected then 1 else 0) }
    {
        self.sum = self.sum.wrapping_add(number);
        if collected {
            self.collections += 1;
        }
    }
}

// Takes a step for each turn, and tallies the numbers that come back.
fn often<F: Fn(&mut Store, u64) -> Result<usize, Full>>(
    store: &mut Store,
    turns: u64,
    step: F,
) -> Result<Tally, Full>
    requires good { Good store.old }
    requires callable { (w : _) (turn : ℕ) → turn < turns → Kept store.old w.now → F.pre step w turn }
    requires steady { (w : _) (turn : ℕ) (r : _) (w' : _) → F.post step w turn r w' → Kept w.now w'.now }
    requires full { (w : _) (turn : ℕ) (full : _) (w' : _) → F.post step w turn (Err full) w' → IsFull w'.now }
    ensures kept { Kept store.old store.new }
    ensures most { MatchResult result (λ t. t.collections ≤ turns) (λ _. IsFull store.new) }
{
    let mut tally = Tally::default();
    for turn in 0..turns {
        let left = store.left;
        let number = step(store, turn)?;
        tally.add(number, store.left > left);
    }
    Ok(tally)
}

// Interns so many nodes. The mask is a power of two less 1; so many turns and one go through all nodes that there are, in an order without order.
pub fn weave_often(store: &mut Store, bed: &Hold, turns: u64, mask: u64) -> Result<Tally, Full>
    requires good { Good store.old }
    requires bed { Holds store.old bed.now 1024 0 }
    ensures kept { Kept store.old store.new }
    ensures bed { Holds store.new bed.now 1024 0 }
    ensures most { MatchResult result (λ t. t.collections ≤ turns) (λ _. IsFull store.new) }
{
    often(store, turns, |store, turn| {
        let node = turn.wrapping_mul(FIRST_FACTOR) & mask;
        weave(store, bed, mix(node, 0))
    })
}

// Interns so many leaves, each different.
pub fn sow(store: &mut Store, seed: u64, turns: u64) -> Result<Tally, Full>
    requires good { Good store.old }
    ensures kept { Kept store.old store.new }
    ensures most { MatchResult result (λ t. t.collections ≤ turns) (λ _. IsFull store.new) }
{
    often(store, turns, |store, turn| {
        intern_leaf(store, mix(seed, turn))
    })
}
