// What is known of a square by its number: its level, its quarters or its cells, and how many of them live.
#![tactic(auto)]

ghost use Rattle.std.specs.Prelude.{Bool, ◌≡◌, ℕ, suc, ◌+◌, ◌<◌};
ghost use Rattle.model.specs.Squares.{Square, living};
ghost use Rattle.leaf.specs.AsSquares.{word_square};
ghost use Rattle.slots.specs.Stores.{Good, Has, Is, table};
ghost use Rattle.squares.specs.Parts.{QuartersOf};

use model::Quarters;
use slots::{SlotWord, State, Store};

// The side of a square is 2 to the power of its level, which is its state and 1.
pub fn level(store: &Store, number: usize) -> u64
    requires good { Good store.now }
    requires within { number < store.now.slots }
    ensures level { (d : ℕ) → Has store.now d number → result ≡ d + 3 }
    ensures state { result ≡ (table store.now number).state + 1 }
{
    match store.state(number) {
        State::Square(depth) => depth as u64 + 3,
        State::Free => 2,
        State::Empty => 1,
    }
}

// The quarters of a square that is no leaf.
pub fn quarters(store: &Store, number: usize) -> Quarters<usize>
    requires good { Good store.now }
    requires within { number < store.now.slots }
    ensures { (d : ℕ) (q : Square Bool) → Is store.now (suc d) number q → QuartersOf store.now d q result }
{
    store.node(number).quarters()
}

// The cells of a leaf.
pub fn cells(store: &Store, number: usize) -> u64
    requires good { Good store.now }
    requires within { number < store.now.slots }
    ensures { (q : Square Bool) → Is store.now 0 number q → q ≡ word_square result }
{
    store.word(number, SlotWord::Upper)
}

// How many cells live, exactly.
pub fn count(store: &Store, number: usize) -> u128
    requires good { Good store.now }
    requires within { number < store.now.slots }
    ensures { (d : ℕ) (q : Square Bool) → Is store.now d number q → result ≡ living q }
{
    store.count(number)
}
