// Leaps through the store: from a held square to the number of its middle, 2^exponent generations on.
//
// In all functions here `depth` is that of the leap, one less than the square's, and `below` is one less again.
#![tactic(auto)]

ghost use Rattle.std.specs.Prelude.{◌≡◌, ◌==◌, suc, ◌+◌, ◌<◌, ◌≤◌};
ghost use Rattle.slots.specs.Stores.{Same};
ghost use Rattle.holds.specs.Holding.{held};
ghost use Rattle.notes.specs.Noting.{leap_to};
ghost use Rattle.advance.specs.Advancing.{Task};
ghost use Rattle.pieces.specs.Nine.{Outcome, Given};
ghost use Rattle.advance.specs.Gathering.{whole, part, inner_of, Ready, Gathering, Joined, Rooted, Nined, Loose};

use holds::Hold;
use leaf::leap16;
use model::Quarters;
use notes::Leap;
use pieces::{middle_of, piece, while_held};
use slots::Store;
use squares::{cells, count, quarters};
use store::{Full, intern, intern_leaf};

// The leap of the square that is held at a place: noted, or worked out and noted.
#[cycle(leaping)]
pub fn advance(store: &mut Store, leap: Leap, depth: usize, place: usize) -> Result<usize, Full>
    requires { Task store.old leap depth place }
    ensures same { Same store.old store.new }
    ensures leap { Outcome store.old store.new (suc depth) depth place (leap_to leap depth) result }
{
    let number = store.held(place);
    if count(store, number) == 0 {
        return Ok(quarters(store, number).nw);
    }
    if let Some(target) = leap.noted(store, depth, number) {
        return Ok(target);
    }
    let target = work_out(store, leap, depth, place)?;
    leap.note(store, depth, number, target);
    Ok(target)
}

// The leap of a square that isn't held.
#[cycle(leaping)]
pub fn advance_number(
    store: &mut Store,
    leap: Leap,
    depth: usize,
    number: usize,
) -> Result<usize, Full>
    requires { Loose store.old leap depth number }
    ensures same { Same store.old store.new }
    ensures leap { Given store.old store.new (suc depth) depth number (leap_to leap depth) result }
{
    while_held(
        store,
        number,
        |store, place|
            requires { Task store.old leap depth place }
            ensures { Same store.old store.new × Outcome store.old store.new (suc depth) depth place (leap_to leap depth) result }
        { advance(store, leap, depth, place) },
    )
}

#[cycle(leaping)]
fn work_out(store: &mut Store, leap: Leap, depth: usize, place: usize) -> Result<usize, Full>
    requires { Task store.old leap depth place }
    ensures same { Same store.old store.new }
    ensures leap { Outcome store.old store.new (suc depth) depth place (leap_to leap depth) result }
{
    if depth == 0 {
        leap_words(store, leap, place)
    } else {
        let larger = Larger {
            leap,
            below: depth - 1,
            place,
        };
        larger.work_out(store)
    }
}

// The leap of a square of side 16.
fn leap_words(store: &mut Store, leap: Leap, place: usize) -> Result<usize, Full>
    requires { Task store.old leap 0 place }
    ensures same { Same store.old store.new }
    ensures leap { Outcome store.old store.new 1 0 place (leap_to leap 0) result }
{
    let words = quarters(store, store.held(place)).map(|number| cells(store, number));
    intern_leaf(store, leap16(leap.rule, words, 1 << leap.exponent))
}

// The leap of a larger square, of depth below + 2, that is held at a place: nine that overlap leap; of these each four that touch are put together, and leap in turn or give their middle; the four results make the whole.
#[derive(Clone, Copy)]
struct Larger {
    leap: Leap,
    below: usize,
    place: usize,
}

impl Larger {
    #[cycle(leaping)]
    fn work_out(self, store: &mut Store) -> Result<usize, Full>
        requires { Task store.old self.leap (suc self.below) self.place }
        ensures same { Same store.old store.new }
        ensures leap { Outcome store.old store.new (suc (suc self.below)) (suc self.below) self.place (whole self) result }
    {
        let mut parts = Hold::start(store);
        let target = self.join(store, &mut parts);
        parts.release(store);
        target
    }

    // Gathers the parts, and joins the last four.
    #[cycle(leaping)]
    fn join(self, store: &mut Store, parts: &mut Hold) -> Result<usize, Full>
        requires { Ready store.old parts.old self 0 }
        ensures same { Same store.old store.new }
        ensures joined { Joined store.old store.new parts.old parts.new self result }
    {
        self.gather(store, parts)?;
        let four = Quarters::of(|row, column| parts.number(store, 9 + 2 * row + column));
        intern(store, self.below, four)
    }

    // Works out the thirteen parts, and holds each.
    #[cycle(leaping)]
    fn gather(self, store: &mut Store, parts: &mut Hold) -> Result<(), Full>
        requires { Ready store.old parts.old self 0 }
        ensures same { Same store.old store.new }
        ensures gathered { Gathering store.old store.new parts.old parts.new self result }
    {
        for i in 0..9 {
            let number = self.ninth(store, i)?;
            parts.add(store, number);
        }
        for i in 0..4 {
            let number = self.quarter(store, parts, i)?;
            parts.add(store, number);
        }
        Ok(())
    }

    // The leap of one of the nine.
    #[cycle(leaping)]
    fn ninth(self, store: &mut Store, i: usize) -> Result<usize, Full>
        requires { (Rooted store.old self) × (i < 9) }
        ensures same { Same store.old store.new }
        ensures part { Outcome store.old store.new (suc (suc self.below)) self.below self.place (part self i) result }
    {
        let number = piece(store, self.below, self.place, i)?;
        advance_number(store, self.inner(), self.below, number)
    }

    // The i-th quarter of the whole leap.
    #[cycle(leaping)]
    fn quarter(self, store: &mut Store, parts: &Hold, i: usize) -> Result<usize, Full>
        requires { (Nined store.old parts.now self) × (i < 4) }
        ensures same { Same store.old store.new }
        ensures part { Outcome store.old store.new (suc (suc self.below)) self.below self.place (part self (9 + i)) result }
    {
        let first = i + i / 2;
        let four = Quarters::of(|row, column| parts.number(store, first + 3 * row + column));
        if self.is_longest() {
            let number = intern(store, self.below, four)?;
            let inner = self.inner();
            advance_number(store, inner, self.below, number)
        } else {
            middle_of(store, self.below, four)
        }
    }

    // Whether it is by the greatest power that a square of this size allows.
    fn is_longest(self) -> bool
        requires { self.below ≤ 60 }
        ensures { result ≡ (self.leap.exponent == self.below + 3) }
    {
        self.leap.exponent == self.below + 3
    }

    // The leap of each of the nine: half the way, if the whole way is the longest.
    fn inner(self) -> Leap
        requires { self.below ≤ 60 }
        ensures { result ≡ inner_of self }
    {
        if self.is_longest() {
            Leap {
                exponent: self.below + 2,
                ..self.leap
            }
        } else {
            self.leap
        }
    }
}
