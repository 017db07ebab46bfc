// The sweep of a collection: two passes over the slots forget the squares that are not marked. No square moves.
#![tactic(auto)]

ghost use Rattle.std.specs.Prelude.{◌≡◌, ◌||◌, ◌^◌, ◌<◌, ◌≤◌, leb, ltb};
ghost use Rattle.nodes.specs.Memory.{tag};
ghost use Rattle.nodes.specs.Marking.{MarkedAt, StaysAt};
ghost use Rattle.slots.specs.Stores.{mem, Same, Fixed, Cut, Laid, Good, table};
ghost use Rattle.slots.specs.Slots.{index_of};
ghost use Rattle.sweep.specs.Sweeps.{naming, with_trimmed, homes, Found, survey_with, TrimmedAt, RetaggedAt, SweptAt};

use slots::{Note, SlotWord, State, Store, limit};

// What the first pass finds out about the marked slots.
#[derive(Clone, Copy)]
struct Survey {
    count: usize,
    // the least home and the greatest slot of those whose search wraps around
    low: usize,
    high: usize,
}

impl Survey {
    // With one marked slot more, which comes after all those before.
    fn with_slot(self, slot: usize, home: usize) -> Survey
        requires { (self.count ≤ slot) × (slot < 2 ^ 26) }
        ensures { result ≡ survey_with self slot home }
    {
        let wraps = slot < home;
        Survey {
            count: self.count + 1,
            low: if wraps { self.low.min(home) } else { self.low },
            high: if wraps { slot } else { self.high },
        }
    }

    // Whether the search for some marked square passes a slot, where `least` is the least home of the marked slots behind it.
    // A search that doesn't wrap around passes what lies between home and square; one that does passes all from its home on, and all before the square.
    fn passes(self, slot: usize, least: usize) -> bool
        ensures { result ≡ (leb least slot || (leb self.low slot || ltb slot self.high)) }
    {
        least <= slot || self.low <= slot || slot < self.high
    }
}

// Whether the square that a word's note names is marked, if there is a note.
fn names_marked(store: &Store, word: u64) -> bool
    requires { Laid store.now }
    ensures { result ≡ naming store.now.at store.now.slots (mem store.now) word }
{
    match Note::in_word(word) {
        Some(note) => note.number < store.slots && store.is_marked(note.number),
        None => true,
    }
}

// A note stays if the square that it names does.
fn trim_note(store: &mut Store, slot: usize, field: SlotWord)
    requires laid { Laid store.old }
    requires within { slot < store.old.slots }
    ensures after { mem store.new ≡ with_trimmed store.old.at store.old.slots (mem store.old) slot (index_of field) }
    ensures same { Same store.old store.new }
    ensures fixed { Fixed store.old store.new }
{
    let note = store.word(slot, field);
    if !names_marked(store, note) {
        store.set_word(slot, field, 0);
    }
}

// The first pass, while all marks stand: trims the notes of the marked slots, and finds out how many they are and how far searches wrap around.
fn trim(store: &mut Store) -> Survey
    requires { Laid store.old }
    ensures same { Same store.old store.new }
    ensures fixed { Fixed store.old store.new }
    ensures trimmed { TrimmedAt store.old.at store.old.slots store.old.slots (mem store.old) (mem store.new) }
    ensures found { Found store.old.slots store.old.slots (tag store.old.at (mem store.old)) (homes store.old.slots (table store.old)) result }
{
    let mut survey = Survey {
        count: 0,
        low: store.slots,
        high: 0,
    };
    for slot in 0..store.slots {
        if store.is_marked(slot) {
            trim_note(store, slot, SlotWord::LeapNote);
            trim_note(store, slot, SlotWord::FurtherNote);
            survey = survey.with_slot(slot, store.home(store.node(slot)));
        }
    }
    survey
}

// The second pass: takes the marks off and empties all other slots, but for those that the search for a marked square passes.
// It goes down, so that the homes of the squares behind a slot are known when it comes to the slot.
fn retag(store: &mut Store, survey: Survey)
    requires laid { Laid store.old }
    requires found { Found store.old.slots store.old.slots (tag store.old.at (mem store.old)) (homes store.old.slots (table store.old)) survey }
    ensures same { Same store.old store.new }
    ensures fixed { Fixed store.old store.new }
    ensures retagged { RetaggedAt store.old.at store.old.slots 0 (mem store.old) (mem store.new) }
{
    let mut least = store.slots;
    for slot in (0..store.slots).rev() {
        if store.is_marked(slot) {
            least = least.min(store.home(store.node(slot)));
            store.set_state(slot, store.state(slot));
        } else if survey.passes(slot, least) {
            store.set_state(slot, State::Free);
        } else {
            store.set_state(slot, State::Empty);
        }
    }
}

// Forgets all squares that aren't marked, and takes the marks off. A note is kept if the square that it names is kept too.
pub fn sweep(store: &mut Store)
    requires { MarkedAt store.old.at store.old.slots store.old.top (mem store.old) }
    ensures same { Same store.old store.new }
    ensures cut { Cut store.old store.new }
    ensures swept { SweptAt store.old.at store.old.slots (mem store.old) (mem store.new) }
    ensures good { Good store.new }
    ensures stays { StaysAt store.old.at store.old.slots (mem store.old) (mem store.new) }
{
    let survey = trim(store);
    retag(store, survey);
    store.left = limit(store.slots) - survey.count;
}
