// The words of the store of squares: first the numbers that are held, then the slots of the table.
#![tactic(auto)]

ghost use Rattle.std.specs.Prelude.{◌≡◌, ◌+◌, ◌*◌, ◌%◌, ◌^◌, ◌<◌, leb, set, length};
ghost use Rattle.nodes.specs.Memory.{hold_room, base, word, tag, held_in, count_in};
ghost use Rattle.nodes.specs.Nodes.{home_of, limit};
ghost use Rattle.slots.specs.Stores.{mem, Same, Fixed, Laid, table};
ghost use Rattle.slots.specs.Slots.{index_of, number_of};

mod words;

use nodes::Node;
pub use words::{Note, SlotWord, State};

// So many squares can be held at a time.
pub const HOLD_ROOM: usize = 2048;

pub const SLOT_WORDS: usize = 7;

// A tag is the slot's state, below this number, and this more while a collection has it marked.
const MARK: u64 = 128;

// The key of a node is the sum of its halves, each multiplied by one of these odd numbers, which spread small differences over all bits.
const UPPER_FACTOR: u64 = 11400714819323198485;

const LOWER_FACTOR: u64 = 14029467366897019727;

// So many squares a store of that many slots has at most before a collection. Some slots stay without squares, so that searches stay short.
pub fn limit(slots: usize) -> usize
    requires { slots < 2 ^ 26 }
    ensures { result ≡ limit slots }
{
    slots - 3 * slots / 16
}

// The store for the time of a call: the memory lent to it, and its plain numbers.
#[derive(Drop)]
pub struct Store<'a> {
    words: &'a mut [u64],
    // the first of its words
    pub at: usize,
    pub slots: usize,
    // how many squares are held
    pub top: usize,
    // so many squares may still be made before a collection
    pub left: usize,
}

impl<'a> Store<'a> {
    pub fn new(lent: &'a mut [u64], at: usize, slots: usize, left: usize) -> Self
        ensures words { mem result ≡ lent.old }
        ensures same { result.words.ghost_name ≡ lent.entry.ghost_name }
        ensures numbers { (result.at ≡ at) × ((result.slots ≡ slots) × ((result.top ≡ 0) × (result.left ≡ left))) }
    {
        Store {
            words: lent,
            at,
            slots,
            top: 0,
            left,
        }
    }

    fn place(&self, slot: usize, field: SlotWord) -> usize
        requires laid { Laid self.now }
        requires within { slot < self.now.slots }
        ensures is { result ≡ base self.now.at + 7 * slot + index_of field }
        ensures room { result < length (mem self.now) }
    {
        self.at + HOLD_ROOM + SLOT_WORDS * slot + field as usize
    }

    pub fn word(&self, slot: usize, field: SlotWord) -> u64
        requires laid { Laid self.now }
        requires within { slot < self.now.slots }
        ensures { result ≡ word self.now.at (mem self.now) slot (index_of field) }
    {
        self.words[self.place(slot, field)]
    }

    pub fn set_word(&mut self, slot: usize, field: SlotWord, value: u64)
        requires laid { Laid self.old }
        requires within { slot < self.old.slots }
        ensures after { mem self.new ≡ set (mem self.old) (base self.old.at + 7 * slot + index_of field) value }
        ensures same { Same self.old self.new }
        ensures fixed { Fixed self.old self.new }
    {
        let place = self.place(slot, field);
        self.words[place] = value;
    }

    // The number that hold k keeps.
    pub fn held(&self, k: usize) -> usize
        requires laid { Laid self.now }
        requires within { k < hold_room }
        ensures { result ≡ held_in self.now.at (mem self.now) k }
    {
        self.words[self.at + k] as usize
    }

    pub fn set_held(&mut self, k: usize, number: usize)
        requires laid { Laid self.old }
        requires within { k < hold_room }
        ensures after { mem self.new ≡ set (mem self.old) (self.old.at + k) number }
        ensures same { Same self.old self.new }
        ensures fixed { Fixed self.old self.new }
    {
        let place = self.at + k;
        self.words[place] = number as u64;
    }

    // Whether a collection has marked the square in a slot.
    pub fn is_marked(&self, slot: usize) -> bool
        requires laid { Laid self.now }
        requires within { slot < self.now.slots }
        ensures { result ≡ leb 128 (tag self.now.at (mem self.now) slot) }
    {
        self.word(slot, SlotWord::Tag) >= MARK
    }

    pub fn state(&self, slot: usize) -> State
        requires laid { Laid self.now }
        requires within { slot < self.now.slots }
        ensures is { number_of result ≡ (table self.now slot).state }
        ensures room { number_of result < 128 }
    {
        State::from(self.word(slot, SlotWord::Tag) % MARK)
    }

    // Gives a slot a state, without a mark.
    pub fn set_state(&mut self, slot: usize, state: State)
        requires laid { Laid self.old }
        requires within { slot < self.old.slots }
        requires room { number_of state < 128 }
        ensures after { mem self.new ≡ set (mem self.old) (base self.old.at + 7 * slot + index_of SlotWord.Tag) (number_of state) }
        ensures same { Same self.old self.new }
        ensures fixed { Fixed self.old self.new }
    {
        self.set_word(slot, SlotWord::Tag, state.number());
    }

    // Marks the square in a slot.
    pub fn set_marked(&mut self, slot: usize)
        requires laid { Laid self.old }
        requires within { slot < self.old.slots }
        ensures after { mem self.new ≡ set (mem self.old) (base self.old.at + 7 * slot + index_of SlotWord.Tag) ((table self.old slot).state + 128) }
        ensures same { Same self.old self.new }
        ensures fixed { Fixed self.old self.new }
    {
        let state = self.state(slot);
        self.set_word(slot, SlotWord::Tag, state.number() + MARK);
    }

    pub fn node(&self, slot: usize) -> Node
        requires laid { Laid self.now }
        requires within { slot < self.now.slots }
        ensures { result ≡ table self.now slot }
    {
        Node {
            state: self.word(slot, SlotWord::Tag) % MARK,
            upper: self.word(slot, SlotWord::Upper),
            lower: self.word(slot, SlotWord::Lower),
        }
    }

    // How many cells of a square live.
    pub fn count(&self, slot: usize) -> u128
        requires laid { Laid self.now }
        requires within { slot < self.now.slots }
        ensures { result ≡ count_in self.now.at (mem self.now) slot }
    {
        let low = u128::from(self.word(slot, SlotWord::CountLow));
        let high = u128::from(self.word(slot, SlotWord::CountHigh));
        low + (high << 64)
    }

    // Where the search for a node begins: the key's upper half, brought down to the number of slots.
    pub fn home(&self, node: Node) -> usize
        requires laid { Laid self.now }
        ensures is { result ≡ home_of self.now.slots node }
        ensures within { result < self.now.slots }
    {
        let key = node
            .upper
            .wrapping_mul(UPPER_FACTOR)
            .wrapping_add(node.lower.wrapping_mul(LOWER_FACTOR));
        (((key >> 32) * self.slots as u64) >> 32) as usize
    }
}
