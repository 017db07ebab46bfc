ghost use Rattle.std.specs.Prelude.{◌≡◌, ◌<◌, ◌^◌};
ghost use Rattle.slots.specs.Slots.{number_of, NotedIn, word_of};

// In a note's word the exponent and 1 is below the first of these, and the square's number below the second; the rest is the rule's stamp. No word of a note is 0.
const KINDS: u64 = 1 << 7;

const NUMBERS: u64 = 1 << 26;

// The words of a slot: its tag, the halves of its node, the noted leap, a further note, and the count.
#[derive(Clone, Copy, PartialEq, Eq, Debug)]
pub enum SlotWord {
    Tag,
    Upper,
    Lower,
    LeapNote,
    FurtherNote,
    CountLow,
    CountHigh,
}

// What a slot holds. A search ends at an empty slot and goes on past a free one.
#[derive(Clone, Copy, PartialEq, Eq, Debug)]
pub enum State {
    Empty,
    Free,
    // a square of this depth
    Square(usize),
}

impl From<u64> for State {
    ghost from_gives = { λ number state. number_of state ≡ number };

    fn from(number: u64) -> State {
        match number {
            0 => State::Empty,
            1 => State::Free,
            _ => State::Square(number as usize - 2),
        }
    }
}

impl State {
    // The number that stands for it in a tag.
    pub(crate) fn number(self) -> u64
        requires { number_of self < 2 ^ 64 }
        ensures { result ≡ number_of self }
    {
        match self {
            State::Empty => 0,
            State::Free => 1,
            State::Square(depth) => depth as u64 + 2,
        }
    }
}

// The leap of a square by 2^exponent generations, noted with the square.
#[derive(Clone, Copy, PartialEq, Eq, Debug)]
pub struct Note {
    pub exponent: usize,
    // the number of the square that the leap is
    pub number: usize,
    // tells the rule from all others
    pub stamp: u64,
}

impl Note {
    pub fn in_word(word: u64) -> Option<Note>
        ensures { NotedIn word result }
    {
        let exponent = (word % KINDS).checked_sub(1)?;
        Some(Note {
            exponent: exponent as usize,
            number: (word / KINDS % NUMBERS) as usize,
            stamp: word / (KINDS * NUMBERS),
        })
    }

    pub fn word(self) -> u64
        requires { (self.exponent < 127) × ((self.number < 2 ^ 26) × (self.stamp < 2 ^ 31)) }
        ensures { result ≡ word_of self }
    {
        self.exponent as u64 + 1 + KINDS * self.number as u64 + KINDS * NUMBERS * self.stamp
    }
}
