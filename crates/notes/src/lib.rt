// Leaps are noted with squares, so that what is noted is not worked out again. A note is used only for its own rule and exponent.
#![tactic(auto)]

ghost use Rattle.std.specs.Prelude.{◌≡◌, ℕ, suc, ◌+◌, ◌*◌, ◌^◌, ◌<◌, ◌≤◌, Some, slice_set};
ghost use Rattle.nodes.specs.Memory.{base, FrontAt, GrowsAt};
ghost use Rattle.slots.specs.Stores.{mem, Same, Fixed, Good, Has};
ghost use Rattle.slots.specs.Slots.{index_of};
ghost use Rattle.notes.specs.Noting.{IsLeapOf, stamp_for, note_for, field_for, recalled, note_in};

use rules::Rule;
use slots::{Note, SlotWord, Store};

// Which leap: by 2^exponent generations under the rule.
#[derive(Clone, Copy, PartialEq, Eq, Debug)]
pub struct Leap {
    pub rule: Rule,
    pub exponent: usize,
}

impl Leap {
    // The leap of a square, if it is noted. `depth` is that of the leap, one less than the square's.
    pub fn noted(self, store: &Store, depth: usize, number: usize) -> Option<usize>
        requires good { Good store.now }
        requires square { (Has store.now (suc depth) number) × (self.exponent ≤ depth + 2) }
        ensures is { result ≡ recalled self.rule self.exponent (note_in store.now self.exponent depth number) }
        ensures leap { (l : ℕ) → result ≡ Some l → IsLeapOf store.now self depth number l }
    {
        match Note::in_word(store.word(number, field(self.exponent, depth))) {
            Some(note) if note.exponent == self.exponent && note.stamp == stamp(self.rule) => {
                Some(note.number)
            }
            _ => None,
        }
    }

    // Notes what the leap of a square is, in the place of what was noted there before.
    pub fn note(self, store: &mut Store, depth: usize, number: usize, target: usize)
        requires good { Good store.old }
        requires square { (Has store.old (suc depth) number) × (self.exponent ≤ depth + 2) }
        requires leap { IsLeapOf store.old self depth number target }
        ensures same { Same store.old store.new }
        ensures fixed { Fixed store.old store.new }
        ensures good { Good store.new }
        ensures written { mem store.new ≡ slice_set (mem store.old) (base store.old.at + 7 * number + field_for self.exponent depth) (note_for self.rule self.exponent target) }
        ensures grows { GrowsAt store.old.at store.old.slots (mem store.old) (mem store.new) }
        ensures front { FrontAt (base store.old.at) (mem store.old) (mem store.new) }
    {
        let note = pack(self.rule, self.exponent, target);
        store.set_word(number, field(self.exponent, depth), note);
    }
}

// A square of side 2^k leaps by 2^(k-2) generations at most. Its longest leap has a word of its own, and shorter ones share the next.
fn field(exponent: usize, depth: usize) -> SlotWord
    requires { depth < 128 }
    ensures { index_of result ≡ field_for exponent depth }
{
    if exponent == depth + 2 {
        SlotWord::LeapNote
    } else {
        SlotWord::FurtherNote
    }
}

fn pack(rule: Rule, exponent: usize, target: usize) -> u64
    requires { (exponent < 127) × (target < 2 ^ 26) }
    ensures { result ≡ note_for rule exponent target }
{
    let note = Note {
        exponent,
        number: target,
        stamp: stamp(rule),
    };
    note.word()
}

// Tells a rule from all others.
fn stamp(rule: Rule) -> u64
    ensures { result ≡ stamp_for rule }
{
    u64::from(rule.born()) + 512 * u64::from(rule.stays())
}
