// Runs and periods on lists of living cells.
#![tactic(auto)]

ghost use Rattle.std.specs.Prelude.{◌≡◌, ◌+◌, ◌≤◌};
ghost use Rattle.model.specs.Lists.{next_of};
ghost use Rattle.model.specs.World.{farthest, edge};
ghost use Rattle.model.specs.Answers.{Recurs};
ghost use Rattle.lent.specs.Mem.{mem, Same};
ghost use Rattle.lent.specs.Stretches.{Apart, cells_in};
ghost use Rattle.rules.specs.Laws.{law};
ghost use Rattle.runs.specs.Stages.{Placed, Staged, Kept, Stepped, ListRan, world_in};

use generation::next;
use lent::{PLACE_WORDS, Stretch, Words};
use measure::{find_shift, fits, same};
use model::{Period, Refusal};
use rules::Rule;

// A place for a list other than these two.
fn free_place(a: usize, b: usize) -> usize
    requires { (Placed a) × (Placed b) }
    ensures placed { Placed result }
    ensures first { Apart a result }
    ensures second { Apart b result }
{
    if a != 0 && b != 0 {
        0
    } else if a != PLACE_WORDS && b != PLACE_WORDS {
        PLACE_WORDS
    } else {
        2 * PLACE_WORDS
    }
}

// The next generation of the list `last`, in a place other than its own and home. Refused where it has too many cells.
fn next_stage(
    words: &mut Words,
    rule: Rule,
    home: Stretch,
    last: Stretch,
) -> Result<Stretch, Refusal>
    requires home { Staged (mem words.old) home }
    requires last { Staged (mem words.old) last }
    requires near { farthest (next_of (law rule) (cells_in (mem words.old) last)) ≤ edge }
    ensures same { Same words.old words.new }
    ensures home { Kept (mem words.old) (mem words.new) home }
    ensures last { Kept (mem words.old) (mem words.new) last }
    ensures made { Stepped (law rule) (mem words.old) (mem words.new) last result }
{
    next(words, rule, last, free_place(home.at, last.at))
}

// n generations of the list at home, which stays where it is. Stops early where nothing changes any more.
pub fn run_list(words: &mut Words, rule: Rule, home: Stretch, n: u64) -> Result<Stretch, Refusal>
    requires { Staged (mem words.old) home }
    ensures same { Same words.old words.new }
    ensures kept { Kept (mem words.old) (mem words.new) home }
    ensures ran { ListRan (law rule) n (mem words.old) (mem words.new) home result }
{
    if !fits(words.list(home), n) {
        return Err(Refusal::Leaves);
    }
    let mut last = home;
    for _ in 0..n {
        let then = next_stage(words, rule, home, last)?;
        if same(words.list(last), words.list(then)) {
            return Ok(last);
        }
        last = then;
    }
    Ok(last)
}

// The period of the list at home, up to the bound. The list stays where it is.
pub fn period_list(
    words: &mut Words,
    rule: Rule,
    home: Stretch,
    bound: u16,
) -> Result<Option<Period>, Refusal>
    requires { Staged (mem words.old) home }
    ensures same { Same words.old words.new }
    ensures kept { Kept (mem words.old) (mem words.new) home }
    ensures recurs { Recurs bound (world_in (law rule) (mem words.old) home) result }
{
    if !fits(words.list(home), u64::from(bound)) {
        return Err(Refusal::Leaves);
    }
    let mut last = home;
    for t in 1..=u32::from(bound) {
        let then = next_stage(words, rule, home, last)?;
        if let Some(shift) = find_shift(words.list(home), words.list(then)) {
            return Ok(Some(Period {
                t,
                dx: shift.dx,
                dy: shift.dy,
            }));
        }
        // Where nothing changes any more, nothing comes back.
        if same(words.list(last), words.list(then)) {
            return Ok(None);
        }
        last = then;
    }
    Ok(None)
}
