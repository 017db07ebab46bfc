// A plane of at most 4,096 living cells, as a list in lent memory.
#![tactic(auto)]

ghost use Rattle.std.specs.Prelude.{◌≡◌, ◌<◌, not, T, MatchBool};
ghost use Rattle.model.specs.Cells.{put};
ghost use Rattle.model.specs.World.{far, most_cells};
ghost use Rattle.lent.specs.Mem.{mem, Same};
ghost use Rattle.lent.specs.Stretches.{cells_in, Listed};
ghost use Rattle.lent.specs.Lists.{words_of, stretch_of};
ghost use Rattle.lent.specs.Entries.{cell_of};
ghost use Rattle.cells.specs.Places.{Place, Holds};
ghost use Rattle.runs.specs.Stages.{Staged};
ghost use Rattle.listplane.specs.Good.{world_on, Good};

use calls::Field;
use cells::{find, holds, insert, is_far, lives_at, remove};
use lent::{CellList, Entry, MOST_CELLS, Stretch, View, Words};
use measure::bounds;
use model::{Bounds, Cell, Period, Refusal};
use rules::Rule;
use runs::{period_list, run_list};

const FEWEST_WORDS: usize = 1 << 18;

const MOST_WORDS: usize = 1 << 28;

#[derive(Clone, Copy)]
pub struct ListPlane {
    rule: Rule,
    list: Stretch,
}

// Puts a cell that isn't in the list, or erases one that is, at its place i.
fn change(words: &mut Words, s: Stretch, i: usize, entry: Entry, lives: bool) -> Stretch
    requires staged { Staged (mem words.old) s }
    requires place { Place (mem words.old) s entry.row entry.column i }
    requires near { T (not (far (cell_of entry).x (cell_of entry).y)) }
    requires other { MatchBool lives (Holds (mem words.old) s i entry.row entry.column → ⊥) (Holds (mem words.old) s i entry.row entry.column) }
    requires room { T lives → s.len < most_cells }
    ensures same { Same words.old words.new }
    ensures staged { Staged (mem words.new) result }
    ensures cells { cells_in (mem words.new) result ≡ put (cell_of entry) lives (cells_in (mem words.old) s) }
{
    if lives {
        insert(words, s, i, entry)
    } else {
        remove(words, s, i)
    }
}

impl ListPlane {
    // Its list, to read it.
    fn cells<'a>(&self, mem: &'a [u64]) -> CellList<'a>
        requires { Listed mem.now self.now.list }
        ensures words { words_of result ≡ mem.now }
        ensures stretch { stretch_of result ≡ self.now.list }
    {
        CellList::new(View::new(mem), self.list)
    }
}

impl Field for ListPlane {
    ghost world = { world_on };

    ghost good = { Good };

    ghost sound = { λ f m g. (f.rule.good, g.listed.ordered) };

    fn room(words: usize) -> Result<(), Refusal> {
        if (FEWEST_WORDS..=MOST_WORDS).contains(&words) {
            Ok(())
        } else {
            Err(Refusal::BadMemory)
        }
    }

    fn open(mem: &mut [u64]) -> Self {
        ListPlane {
            rule: Rule::life(),
            list: Stretch { at: 0, len: 0 },
        }
    }

    fn rule(&mut self, mem: &mut [u64], born: u16, stays: u16) -> Result<(), Refusal> {
        self.rule = Rule::new(born, stays)?;
        Ok(())
    }

    fn put(&mut self, mem: &mut [u64], at: Cell, lives: bool) -> Result<(), Refusal> {
        if is_far(at) {
            return Err(Refusal::TooFar);
        }
        let entry = Entry::from_cell(at);
        let i = find(self.cells(mem), entry);
        if holds(self.cells(mem), i, entry) == lives {
            return Ok(());
        }
        if lives && self.list.len == MOST_CELLS {
            return Err(Refusal::NoRoom);
        }
        self.list = change(&mut Words::new(mem), self.list, i, entry, lives);
        Ok(())
    }

    fn run(&mut self, mem: &mut [u64], n: u64) -> Result<(), Refusal> {
        self.list = run_list(&mut Words::new(mem), self.rule, self.list, n)?;
        Ok(())
    }

    fn cell(&self, mem: &[u64], at: Cell) -> bool {
        lives_at(self.cells(mem), at)
    }

    fn count(&self, mem: &[u64]) -> u64 {
        self.list.len as u64
    }

    fn row(&self, mem: &[u64], from: Cell, out: &mut [u8]) {
        cells::row(self.cells(mem), from, out);
    }

    fn bounds(&mut self, mem: &mut [u64]) -> Option<Bounds> {
        bounds(self.cells(mem))
    }

    fn period(&mut self, mem: &mut [u64], bound: u16) -> Result<Option<Period>, Refusal> {
        period_list(&mut Words::new(mem), self.rule, self.list, bound)
    }
}
