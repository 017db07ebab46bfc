ghost use Rattle.std.specs.Prelude.{◌≡◌, ◌↔◌, ◌<◌, ◌≤◌, IsTrue};
ghost use Rattle.lent.specs.Mem.{seen};
ghost use Rattle.lent.specs.Stretches.{Listed};

use crate::{Entry, Stretch, View, Words};
use model::Cell;

impl Words<'_> {
    ghost use Rattle.lent.specs.Mem.{mem};
    ghost use Rattle.lent.specs.Lists.{words_of, stretch_of};

    // The list of a stretch, to read it.
    pub fn list(&self, stretch: Stretch) -> CellList<'_>
        requires { Listed (mem self.now) stretch }
        ensures words { words_of result ≡ mem self.now }
        ensures stretch { stretch_of result ≡ stretch }
    {
        CellList::new(self.view(), stretch)
    }
}

// A list of cells in lent memory, in order and nowhere beyond the edge.
#[derive(Clone, Copy)]
pub struct CellList<'a> {
    view: View<'a>,
    stretch: Stretch,
    pub ghost listed: { Listed (seen view) stretch },
}

impl<'a> CellList<'a> {
    ghost use Rattle.model.specs.World.{size, edge};
    ghost use Rattle.lent.specs.Stretches.{entry};
    ghost use Rattle.lent.specs.Lists.{words_of, stretch_of};
    ghost use Rattle.lent.specs.Entries.{entry_at, Near, Pairs};

    pub fn new(view: View<'a>, stretch: Stretch) -> Self
        requires { Listed (seen view) stretch }
        ensures words { words_of result ≡ seen view.entry }
        ensures stretch { stretch_of result ≡ stretch }
    {
        CellList { view, stretch }
    }

    // How many cells it has.
    pub fn len(self) -> usize
        ensures { result ≡ (stretch_of self.entry).len }
    {
        self.stretch.len
    }

    pub fn is_empty(self) -> bool
        ensures { IsTrue result ↔ ((stretch_of self.entry).len ≡ 0) }
    {
        self.len() == 0
    }

    // The words of the i-th cell.
    pub fn at(self, i: usize) -> Entry
        requires { i < (stretch_of self).len }
        ensures value { result ≡ entry_at (words_of self.entry) (stretch_of self.entry).at i }
        ensures near { Near result }
    {
        let word = self.stretch.at + 2 * i;
        Entry {
            row: self.view.read(word),
            column: self.view.read(word + 1),
        }
    }

    pub fn cell(self, i: usize) -> Cell
        requires { i < (stretch_of self).len }
        ensures value { result ≡ entry (words_of self.entry) (stretch_of self.entry).at i }
        ensures near { (size result.x ≤ edge) × (size result.y ≤ edge) }
    {
        self.at(i).to_cell()
    }

    // Its cells, each as its row and its column.
    pub fn entries(self) -> &'a [[u64; 2]]
        ensures { Pairs (words_of self.entry) (stretch_of self.entry) result.now }
    {
        let Stretch { at, len } = self.stretch;
        let (pairs, _) = self.view.lent[at..at + 2 * len].as_chunks::<2>();
        pairs
    }
}
