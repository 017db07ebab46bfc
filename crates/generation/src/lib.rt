// The next generation of a list of living cells. Its time goes by the cells, not by the box around them.
#![tactic(auto)]

ghost use Rattle.std.specs.Prelude.{◌≡◌, ◌+◌, ◌<◌, ◌≤◌, length};
ghost use Rattle.lent.specs.Mem.{mem, Same};
ghost use Rattle.lent.specs.Stretches.{Listed, Beside, Apart, room_words};
ghost use Rattle.rules.specs.Laws.{law};
ghost use Rattle.generation.specs.Scan.{Window, Ready, RowsAt, Progress, Turned, RowMade, NextMade, weight, centre_of, row_start};

mod scan;

use lent::{Entry, MOST_CELLS, Stretch, Words};
use model::Refusal;
use rules::Rule;
use scan::{Rows, Sweep};

// One column: its cell is appended to the list that is being made, if it lives. Refused where that list is full.
fn turn(
    words: &mut Words,
    rule: Rule,
    from: Stretch,
    sweep: &mut Sweep,
    made: Stretch,
) -> Result<Stretch, Refusal>
    requires progress { Progress (law rule) (mem words.old) from made.at made.len (centre_of sweep.old) }
    requires window { Window (mem words.old) from sweep.old }
    requires ready { Ready sweep.old }
    ensures same { Same words.old words.new }
    ensures beside { Beside made.at (mem words.old) (mem words.new) }
    ensures row { sweep.new.above.row ≡ sweep.old.above.row }
    ensures falls { weight sweep.new < weight sweep.old }
    ensures turned { Turned (law rule) (mem words.old) (mem words.new) from made.at sweep.new result }
{
    let cell = Entry {
        row: sweep.row(),
        column: sweep.x + 1,
    };
    let spot = sweep.slide(words.list(from));
    if !rule.fate(spot.alive, spot.neighbours) {
        return Ok(made);
    }
    if made.len == MOST_CELLS {
        return Err(Refusal::NoRoom);
    }
    words.write_cell(made.at, made.len, cell);
    Ok(Stretch {
        at: made.at,
        len: made.len + 1,
    })
}

// One row, the middle one of the three: its living cells are appended to the list that is being made.
fn next_row(
    words: &mut Words,
    rule: Rule,
    from: Stretch,
    rows: Rows,
    made: Stretch,
) -> Result<Stretch, Refusal>
    requires progress { Progress (law rule) (mem words.old) from made.at made.len (row_start (rows.top + 1)) }
    requires rows { RowsAt (mem words.old) from rows }
    ensures same { Same words.old words.new }
    ensures beside { Beside made.at (mem words.old) (mem words.new) }
    ensures made { RowMade (law rule) (mem words.old) (mem words.new) from made.at (rows.top + 2) result }
{
    let mut sweep = Sweep::start(words.list(from), rows);
    let mut grown = made;
    while sweep.skip() {
        grown = turn(words, rule, from, &mut sweep, grown)?;
    }
    Ok(grown)
}

// Makes the next generation of the list `from` at the word `to`. Refused where it has more cells than are always held.
pub fn next(words: &mut Words, rule: Rule, from: Stretch, to: usize) -> Result<Stretch, Refusal>
    requires listed { Listed (mem words.old) from }
    requires room { to + room_words ≤ length (mem words.old) }
    requires apart { Apart from.at to }
    ensures same { Same words.old words.new }
    ensures beside { Beside to (mem words.old) (mem words.new) }
    ensures made { NextMade (law rule) (mem words.old) (mem words.new) from to result }
{
    let mut rows = Rows::start();
    let mut made = Stretch { at: to, len: 0 };
    while rows.skip(words.list(from)) {
        made = next_row(words, rule, from, rows, made)?;
        rows.slide(words.list(from));
    }
    Ok(made)
}
