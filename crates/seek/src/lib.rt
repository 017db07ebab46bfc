// Single cells of squares in the store, by the path of quarters that leads to them.
#![tactic(auto)]

ghost use Rattle.std.specs.Prelude.{◌≡◌, suc, ◌+◌, ◌^◌, ◌<◌, ◌≤◌, Bool};
ghost use Rattle.model.specs.Squares.{Square, state_at};
ghost use Rattle.pieces.specs.Nine.{Outcome, Given};
ghost use Rattle.slots.specs.Stores.{Same, Good, Has, Is};
ghost use Rattle.seek.specs.Putting.{put_in, Task, Loose};

use leaf::{cell, with_cell};
use pieces::{quarter, while_held};
use slots::Store;
use squares::{cells, quarters};
use store::{Full, intern, intern_leaf};

// Whether the cell lives that is x to the right and y down in a square of this depth.
pub fn cell_of(store: &Store, depth: usize, number: usize, x: u64, y: u64) -> bool
    requires good { Good store.now }
    requires square { (Has store.now depth number) × (depth ≤ 60) }
    requires within { (x < 2 ^ suc (suc (suc depth))) × (y < 2 ^ suc (suc (suc depth))) }
    ensures { (q : Square Bool) → Is store.now depth number q → result ≡ state_at (suc (suc (suc depth))) q x y }
{
    if depth == 0 {
        return cell(cells(store, number), x as u32, y as u32);
    }
    let half = side(depth - 1);
    let part = quarter(store, number, (y / half) as usize, (x / half) as usize);
    cell_of(store, depth - 1, part, x % half, y % half)
}

// A cell that is put, x to the right and y down, and whether it lives then.
#[derive(Clone, Copy, PartialEq, Eq, Debug)]
pub struct Put {
    pub x: u64,
    pub y: u64,
    pub lives: bool,
}

// The number of the square that is held at a place, with the cell put. One path of squares is made anew.
#[cycle(putting)]
pub fn put_cell(store: &mut Store, depth: usize, place: usize, put: Put) -> Result<usize, Full>
    requires { Task store.old depth place put.x put.y }
    ensures same { Same store.old store.new }
    ensures put { Outcome store.old store.new depth depth place (put_in depth put.x put.y put.lives) result }
{
    if depth == 0 {
        put_in_leaf(store, place, put)
    } else {
        put_in_quarter(store, depth - 1, place, put)
    }
}

fn put_in_leaf(store: &mut Store, place: usize, put: Put) -> Result<usize, Full>
    requires { Task store.old 0 place put.x put.y }
    ensures same { Same store.old store.new }
    ensures put { Outcome store.old store.new 0 0 place (put_in 0 put.x put.y put.lives) result }
{
    let word = cells(store, store.held(place));
    intern_leaf(
        store,
        with_cell(word, put.x as u32, put.y as u32, put.lives),
    )
}

// The quarter in which the cell lies is made anew, and joins the other three; `below` is the depth of the quarters.
#[cycle(putting)]
fn put_in_quarter(store: &mut Store, below: usize, place: usize, put: Put) -> Result<usize, Full>
    requires { Task store.old (suc below) place put.x put.y }
    ensures same { Same store.old store.new }
    ensures put { Outcome store.old store.new (suc below) (suc below) place (put_in (suc below) put.x put.y put.lives) result }
{
    let half = side(below);
    let row = (put.y / half) as usize;
    let column = (put.x / half) as usize;
    let number = store.held(place);
    let old = quarter(store, number, row, column);
    let inner = Put {
        x: put.x % half,
        y: put.y % half,
        ..put
    };
    let new = put_number(store, below, old, inner)?;
    let four = quarters(store, number).with(row, column, new);
    intern(store, below, four)
}

// The same for a square that isn't held.
#[cycle(putting)]
fn put_number(store: &mut Store, depth: usize, number: usize, put: Put) -> Result<usize, Full>
    requires { Loose store.old depth number put.x put.y }
    ensures same { Same store.old store.new }
    ensures put { Given store.old store.new depth depth number (put_in depth put.x put.y put.lives) result }
{
    while_held(
        store,
        number,
        |store, place|
            requires { Task store.old depth place put.x put.y }
            ensures { Same store.old store.new × Outcome store.old store.new depth depth place (put_in depth put.x put.y put.lives) result }
        { put_cell(store, depth, place, put) },
    )
}

// How many cells wide a square of this depth is.
fn side(depth: usize) -> u64
    requires { depth ≤ 60 }
    ensures { result ≡ 2 ^ suc (suc (suc depth)) }
{
    1 << (depth + 3)
}
