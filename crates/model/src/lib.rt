// What a cell, a rule, a generation, a period and an answer are, and what holds of them. The definitions stand in specs/.
#![tactic(auto)]

mod quarters;

ghost use Rattle.std.specs.Prelude.{◌≡◌};
ghost use Rattle.model.specs.Answers.{number_of};
ghost use Rattle.model.specs.Promise.{ListsRight, ListsSame, Adds, ReachRight, PeriodRight, PlanesAdd, AnyRules, Main, SquaresSame, BuildRight, PaddedRight, CellsRight, PaddedCells, CountRight, RunRight, RunPadded, PutRight};
ghost use Rattle.model.specs.Rows.{RowsHold};

pub use quarters::Quarters;

// A cell of the plane: x goes to the right and y down.
#[derive(Clone, Copy, PartialEq, Eq, Debug)]
pub struct Cell {
    pub x: i64,
    pub y: i64,
}

// The box around the living cells: the columns and rows of its outermost cells.
#[derive(Clone, Copy, PartialEq, Eq, Debug)]
pub struct Bounds {
    pub left: i64,
    pub top: i64,
    pub right: i64,
    pub bottom: i64,
}

// After t generations the plane is the first one, moved by dx to the right and dy down.
#[derive(Clone, Copy, PartialEq, Eq, Debug)]
pub struct Period {
    pub t: u32,
    pub dx: i64,
    pub dy: i64,
}

// Why a call is refused.
#[derive(Clone, Copy, PartialEq, Eq, Debug)]
pub enum Refusal {
    // no rule, or one with birth from nothing
    BadRule,
    // a cell beyond the edge
    TooFar,
    // a living cell could come to lie beyond the edge
    Leaves,
    NoRoom,
    // memory that is too short or too long
    BadMemory,
    // a text of no known form
    BadForm,
    // a text whose rule is not the plane's
    OtherRule,
}

impl Refusal {
    // The number by which people know the refusal.
    pub fn number(self) -> u32
        ensures { result ≡ number_of self }
    {
        match self {
            Refusal::BadRule => 1,
            Refusal::TooFar => 2,
            Refusal::Leaves => 3,
            Refusal::NoRoom => 5,
            Refusal::BadMemory => 6,
            Refusal::BadForm => 7,
            Refusal::OtherRule => 8,
        }
    }
}

pub fn rows_stand()
    ensures { RowsHold }
{}

pub fn lists_stand()
    ensures { ListsRight × ListsSame × ReachRight }
{}

pub fn periods_stand()
    ensures { PeriodRight }
{}

// S is any type of states.
pub fn generations_stand<S>()
    ensures { Adds × PlanesAdd S }
{}

// Leaps, speed and symmetry, over any states and any local rules.
pub fn leaps_stand<S>()
    ensures { AnyRules S }
{}

// The main promise.
pub fn whole_stands()
    ensures { Main }
{}

// Squares are told by their cells, and padding changes nothing.
pub fn squares_stand<S>()
    ensures { SquaresSame S × BuildRight S × PaddedRight S }
{}

// Lists of the living cells of squares, and runs of them by leaps.
pub fn runs_stand()
    ensures { CellsRight × PaddedCells × RunRight × RunPadded }
{}

// As many cells live in a square as its list has, and a square with one state changed.
pub fn counts_stand()
    ensures { CountRight × PutRight }
{}
