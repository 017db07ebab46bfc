// Squares as nodes in lent words, and what holds of them. The definitions stand in specs/.
#![tactic(auto)]

ghost use Rattle.std.specs.Prelude.{◌≡◌, ◌+◌, ◌^◌, ◌<◌, ◌≤◌, ◌↔◌, IsTrue};
ghost use Rattle.nodes.specs.Nodes.{SquaresOnce, first, second, pair, leaf_node, four_node, quarters_of};

use model::Quarters;

// Numbers of squares are below this; two of them stand in a word.
const NUMBERS: u64 = 1 << 32;

// What tells a square from all others: for a leaf its word of cells, else the numbers of its quarters, two in a word. The state is the depth and 2.
#[derive(Clone, Copy, PartialEq, Eq, Debug)]
pub struct Node {
    pub state: u64,
    pub upper: u64,
    pub lower: u64,
}

impl Node {
    pub fn leaf(cells: u64) -> Node
        ensures { result ≡ leaf_node cells }
    {
        Node {
            state: 2,
            upper: cells,
            lower: 0,
        }
    }

    // The node of four squares of this depth.
    pub fn four(depth: usize, quarters: Quarters<usize>) -> Node
        requires { (depth < 100) × ((quarters.nw < 2 ^ 32) × ((quarters.ne < 2 ^ 32) × ((quarters.sw < 2 ^ 32) × (quarters.se < 2 ^ 32)))) }
        ensures { result ≡ four_node depth quarters.nw quarters.ne quarters.sw quarters.se }
    {
        Node {
            state: depth as u64 + 3,
            upper: pair(quarters.nw, quarters.ne),
            lower: pair(quarters.sw, quarters.se),
        }
    }

    pub fn is_leaf(self) -> bool
        ensures { IsTrue result ↔ (self.state ≡ 2) }
    {
        self.state == 2
    }

    // How often its square is cut until leaves are reached.
    pub fn depth(self) -> usize
        requires { 2 ≤ self.state }
        ensures { result + 2 ≡ self.state }
    {
        self.state as usize - 2
    }

    pub fn quarters(self) -> Quarters<usize>
        ensures { result ≡ quarters_of self }
    {
        Quarters {
            nw: first(self.upper),
            ne: second(self.upper),
            sw: first(self.lower),
            se: second(self.lower),
        }
    }
}

fn pair(a: usize, b: usize) -> u64
    requires { (a < 2 ^ 32) × (b < 2 ^ 32) }
    ensures { result ≡ pair a b }
{
    a as u64 + NUMBERS * b as u64
}

fn first(half: u64) -> usize
    ensures { result ≡ first half }
{
    (half % NUMBERS) as usize
}

fn second(half: u64) -> usize
    ensures { result ≡ second half }
{
    (half / NUMBERS) as usize
}

// Two numbers of a depth that stand for the same square are one number.
pub fn squares_once()
    ensures { SquaresOnce }
{}
