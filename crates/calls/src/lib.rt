// The calls of a plane in lent memory.
#![tactic(auto)]

ghost use Rattle.std.specs.Prelude.{◌≡◌, List, [], ℕ, T, length};
ghost use Rattle.model.specs.declared.Refusal.TheVariants.{BadMemory};
ghost use Rattle.model.specs.Rules.{good_rule, rule_of};
ghost use Rattle.model.specs.Cells.{in_order, lives, bounds_of};
ghost use Rattle.model.specs.World.{World, world_of, roomy, capped, bits};
ghost use Rattle.model.specs.Answers.{accepted, Ruled, Put, Ran, Recurs};

use model::{Bounds, Cell, Period, Refusal};

// A plane with its rule in lent memory, which every call is given anew. `world` is the rule and the living cells, read out
// of the memory; `good` says that the memory holds them.
pub trait Field {
    ghost world: { Self → List ℕ → World };

    ghost good: { Self → List ℕ → Type 0 };

    ghost sound: { (f : Self) (m : List ℕ) → good f m → T (good_rule (world f m).rule) × T (in_order (world f m).cells) };

    // Whether memory of so many words can be opened.
    fn room(words: usize) -> Result<(), Refusal>
        ensures { result ≡ accepted (roomy words) BadMemory };

    // An empty plane with the rule b3s23.
    fn open(mem: &mut [u64]) -> Self
        requires { T (roomy (length mem.old)) }
        ensures good { good result mem.new }
        ensures world { world result mem.new ≡ world_of (rule_of 8 12) [] };

    // From now on this rule: with how many neighbours a cell is born, and with how many it stays.
    fn rule(&mut self, mem: &mut [u64], born: u16, stays: u16) -> Result<(), Refusal>
        requires { good self.old mem.old }
        ensures good { good self.new mem.new }
        ensures ruled { Ruled born stays (world self.old mem.old) result (world self.new mem.new) };

    // Lets a cell live, or not.
    fn put(&mut self, mem: &mut [u64], at: Cell, lives: bool) -> Result<(), Refusal>
        requires { good self.old mem.old }
        ensures good { good self.new mem.new }
        ensures put { Put at.x at.y lives (world self.old mem.old) result (world self.new mem.new) };

    // So many generations.
    fn run(&mut self, mem: &mut [u64], n: u64) -> Result<(), Refusal>
        requires { good self.old mem.old }
        ensures good { good self.new mem.new }
        ensures ran { Ran n (world self.old mem.old) result (world self.new mem.new) };

    // Whether a cell lives.
    fn cell(&self, mem: &[u64], at: Cell) -> bool
        requires { good self.now mem.now }
        ensures { result ≡ lives at.x at.y (world self.now mem.now).cells };

    // How many cells live.
    fn count(&self, mem: &[u64]) -> u64
        requires { good self.now mem.now }
        ensures { result ≡ capped (length (world self.now mem.now).cells) };

    // The cells of a row from this one to the right, as 0 and 1, as many as there is place for.
    fn row(&self, mem: &[u64], from: Cell, out: &mut [u8])
        requires { good self.now mem.now }
        ensures { out.new ≡ bits from.x from.y (length out.old) (world self.now mem.now).cells };

    // The box around the living cells. The memory may be written to, so that what is found can be noted there.
    fn bounds(&mut self, mem: &mut [u64]) -> Option<Bounds>
        requires { good self.old mem.old }
        ensures good { good self.new mem.new }
        ensures world { world self.new mem.new ≡ world self.old mem.old }
        ensures found { result ≡ bounds_of (world self.old mem.old).cells };

    // The least number of generations, up to the bound, after which the plane is the present one moved, and by how much.
    fn period(&mut self, mem: &mut [u64], bound: u16) -> Result<Option<Period>, Refusal>
        requires { good self.old mem.old }
        ensures good { good self.new mem.new }
        ensures world { world self.new mem.new ≡ world self.old mem.old }
        ensures recurs { Recurs bound (world self.old mem.old) result };
}
