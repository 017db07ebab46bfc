// Numbers that look random, and the cells that they sow.
ghost use Rattle.std.specs.Prelude.{◌≡◌, ◌<◌};
ghost use Rattle.trees.specs.Mixed.{mix, spread};

// Odd numbers that spread small differences over all bits.
pub const FIRST_FACTOR: u64 = 11400714819323198485;

const SECOND_FACTOR: u64 = 13787848793156543929;

fn spread(n: u64, factor: u64) -> u64
    ensures { result ≡ spread factor n }
{
    let product = n.wrapping_mul(factor);
    product.wrapping_add(product >> 32)
}

// A number that looks random, from two numbers.
pub fn mix(a: u64, b: u64) -> u64
    ensures { result ≡ mix a b }
{
    spread(spread(a.wrapping_add(b), FIRST_FACTOR), SECOND_FACTOR)
}

// Where a square lies among squares of its size.
#[derive(Clone, Copy)]
pub struct Place {
    pub x: u64,
    pub y: u64,
}

impl Place {
    ghost use Rattle.trees.specs.Growing.{quarter_at, Inside};

    // The place of its k-th quarter, row by row.
    pub fn quarter(self, k: usize) -> Place
        requires { (Inside 40 self) × (k < 4) }
        ensures { result ≡ quarter_at self k }
    {
        Place {
            x: 2 * self.x + k as u64 % 2,
            y: 2 * self.y + k as u64 / 2,
        }
    }
}

// Which cells there are at the leaves of a tree.
#[derive(Clone, Copy)]
pub struct Leaves {
    pub seed: u64,
    // so many different leaves there are at most; the fewer, the more squares are the same
    pub kinds: u64,
    pub ghost some: { 0 < kinds },
}

impl Leaves {
    ghost use Rattle.trees.specs.Growing.{cells_at};

    pub fn cells(self, place: Place) -> u64
        ensures { result ≡ cells_at self place }
    {
        let kind = mix(mix(self.seed, place.x), place.y) % self.kinds;
        if kind % 4 == 0 {
            0
        } else {
            mix(self.seed, kind)
        }
    }
}
