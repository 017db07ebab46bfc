// Sums of bits, in all 64 places of words at once.
ghost use Rattle.std.specs.Prelude.{◌≡◌, ℕ, ◌+◌, ◌*◌, ◌<◌};
ghost use Rattle.leaf.specs.Words.{digit, neighbours_in};

// In each place a sum of up to three.
#[derive(Clone, Copy)]
struct Pair {
    low: u64,
    high: u64,
}

// In each place a sum of up to eight.
#[derive(Clone, Copy)]
pub struct Sums {
    pub ones: u64,
    pub twos: u64,
    pub fours: u64,
    pub eights: u64,
}

// How many of the neighbours live, for each inner cell.
pub fn neighbour_sums(w: u64) -> Sums
    ensures { (x y : ℕ) → 0 < x → x < 7 → 0 < y → y < 7 →
        neighbours_in w x y ≡ digit result.ones (8 * y + x) + 2 * digit result.twos (8 * y + x) + 4 * digit result.fours (8 * y + x) + 8 * digit result.eights (8 * y + x) }
{
    let beside = add2(w << 1, w >> 1);
    // three cells of a row, for the rows above and below
    let row = add3(w << 1, w >> 1, w);
    let ones = add3(row.low << 8, beside.low, row.low >> 8);
    let carries = add3(row.high << 8, beside.high, row.high >> 8);
    let twos = add2(ones.high, carries.low);
    let fours = add2(carries.high, twos.high);
    Sums {
        ones: ones.low,
        twos: twos.low,
        fours: fours.low,
        eights: fours.high,
    }
}

fn add2(a: u64, b: u64) -> Pair
    ensures { (k : ℕ) → digit a k + digit b k ≡ digit result.low k + 2 * digit result.high k }
{
    Pair {
        low: a ^ b,
        high: a & b,
    }
}

fn add3(a: u64, b: u64, c: u64) -> Pair
    ensures { (k : ℕ) → digit a k + digit b k + digit c k ≡ digit result.low k + 2 * digit result.high k }
{
    let differ = a ^ b;
    Pair {
        low: differ ^ c,
        high: (a & b) | (differ & c),
    }
}
