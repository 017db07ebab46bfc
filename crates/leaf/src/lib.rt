// A word of 64 bits is a square of side 8: the cell in column x of row y is bit 8y + x, and lives where that is set.
#![tactic(auto)]

ghost use Rattle.std.specs.Prelude.{◌≡◌, ℕ, ◌+◌, ◌<◌, ◌≤◌, Bool, ◌&&◌, ◌||◌, pos, if◌then◌else◌, slice_index};
ghost use Rattle.leaf.specs.Words.{bit, cell_in, is_at, in_row, living_in, inner, neighbours_in, next_in, NextOf};
ghost use Rattle.leaf.specs.Fates.{full, Fated, life_law, Suits};
ghost use Rattle.leaf.specs.Shown.{Shows16, Later, after};
ghost use Rattle.leaf.specs.AsSquares.{IsLeap};
ghost use Rattle.model.specs.Planes.{Plane};
ghost use Rattle.model.specs.Rules.{Rule as Law, becomes};
ghost use Rattle.rules.specs.Laws.{law};

mod adders;

use adders::neighbour_sums;
use model::Quarters;
use rules::Rule;

// The left and the right half of every row.
const WEST: u64 = 0x0f0f_0f0f_0f0f_0f0f;

const EAST: u64 = 0xf0f0_f0f0_f0f0_f0f0;

// The cells that have all their neighbours in the word.
const INNER: u64 = 0x007e_7e7e_7e7e_7e00;

// Whether the cell in column x of row y lives.
pub fn cell(w: u64, x: u32, y: u32) -> bool
    requires { (x < 8) × (y < 8) }
    ensures { result ≡ cell_in w x y }
{
    (w >> (8 * y + x)) & 1 == 1
}

// The word in which that cell lives or does not, and all others are as they were.
pub fn with_cell(w: u64, x: u32, y: u32, lives: bool) -> u64
    requires { (x < 8) × (y < 8) }
    ensures { (u v : ℕ) → u < 8 → v < 8 → cell_in result u v ≡ (if is_at x y u v then lives else cell_in w u v) }
{
    let bit = 1u64 << (8 * y + x);
    if lives { w | bit } else { w & !bit }
}

// How many cells live.
pub fn count(w: u64) -> u32
    ensures { result ≡ living_in w }
{
    w.count_ones()
}

// The word with the cells of row y from column a to before column b living as well.
pub fn with_row(w: u64, y: u32, a: u32, b: u32) -> u64
    requires row { y < 8 }
    requires order { a ≤ b }
    requires room { b ≤ 8 }
    ensures { (u v : ℕ) → u < 8 → v < 8 → cell_in result u v ≡ (cell_in w u v || in_row y a b u v) }
{
    let run = (1u64 << b) - (1 << a);
    w | (run << (8 * y))
}

// The word between two side by side.
pub fn between_across(west: u64, east: u64) -> u64
    ensures left { (x y : ℕ) → x < 4 → y < 8 → cell_in result x y ≡ cell_in west (x + 4) y }
    ensures right { (x y : ℕ) → x < 4 → y < 8 → cell_in result (x + 4) y ≡ cell_in east x y }
{
    ((west >> 4) & WEST) | ((east << 4) & EAST)
}

// The word between two of which one is above the other.
pub fn between_down(north: u64, south: u64) -> u64
    ensures upper { (x y : ℕ) → x < 8 → y < 4 → cell_in result x y ≡ cell_in north x (y + 4) }
    ensures lower { (x y : ℕ) → x < 8 → y < 4 → cell_in result x (y + 4) ≡ cell_in south x y }
{
    (north >> 32) | (south << 32)
}

// The word in the middle of four.
pub fn middle(four: Quarters<u64>) -> u64
    ensures nw { (x y : ℕ) → x < 4 → y < 4 → cell_in result x y ≡ cell_in four.nw (x + 4) (y + 4) }
    ensures ne { (x y : ℕ) → x < 4 → y < 4 → cell_in result (x + 4) y ≡ cell_in four.ne x (y + 4) }
    ensures sw { (x y : ℕ) → x < 4 → y < 4 → cell_in result x (y + 4) ≡ cell_in four.sw (x + 4) y }
    ensures se { (x y : ℕ) → x < 4 → y < 4 → cell_in result (x + 4) (y + 4) ≡ cell_in four.se x y }
{
    between_down(
        between_across(four.nw, four.ne),
        between_across(four.sw, four.se),
    )
}

// One generation of the inner cells, cell by cell. The cells of the rim, whose neighbours are not all known, are dead.
pub fn generation_plain(rule: Rule, w: u64) -> u64
    ensures { (x y : ℕ) → x < 8 → y < 8 → cell_in result x y ≡ (inner x y && next_in (law rule) w x y) }
{
    let mut next = 0;
    for y in 1..7 {
        for x in 1..7 {
            let lives = rule.fate(cell(w, x, y), neighbours(w, x, y));
            next = with_cell(next, x, y, lives);
        }
    }
    next
}

// How many of the eight neighbours of an inner cell live.
fn neighbours(w: u64, x: u32, y: u32) -> u32
    requires column { (0 < x) × (x < 7) }
    requires row { (0 < y) × (y < 7) }
    ensures is { result ≡ neighbours_in w x y }
    ensures eight { result ≤ 8 }
{
    let above = u32::from(cell(w, x - 1, y - 1))
        + u32::from(cell(w, x, y - 1))
        + u32::from(cell(w, x + 1, y - 1));
    let beside = u32::from(cell(w, x - 1, y)) + u32::from(cell(w, x + 1, y));
    let below = u32::from(cell(w, x - 1, y + 1))
        + u32::from(cell(w, x, y + 1))
        + u32::from(cell(w, x + 1, y + 1));
    above + beside + below
}

// The same generation, all cells at once.
pub fn generation(rule: Rule, w: u64) -> u64
    ensures { (x y : ℕ) → x < 8 → y < 8 → cell_in result x y ≡ (inner x y && next_in (law rule) w x y) }
{
    let [next] = next_each(Way::new(rule), [w]);
    next
}

// How the next generation is worked out. Life, the rule of most runs, has a shorter way of its own.
#[derive(Clone, Copy)]
enum Way {
    Life,
    ByFates(Fates),
}

impl Way {
    fn new(rule: Rule) -> Way
        ensures { Suits (law rule) result }
    {
        if rule == Rule::life() {
            Way::Life
        } else {
            Way::ByFates(Fates::new(rule))
        }
    }
}

// The next generation of each word. The compiler makes such a loop do several words at a time.
fn next_each<const N: usize>(way: Way, mut words: [u64; N]) -> [u64; N]
    ensures { (l : Law) → Suits l way → (i : ℕ) → i < N → NextOf l (slice_index words.entry i) (slice_index result i) }
{
    match way {
        Way::Life => {
            for w in words.iter_mut() {
                *w = next_of_life(*w);
            }
        }
        Way::ByFates(fates) => {
            for w in words.iter_mut() {
                *w = next_by_fates(fates, *w);
            }
        }
    }
    words
}

// Under Life a cell lives if three of its neighbours do, or two of them and itself.
fn next_of_life(w: u64) -> u64
    ensures { NextOf life_law w result }
{
    let sums = neighbour_sums(w);
    sums.twos & !sums.fours & (sums.ones | w) & INNER
}

// Each binary digit of the neighbours' count halves what may become of a cell.
fn next_by_fates(fates: Fates, w: u64) -> u64
    ensures { (l : Law) → Fated l fates → NextOf l w result }
{
    let sums = neighbour_sums(w);
    let six = choose(sums.ones, fates.of(w, 7), fates.of(w, 6));
    let four = choose(sums.ones, fates.of(w, 5), fates.of(w, 4));
    let two = choose(sums.ones, fates.of(w, 3), fates.of(w, 2));
    let zero = choose(sums.ones, fates.of(w, 1), fates.of(w, 0));
    let below_eight = choose(
        sums.fours,
        choose(sums.twos, six, four),
        choose(sums.twos, two, zero),
    );
    choose(sums.eights, fates.of(w, 8), below_eight) & INNER
}

// What a rule makes of dead cells and of living ones with so many living neighbours: all bits or none.
#[derive(Clone, Copy)]
struct Fate {
    dead: u64,
    alive: u64,
}

// The fates of a rule, for 0 to 8 living neighbours.
#[derive(Clone, Copy)]
struct Fates {
    each: [Fate; 9],
}

impl Fates {
    fn new(rule: Rule) -> Fates
        ensures { Fated (law rule) result }
    {
        Fates {
            each: std::array::from_fn(|n| Fate {
                dead: filled(rule.fate(false, n as u32)),
                alive: filled(rule.fate(true, n as u32)),
            }),
        }
    }

    // What becomes of each cell if so many of its neighbours live.
    fn of(self, w: u64, neighbours: usize) -> u64
        requires { neighbours ≤ 8 }
        ensures { (l : Law) → Fated l self → (k : ℕ) → k < 64 → bit result k ≡ becomes l (bit w k) neighbours }
    {
        let fate = self.each[neighbours];
        choose(w, fate.alive, fate.dead)
    }
}

fn filled(yes: bool) -> u64
    ensures { result ≡ full yes }
{
    if yes { u64::MAX } else { 0 }
}

// In each place the bit of `yes` or of `no`.
fn choose(which: u64, yes: u64, no: u64) -> u64
    ensures { (k : ℕ) → bit result k ≡ (if bit which k then bit yes k else bit no k) }
{
    no ^ (which & (yes ^ no))
}

// Some generations, each of which leaves a ring of cells more unknown.
fn advance<const N: usize>(way: Way, words: [u64; N], n: u32) -> [u64; N]
    requires { n ≤ 2 }
    ensures { (l : Law) → Suits l way → (i : ℕ) → i < N → Later l n (slice_index words.entry i) (slice_index result i) }
{
    let mut now = words;
    for _ in 0..n {
        now = next_each(way, now);
    }
    now
}

// The inner squares of side 4 of four words, put together.
fn join_cores(nw: u64, ne: u64, sw: u64, se: u64) -> u64
    ensures nw { (x y : ℕ) → x < 4 → y < 4 → cell_in result x y ≡ cell_in nw (x + 2) (y + 2) }
    ensures ne { (x y : ℕ) → x < 4 → y < 4 → cell_in result (x + 4) y ≡ cell_in ne (x + 2) (y + 2) }
    ensures sw { (x y : ℕ) → x < 4 → y < 4 → cell_in result x (y + 4) ≡ cell_in sw (x + 2) (y + 2) }
    ensures se { (x y : ℕ) → x < 4 → y < 4 → cell_in result (x + 4) (y + 4) ≡ cell_in se (x + 2) (y + 2) }
{
    let north = ((nw >> 18) & WEST) | ((ne >> 14) & EAST);
    let south = ((sw << 14) & WEST) | ((se << 18) & EAST);
    (north & 0xffff_ffff) | (south & 0xffff_ffff_0000_0000)
}

// The middle of a square of side 16, given by its four words, up to four generations later.
//
// Nine words that overlap by half are advanced; their cores make four words that lie two cells further in, and the cores
// of those, advanced in turn, make the middle.
pub fn leap16(rule: Rule, four: Quarters<u64>, n: u32) -> u64
    requires { n ≤ 4 }
    ensures leap { IsLeap (law rule) four.nw four.ne four.sw four.se n result }
    ensures plane { (p : Plane Bool) → Shows16 four.nw four.ne four.sw four.se p → (x y : ℕ) → x < 8 → y < 8 → cell_in result x y ≡ after (law rule) n p (pos (x + 4)) (pos (y + 4)) }
{
    let Quarters { nw, ne, sw, se } = four;
    let way = Way::new(rule);
    let first = n.saturating_sub(2);
    let [nw, north, ne, west, centre, east, sw, south, se] = advance(
        way,
        [
            nw,
            between_across(nw, ne),
            ne,
            between_down(nw, sw),
            middle(four),
            between_down(ne, se),
            sw,
            between_across(sw, se),
            se,
        ],
        first,
    );
    let [nw, ne, sw, se] = advance(
        way,
        [
            join_cores(nw, north, west, centre),
            join_cores(north, ne, centre, east),
            join_cores(west, centre, sw, south),
            join_cores(centre, east, south, se),
        ],
        n - first,
    );
    join_cores(nw, ne, sw, se)
}
