// The store of squares held to plain grids: trees are grown, kept over collections, and read again cell by cell.
#![tactic(auto)]

ghost use Rattle.std.specs.Prelude.{◌≡◌, ◌+◌, ◌*◌, ◌<◌, ◌≤◌, length};
ghost use Rattle.slots.specs.Stores.{Good, Has};
ghost use Rattle.trees.specs.Growing.{Kept, Holds};

#[cfg(test)]
mod tests {
    use holds::Hold;
    use pieces::quarter;
    use slots::{State, Store};
    use squares::{cells, count, level};
    use std::test::Fail;
    use store::{Full, open};
    use trees::{Grove, Leaves, Place, churn, grow, grow_held, grow_many};

    const WORDS: usize = 1 << 18;

    // The trees that are compared are of this depth, and have so many cells to a side.
    const DEPTH: usize = 4;

    const SIDE: usize = 128;

    const ORIGIN: Place = Place { x: 0, y: 0 };

    // All leaves differ, and so few that squares of all sizes are the same.
    const MANY: Leaves = Leaves {
        seed: 20,
        kinds: 1 << 40,
    };

    const FEW: Leaves = Leaves { seed: 21, kinds: 3 };

    const OTHERS: Leaves = Leaves {
        seed: 22,
        kinds: 1 << 40,
    };

    fn bit(word: u64, x: usize, y: usize) -> u8 {
        ((word >> (y % 8 * 8 + x % 8)) & 1) as u8
    }

    const CELLS: usize = SIDE * SIDE;

    // The cells of a tree, one byte each, by rows.
    type Grid = [u8; CELLS];

    // The grid of a tree, made without a store.
    fn paint(leaves: Leaves) -> Grid {
        std::array::from_fn(|i| {
            let (x, y) = (i % SIDE, i / SIDE);
            let place = Place {
                x: x as u64 / 8,
                y: y as u64 / 8,
            };
            bit(leaves.cells(place), x, y)
        })
    }

    // The cells of the leaf at (x, y) of a square, counted in leaves.
    fn leaf_at(store: &Store, depth: usize, number: usize, x: usize, y: usize) -> u64
        requires good { Good store.now }
        requires square { (Has store.now depth number) × (depth ≤ 40) }
    {
        if depth == 0 {
            return cells(store, number);
        }
        let below = depth - 1;
        let part = quarter(store, number, (y >> below) % 2, (x >> below) % 2);
        leaf_at(store, below, part, x, y)
    }

    fn compare(store: &Store, number: usize, grid: &Grid) -> bool
        requires good { Good store.now }
        requires square { Has store.now 4 number }
    {
        let same = grid.iter().enumerate().all(|(i, cell)| {
            let (x, y) = (i % SIDE, i / SIDE);
            bit(leaf_at(store, DEPTH, number, x / 8, y / 8), x, y) == *cell
        });
        let living = grid.iter().filter(|cell| **cell == 1).count();
        same && count(store, number) == living as u128 && level(store, number) == 7
    }

    // A tree has one number, in whatever order its quarters are made.
    fn all_orders(store: &mut Store, leaves: Leaves, number: usize) -> bool
        requires { (Good store.old) × (store.old.top ≡ 0) }
        ensures { Kept store.old store.new }
    {
        let mut same = true;
        for order in 0..256u64 {
            same &= grow(store, leaves, DEPTH, ORIGIN, order) == Ok(number);
        }
        same
    }

    #[test]
    fn one_number_in_all_orders(rt: HostRuntime) -> Result<(), Fail> {
        let mut words = vec![in rt.alloc(); 0u64; WORDS]?;
        let mut store = open(words.as_mut_slice(), 1000);
        let many = grow(&mut store, MANY, DEPTH, ORIGIN, 0)?;
        let few = grow(&mut store, FEW, DEPTH, ORIGIN, 0)?;
        let same = all_orders(&mut store, MANY, many) & all_orders(&mut store, FEW, few);
        assert!(rt; same && many != few);
        Ok(())
    }

    // What is held is there after collections, with its number, and is found again.
    fn outlives(store: &mut Store, tree: &Hold, leaves: Leaves, grid: &Grid) -> Result<bool, Full>
        requires good { (Good store.old) × (store.old.top ≡ 1) }
        requires holds { Holds store.old tree.now 1 4 }
        ensures { Kept store.old store.new }
    {
        let before = tree.number(store, 0);
        let collections = churn(store, OTHERS, DEPTH, 500)?;
        let again = grow(store, leaves, DEPTH, ORIGIN, 27)?;
        let number = tree.number(store, 0);
        let same = compare(store, number, grid);
        Ok((collections > 3) & (number == before) & (again == number) & same)
    }

    fn held(store: &mut Store, leaves: Leaves) -> Result<bool, Full>
        requires { (Good store.old) × (store.old.top ≡ 0) }
        ensures { Kept store.old store.new }
    {
        let grid = paint(leaves);
        let tree = grow_held(store, leaves, DEPTH, ORIGIN, 0)?;
        let result = outlives(store, &tree, leaves, &grid);
        tree.release(store);
        result
    }

    #[test]
    fn held_trees_outlive_collections(rt: HostRuntime) -> Result<(), Fail> {
        let mut words = vec![in rt.alloc(); 0u64; WORDS]?;
        let mut store = open(words.as_mut_slice(), 0);
        let many = held(&mut store, MANY)?;
        let few = held(&mut store, FEW)?;
        assert!(rt; many && few);
        Ok(())
    }

    // How many slots hold squares.
    fn used(store: &Store) -> usize
        requires { Good store.now }
    {
        (0..store.slots)
            .filter(|slot| matches!(store.state(*slot), State::Square(_)))
            .count()
    }

    // Holds trees until the store is full. Then three quarters of it are in use.
    fn fill_up(store: &mut Store) -> Result<bool, Full>
        requires { (Good store.old) × (store.old.top < 1000) }
        ensures { Kept store.old store.new }
    {
        let Grove { hold, refusal } = grow_many(store, OTHERS, 3, 1000)?;
        let (used, left, slots) = (used(store), store.left, store.slots);
        hold.release(store);
        let full = refusal.is_some();
        Ok(full && used <= slots && 4 * used >= 3 * slots && used + left == slots - 3 * slots / 16)
    }

    // With a little less than three quarters held it goes on working.
    fn nearly_full(store: &mut Store) -> Result<bool, Full>
        requires { (Good store.old) × (store.old.top ≡ 0) }
        ensures { Kept store.old store.new }
    {
        let Grove { hold, refusal } = grow_many(store, MANY, 3, 390)?;
        let used = used(store);
        let collections = churn(store, OTHERS, DEPTH, 200);
        let filled = fill_up(store);
        hold.release(store);
        Ok(refusal.is_none() && used > 26000 && collections? > 10 && filled?)
    }

    #[test]
    fn full_at_three_quarters(rt: HostRuntime) -> Result<(), Fail> {
        let mut words = vec![in rt.alloc(); 0u64; WORDS]?;
        let mut store = open(words.as_mut_slice(), 0);
        assert!(rt; nearly_full(&mut store)?);
        // what was let go makes room again
        assert!(rt; churn(&mut store, OTHERS, DEPTH, 200)? > 0);
        Ok(())
    }
}
