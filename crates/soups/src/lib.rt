// The plane on lists held to a plain Life on a dense grid, written on its own: random soups under random rules.
// And squares of side 16 by words, held to what a plain Life in another language made of them.
#![tactic(auto)]

ghost use Rattle.std.specs.Prelude.{◌≤◌};

#[cfg(test)]
mod tests {
    use calls::Field;
    use listplane::ListPlane;
    use model::Cell;
    use squaretext::{Fault, answer, middle_text};
    use std::process::Abort;
    use std::test::Fail;

    // The grid has so many columns and rows; what leaves it is lost, so patterns are kept away from its rim.
    const SIDE: usize = 96;

    // A Life on a dense grid. `corner` is the plane's cell where the grid's upper left one lies.
    #[derive(Drop)]
    struct Soup {
        corner: Cell,
        cells: [[bool; SIDE]; SIDE],
    }

    impl Soup {
        fn empty(corner: Cell) -> Soup {
            Soup {
                corner,
                cells: [[false; SIDE]; SIDE],
            }
        }

        // Whether a cell of the grid lives; what is no cell of it does not.
        fn lives(&self, x: usize, y: usize) -> bool {
            x < SIDE && y < SIDE && self.cells[y][x]
        }

        // How many of the eight neighbours live. At the rim a coordinate wraps to a number that is no column.
        fn neighbours(&self, x: usize, y: usize) -> usize
            ensures { result ≤ 8 }
        {
            let (left, right) = (x.wrapping_sub(1), x.wrapping_add(1));
            let (up, down) = (y.wrapping_sub(1), y.wrapping_add(1));
            let around = [
                (left, up),
                (x, up),
                (right, up),
                (left, y),
                (right, y),
                (left, down),
                (x, down),
                (right, down),
            ];
            around.iter().filter(|&&(x, y)| self.lives(x, y)).count()
        }

        // One generation by the sets of a rule.
        fn step(&mut self, born: u16, stays: u16) {
            let mut cells = [[false; SIDE]; SIDE];
            for (y, row) in cells.iter_mut().enumerate() {
                for (x, cell) in row.iter_mut().enumerate() {
                    let set = if self.lives(x, y) { stays } else { born };
                    *cell = (set >> self.neighbours(x, y)) & 1 == 1;
                }
            }
            self.cells = cells;
        }

        // Where a cell of the grid lies on the plane.
        fn on_plane(&self, x: usize, y: usize) -> Cell {
            Cell {
                x: self.corner.x.wrapping_add_unsigned(x as u64),
                y: self.corner.y.wrapping_add_unsigned(y as u64),
            }
        }

        // The same random cells in the grid and on the plane.
        fn sow<F: Field>(
            &mut self,
            rt: &impl Abort,
            field: &mut F,
            mem: &mut [u64],
            random: &mut Random,
        )
            requires { F.good field.old mem.old }
            ensures { F.good field.new mem.new }
        {
            for y in 40..56usize {
                for x in 40..56usize {
                    if random.next() % 3 == 0 {
                        self.cells[y][x] = true;
                        assert!(rt; field.put(mem, self.on_plane(x, y), true).is_ok());
                    }
                }
            }
        }

        // The plane's answers are those of the grid.
        fn compare<F: Field>(&self, rt: &impl Abort, field: &F, mem: &[u64])
            requires { F.good field.now mem.now }
        {
            let mut bytes = [0u8; SIDE];
            for (y, row) in self.cells.iter().enumerate() {
                field.row(mem, self.on_plane(0, y), &mut bytes);
                for (x, (alive, byte)) in row.iter().zip(&bytes).enumerate() {
                    assert_eq!(rt; *byte, u8::from(*alive));
                    assert_eq!(rt; field.cell(mem, self.on_plane(x, y)), *alive);
                }
            }
            let count = self.cells.iter().flatten().filter(|alive| **alive).count();
            assert_eq!(rt; field.count(mem), count as u64);
        }
    }

    // Numbers that look random (xorshift).
    #[derive(Drop)]
    struct Random {
        state: u64,
    }

    impl Random {
        fn next(&mut self) -> u64 {
            self.state ^= self.state << 13;
            self.state ^= self.state >> 7;
            self.state ^= self.state << 17;
            self.state
        }
    }

    // Near 0, and far out on either side.
    fn coordinate(turn: u64) -> i64 {
        match turn % 3 {
            0 => -48,
            1 => (1 << 60) - 200,
            _ => -(1 << 60) + 100,
        }
    }

    // A random soup under a random rule, some generations on.
    fn check_soup<F: Field>(
        rt: &impl Abort,
        field: &mut F,
        mem: &mut [u64],
        corner: Cell,
        random: &mut Random,
    )
        requires { F.good field.old mem.old }
    {
        let born = (random.next() % 256 * 2) as u16;
        let stays = (random.next() % 512) as u16;
        assert!(rt; field.rule(mem, born, stays).is_ok());
        let mut soup = Soup::empty(corner);
        soup.sow(rt, field, mem, random);
        let turns = 2 * (random.next() % 10);
        for _ in 0..turns {
            soup.step(born, stays);
        }
        assert!(rt; field.run(mem, turns).is_ok());
        soup.compare(rt, field, mem);
    }

    #[test]
    fn soups_by_lists(rt: HostRuntime) -> Result<(), Fail> {
        let heap = rt.alloc();
        let mut words = vec![in heap; 0u64; 262144]?;
        let mut random = Random {
            state: 88172645463325252,
        };
        for turn in 0..40u64 {
            let mem = words.as_mut_slice();
            assert!(&rt; mem.len() == 262144);
            let mut field = ListPlane::open(mem);
            let corner = Cell {
                x: coordinate(turn),
                y: coordinate(turn / 3),
            };
            check_soup(&rt, &mut field, mem, corner, &mut random);
        }
        Ok(())
    }

    fn middle_is(rt: &impl Abort, text: &[u8], wanted: &[u8]) -> Result<(), Fail> {
        let Ok(middle) = answer(text) else {
            return Err(Fail::new("a square was refused"));
        };
        let found = middle_text(middle);
        assert!(rt; found.as_slice() == wanted);
        Ok(())
    }

    fn refused_as(rt: &impl Abort, text: &[u8], wanted: Fault) -> Result<(), Fail> {
        match answer(text) {
            Ok(_) => Err(Fail::new("a text out of form was taken")),
            Err(fault) => {
                assert!(rt; fault == wanted);
                Ok(())
            },
        }
    }

    #[test]
    fn squares_by_words(rt: HostRuntime) -> Result<(), Fail> {
        // four by four living cells
        middle_is(
            &rt,
            b"b3s23\n................\n................\n................\n................\n................\n................\n......oooo......\n......oooo......\n......oooo......\n......oooo......\n................\n................\n................\n................\n................\n................\n",
            b"........\n........\n........\n........\n........\n........\n........\n........\n",
        )?;
        // the four in their middle
        middle_is(
            &rt,
            b"b3s23\n................\n................\n................\n................\n................\n................\n................\n.......oo.......\n.......oo.......\n................\n................\n................\n................\n................\n................\n................\n",
            b"........\n........\n........\n...oo...\n...oo...\n........\n........\n........\n",
        )?;
        // a glider
        middle_is(
            &rt,
            b"b3s23\n................\n................\n................\n................\n................\n......o.........\n.......o........\n.....ooo........\n................\n................\n................\n................\n................\n................\n................\n................\n",
            b"........\n........\n...o....\n....o...\n..ooo...\n........\n........\n........\n",
        )?;
        // one cell, birth with one
        middle_is(
            &rt,
            b"b1s\n................\n................\n................\n................\n................\n................\n................\n................\n........o.......\n................\n................\n................\n................\n................\n................\n................\n",
            b"o.......\n........\n........\n........\n........\n........\n........\n........\n",
        )?;
        refused_as(&rt, b"", Fault::NoRule)?;
        refused_as(&rt, b"B3/S23\n", Fault::NoRule)?;
        refused_as(&rt, b"b03s23\n", Fault::BadRule)?;
        refused_as(&rt, b"b3s23", Fault::BadSquare)?;
        refused_as(&rt, b"b3s23\n................\n", Fault::BadSquare)
    }
}
