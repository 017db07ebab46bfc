ghost use Rattle.std.specs.Prelude.{◌≡◌};
ghost use Rattle.model.specs.Quarters.{quarter_in, with_quarter, each_of};

// What there is for each of the four quarters of a square: upper left, upper right, lower left and lower right.
#[derive(Clone, Copy, PartialEq, Eq, Debug)]
pub struct Quarters<T> {
    pub nw: T,
    pub ne: T,
    pub sw: T,
    pub se: T,
}

impl<T: Copy> Quarters<T> {
    // The same for all four.
    pub fn all(value: T) -> Quarters<T>
        ensures { result ≡ record { nw = value; ne = value; sw = value; se = value } }
    {
        Quarters {
            nw: value,
            ne: value,
            sw: value,
            se: value,
        }
    }

    // What a function gives for each row and column, 0 or 1.
    pub fn of<F: Fn(usize, usize) -> T>(value: F) -> Quarters<T>
        requires { (F.pre value 0 0 × F.pre value 0 1) × (F.pre value 1 0 × F.pre value 1 1) }
        ensures upper { F.post value 0 0 result.nw × F.post value 0 1 result.ne }
        ensures lower { F.post value 1 0 result.sw × F.post value 1 1 result.se }
    {
        Quarters {
            nw: value(0, 0),
            ne: value(0, 1),
            sw: value(1, 0),
            se: value(1, 1),
        }
    }

    // What a function makes of each.
    pub fn map<U: Copy, F: Fn(T) -> U>(self, value: F) -> Quarters<U>
        requires { (F.pre value self.nw × F.pre value self.ne) × (F.pre value self.sw × F.pre value self.se) }
        ensures upper { F.post value self.nw result.nw × F.post value self.ne result.ne }
        ensures lower { F.post value self.sw result.sw × F.post value self.se result.se }
    {
        Quarters {
            nw: value(self.nw),
            ne: value(self.ne),
            sw: value(self.sw),
            se: value(self.se),
        }
    }

    // The one in this row and column, 0 or 1 each.
    pub fn at(self, row: usize, column: usize) -> T
        ensures { result ≡ quarter_in self row column }
    {
        match (row, column) {
            (0, 0) => self.nw,
            (0, _) => self.ne,
            (_, 0) => self.sw,
            _ => self.se,
        }
    }

    // The same with another in this row and column.
    pub fn with(self, row: usize, column: usize, value: T) -> Quarters<T>
        ensures { result ≡ with_quarter self row column value }
    {
        match (row, column) {
            (0, 0) => Quarters { nw: value, ..self },
            (0, _) => Quarters { ne: value, ..self },
            (_, 0) => Quarters { sw: value, ..self },
            _ => Quarters { se: value, ..self },
        }
    }

    // All four, in the order of reading.
    pub fn each(self) -> [T; 4]
        ensures { result ≡ each_of self }
    {
        [self.nw, self.ne, self.sw, self.se]
    }
}
