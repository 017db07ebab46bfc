ghost use Rattle.std.specs.Prelude.{◌≡◌, T, ◌≤◌};
ghost use Rattle.model.specs.Rules.{good_rule, rule_of, becomes};

use model::Refusal;

// Bit n of a set stands for n living neighbours, 0 to 8; 0 do not give birth, since nothing comes of nothing.
#[derive(Clone, Copy, PartialEq, Eq, Debug)]
pub struct Rule {
    born: u16,
    stays: u16,
    pub ghost good: { T (good_rule (rule_of born stays)) },
}

impl Rule {
    ghost use Rattle.rules.specs.Laws.{law, IsRuled};

    // Sets of numbers from 0 to 8, in which 0 does not give birth.
    pub fn new(born: u16, stays: u16) -> Result<Rule, Refusal>
        ensures { IsRuled born stays result }
    {
        if born < 512 && stays < 512 && born % 2 == 0 {
            Ok(Rule { born, stays })
        } else {
            Err(Refusal::BadRule)
        }
    }

    // Born with three neighbours, living on with two or three.
    pub fn life() -> Rule
        ensures born { result.born ≡ 8 }
        ensures stays { result.stays ≡ 12 }
    {
        Rule { born: 8, stays: 12 }
    }

    pub fn born(self) -> u16
        ensures { result ≡ self.born }
    {
        self.born
    }

    pub fn stays(self) -> u16
        ensures { result ≡ self.stays }
    {
        self.stays
    }

    // Whether a cell lives in the next generation.
    pub fn fate(self, alive: bool, neighbours: u32) -> bool
        requires { neighbours ≤ 8 }
        ensures { result ≡ becomes (law self) alive neighbours }
    {
        let set = if alive { self.stays } else { self.born };
        (set >> neighbours) & 1 == 1
    }
}
