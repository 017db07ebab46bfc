// Rules of birth and survival: two sets of numbers of living neighbours, and their text, as `b3s23`.
#![tactic(auto)]

mod bits;
mod texts;

pub use bits::Rule;
pub use texts::RuleSets;
