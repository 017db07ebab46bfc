// Strides: a square is padded twice, so that nothing can reach the rim of its leap, and leaps.
#![tactic(auto)]

ghost use Rattle.std.specs.Prelude.{suc, ◌+◌, ◌<◌, false};
ghost use Rattle.model.specs.Squares.{padded};
ghost use Rattle.slots.specs.Stores.{Same};
ghost use Rattle.pieces.specs.Nine.{Outcome, Given};
ghost use Rattle.strides.specs.Striding.{leap_once, stride_of, Stride, Padding, Lone};

use advance::advance_number;
use notes::Leap;
use pads::pad;
use pieces::while_held;
use slots::Store;
use store::Full;

// What the held square, with nothing around it, is after the leap's generations. `below` is the depth of its quarters, and what comes back is one deeper than the square.
pub fn stride(store: &mut Store, leap: Leap, below: usize, place: usize) -> Result<usize, Full>
    requires { Stride store.old leap below place }
    ensures same { Same store.old store.new }
    ensures stride { Outcome store.old store.new (suc below) (suc (suc below)) place (stride_of leap below) result }
{
    let once = pad(store, below, place)?;
    pad_and_leap(store, leap, below, once)
}

fn pad_and_leap(store: &mut Store, leap: Leap, below: usize, number: usize) -> Result<usize, Full>
    requires { Padding store.old leap below number }
    ensures same { Same store.old store.new }
    ensures leap { Given store.old store.new (suc (suc below)) (suc (suc below)) number (leap_once leap below) result }
{
    let padded = pad_number(store, below, number)?;
    advance_number(store, leap, below + 2, padded)
}

// A square of depth below + 2 that isn't held, with nothing around it.
fn pad_number(store: &mut Store, below: usize, number: usize) -> Result<usize, Full>
    requires { Lone store.old below number }
    ensures same { Same store.old store.new }
    ensures padded { Given store.old store.new (suc (suc below)) (suc (suc (suc below))) number (padded false (suc (suc (suc (suc below))))) result }
{
    while_held(store, number, |store, place| pad(store, below + 1, place))
}
