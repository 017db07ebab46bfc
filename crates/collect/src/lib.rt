// Collection: squares that nothing needs are forgotten, and their slots used again.
#![tactic(auto)]

ghost use Rattle.std.specs.Prelude.{◌≡◌};
ghost use Rattle.slots.specs.Stores.{Same, Good, Still};
ghost use Rattle.collect.specs.Collecting.{Marking, Spared, FourOf, FourKept};

use mark::{mark_each, mark_held};
use model::Quarters;
use slots::Store;
use sweep::sweep;

// Forgets what isn't held.
pub fn collect(store: &mut Store)
    requires good { Good store.old }
    ensures same { Same store.old store.new }
    ensures good { Good store.new }
    ensures still { Still store.old.top store.old store.new }
    ensures top { store.new.top ≡ store.old.top }
{
    forget(store);
}

// Forgets what isn't held, but for these four squares, with which work is in hand.
pub fn collect_but(store: &mut Store, depth: usize, quarters: Quarters<usize>)
    requires good { Good store.old }
    requires has { FourOf store.old depth quarters }
    ensures same { Same store.old store.new }
    ensures good { Good store.new }
    ensures still { Still store.old.top store.old store.new }
    ensures top { store.new.top ≡ store.old.top }
    ensures kept { FourKept store.old store.new depth quarters }
{
    mark_each(store, depth, &quarters.each());
    forget(store);
}

// Forgets what is neither marked nor held.
fn forget(store: &mut Store)
    requires marking { Marking store.old }
    ensures same { Same store.old store.new }
    ensures good { Good store.new }
    ensures still { Still store.old.top store.old store.new }
    ensures top { store.new.top ≡ store.old.top }
    ensures spared { Spared store.old store.new }
{
    mark_held(store);
    sweep(store);
}
