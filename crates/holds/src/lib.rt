// Holds: what is held outlives a collection.
#![tactic(auto)]

ghost use Rattle.std.specs.Prelude.{true, false, ◌≡◌, ◌+◌, ◌<◌, ◌≤◌};
ghost use Rattle.nodes.specs.Memory.{hold_room};
ghost use Rattle.slots.specs.Stores.{Same, Good, table};
ghost use Rattle.holds.specs.Holding.{Pushed, Popped, Last, held};

use slots::Store;

// One or more squares that are held. It can't be copied, and only `release` ends it.
pub struct Hold {
    // the first of its places among the holds, and how many there are
    from: usize,
    len: usize,
    done: bool,
}

impl Drop for Hold {
    fn drop(self)
        requires { self.done ≡ true }
    {
        let Hold {
            from: _,
            len: _,
            done: _,
        } = self;
    }
}

impl Hold {
    // Holds nothing yet.
    pub fn start(store: &Store) -> Hold
        ensures { result ≡ record { from = store.now.top; len = 0; done = false } }
    {
        Hold {
            from: store.top,
            len: 0,
            done: false,
        }
    }

    // Holds a square.
    pub fn take(store: &mut Store, number: usize) -> Hold
        requires good { Good store.old }
        requires square { (number < store.old.slots) × (2 ≤ (table store.old number).state) }
        requires room { store.old.top < hold_room }
        ensures same { Same store.old store.new }
        ensures good { Good store.new }
        ensures pushed { Pushed store.old store.new number }
        ensures is { result ≡ record { from = store.old.top; len = 1; done = false } }
    {
        let from = store.top;
        push(store, number);
        Hold {
            from,
            len: 1,
            done: false,
        }
    }

    // The number of the k-th of its squares.
    pub fn number(&self, store: &Store, k: usize) -> usize
        requires good { Good store.now }
        requires within { (k < self.now.len) × (self.now.from + self.now.len ≤ store.now.top) }
        ensures is { result ≡ held store.now (self.now.from + k) }
    {
        store.held(self.from + k)
    }

    // Holds one square more.
    pub fn add(&mut self, store: &mut Store, number: usize)
        requires good { Good store.old }
        requires square { (number < store.old.slots) × (2 ≤ (table store.old number).state) }
        requires room { (store.old.top < hold_room) × (Last store.old self.old) }
        ensures same { Same store.old store.new }
        ensures good { Good store.new }
        ensures pushed { Pushed store.old store.new number }
        ensures more { self.new ≡ record { from = self.old.from; len = self.old.len + 1; done = self.old.done } }
    {
        push(store, number);
        self.len += 1;
    }

    // Lets go of what is held.
    pub fn release(mut self, store: &mut Store)
        requires good { Good store.old }
        requires last { Last store.old self }
        ensures same { Same store.old store.new }
        ensures good { Good store.new }
        ensures popped { Popped self.from store.old store.new }
    {
        store.top = self.from;
        self.done = true;
    }
}

fn push(store: &mut Store, number: usize)
    requires good { Good store.old }
    requires square { (number < store.old.slots) × (2 ≤ (table store.old number).state) }
    requires room { store.old.top < hold_room }
    ensures same { Same store.old store.new }
    ensures good { Good store.new }
    ensures pushed { Pushed store.old store.new number }
{
    let top = store.top;
    store.set_held(top, number);
    store.top = top + 1;
}
