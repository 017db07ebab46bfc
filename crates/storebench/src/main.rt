// Times the store. Reads what to do, in how many words (2 to that power) and how often, as `found 18 5000000`:
// found and made are interns of nodes that are there and of new ones, leaves those of new leaves, collect is collections of a full store, half of which is held.
// Counts go to standard output, and the nanoseconds that one took to standard error.
#![tactic(auto)]

ghost use Rattle.std.specs.Prelude.{◌≡◌, ◌≤◌};
ghost use Rattle.slots.specs.Stores.{Good};
ghost use Rattle.trees.specs.Growing.{Kept};

use anyhow::anyhow;
use collect::collect;
use slots::Store;
use std::time::Instant;
use store::open;
use trees::{Leaves, Place, Tally, grow_held, plant, sow, weave_often};

// What was done, and how long it took.
#[derive(Clone, Copy)]
struct Timed {
    tally: Tally,
    nanos: u128,
}

// Interns nodes after `first` of them were interned.
fn nodes(
    rt: &HostRuntime,
    store: &mut Store,
    first: u64,
    turns: u64,
    mask: u64,
) -> anyhow::Result<Timed>
    requires { (Good store.old) × (store.old.top ≡ 0) }
{
    let bed = plant(store, 1)?;
    let before = weave_often(store, &bed, first, mask);
    let start = Instant::now(rt);
    let after = weave_often(store, &bed, turns, mask);
    bed.release(store);
    let nanos = start?.elapsed(rt)?.as_nanos();
    before?;
    let tally = after?;
    Ok(Timed { tally, nanos })
}

fn leaves(rt: &HostRuntime, store: &mut Store, turns: u64) -> anyhow::Result<Timed>
    requires { Good store.old }
{
    let start = Instant::now(rt)?;
    let tally = sow(store, 1, turns)?;
    let nanos = start.elapsed(rt)?.as_nanos();
    Ok(Timed { tally, nanos })
}

// Collections, each of a store that was filled up before. Only they are timed.
fn collections(rt: &HostRuntime, store: &mut Store, turns: u64) -> anyhow::Result<Timed>
    requires { Good store.old }
    ensures { Kept store.old store.new }
{
    let mut sum = 0usize;
    let mut nanos = 0u128;
    for turn in 0..turns {
        let left = store.left as u64;
        let tally = sow(store, turn, left)?;
        sum = sum.wrapping_add(tally.sum);
        let start = Instant::now(rt)?;
        collect(store);
        nanos = nanos.wrapping_add(start.elapsed(rt)?.as_nanos());
    }
    let tally = Tally {
        sum,
        collections: turns,
    };
    Ok(Timed { tally, nanos })
}

// Holds a tree of about half of the squares that there is room for, and collects.
fn half_held(rt: &HostRuntime, store: &mut Store, depth: usize, turns: u64) -> anyhow::Result<Timed>
    requires { (Good store.old) × ((store.old.top ≡ 0) × (depth ≤ 30)) }
{
    let kinds = Leaves {
        seed: 1,
        kinds: 1 << (2 * depth),
    };
    let tree = grow_held(store, kinds, depth, Place { x: 0, y: 0 }, 0)?;
    let timed = collections(rt, store, turns);
    tree.release(store);
    timed
}

fn run(rt: &HostRuntime, what: &str, log: u32, turns: u64) -> anyhow::Result<Timed> {
    if !(12..=28).contains(&log) {
        return Err(anyhow!("too few words, or too many"));
    }
    let mut words = vec![in rt.alloc(); 0u64; 1 << log]?;
    let mut store = open(words.as_mut_slice(), 0);
    match what {
        // the first nodes of all: about half of the squares that there is room for
        "found" => nodes(rt, &mut store, 1 << (log - 4), turns, (1 << (log - 4)) - 1),
        "made" => nodes(rt, &mut store, 0, turns, u64::MAX),
        "leaves" => leaves(rt, &mut store, turns),
        "collect" => half_held(rt, &mut store, (log / 2 - 2) as usize, turns),
        _ => Err(anyhow!("found, made, leaves or collect")),
    }
}

fn main(rt: HostRuntime) -> anyhow::Result<()> {
    let mut line = String::new(rt.alloc());
    rt.read_line(&mut line)?;
    let mut words = line.as_str().split_whitespace();
    let (Some(what), Some(log), Some(turns)) = (words.next(), words.next(), words.next()) else {
        return Err(anyhow!("what, the power of two of words, and how often"));
    };
    let turns = turns.parse::<u64>()?;
    let timed = run(&rt, what, log.parse::<u32>()?, turns)?;
    println!(rt;
        "{what} {log} {turns}: sum {}, collections {}",
        timed.tally.sum, timed.tally.collections
    )?;
    eprintln!(rt; "{} ns", timed.nanos / u128::from(turns.max(1)))?;
    Ok(())
}
