// Reads a rule and sixteen lines of sixteen cells, and prints the eight lines of the middle after four generations.
#![tactic(auto)]

use squaretext::{answer, middle_text};
use std::io;
use std::io::{Read, Write};

fn main(rt: HostRuntime) -> io::Result<()> {
    let mut input = Vec::new(rt.alloc());
    rt.stdin().read_to_end(&mut input)?;
    match answer(input.as_slice()) {
        Ok(middle) => rt.stdout().write_all(&middle_text(middle)),
        Err(fault) => println!(rt; "{}", fault.text()),
    }
}
