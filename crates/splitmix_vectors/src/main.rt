// Runs SplitMix64's published vectors: five outputs from the state 1234567, then four from the state 0. `stdout` holds the published values.
#![tactic(auto)]

use shuffle::splitmix::{mix, next_state};
use std::io;

// Writes a number, and ends the line.
fn write_line(rt: &impl Print, n: u64) -> io::Result<()> {
    println!(rt; "{n}")
}

// Writes so many outputs from a state, one to a line.
fn write_outputs(rt: &impl Print, first: u64, count: usize) -> io::Result<()> {
    let mut state = first;
    for _ in 0..count {
        state = next_state(state);
        write_line(rt, mix(state))?;
    }
    Ok(())
}

fn main(rt: HostRuntime) -> io::Result<()> {
    write_outputs(&rt, 1234567, 5)?;
    write_outputs(&rt, 0, 4)
}
