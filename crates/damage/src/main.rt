// Runs a batch cut after every byte, and with every byte changed in turn, each on a new book, and prints how the runs ended.
#![tactic(auto)]

mod tally;
mod trial;

use std::io;
use std::io::Read;
use submission::MOST_BYTES;
use tally::tally_changes;
use trial::run_fresh;

fn main(rt: HostRuntime) -> io::Result<()> {
    let mut batch = Vec::new(rt.alloc());
    rt.stdin().take(MOST_BYTES as u64).read_to_end(&mut batch)?;
    for length in 0..=batch.len() {
        let trial = run_fresh(&batch[..length]);
        println!(rt; "cut to {length}: {trial}")?;
    }
    // Each turn changes the byte at the index, and runs the whole batch.
    for index in 0..batch.len() {
        let tally = tally_changes(batch.as_mut_slice(), index);
        println!(rt; "byte {index} changed: {tally}")?;
    }
    Ok(())
}
