// Reads a batch from standard input, runs it on a new book, and prints an answer a line and the fault, if there is one.
#![tactic(auto)]

use batch::answer::Answer;
use ledger::book::Book;
use std::io;
use std::io::Read;
use submission::{MOST_ANSWERS, MOST_BYTES, answered, submit};

fn main(rt: HostRuntime) -> io::Result<()> {
    let heap = rt.alloc();
    // One byte more than a batch may have tells that it is too long.
    let mut input = Vec::new(heap);
    rt.stdin()
        .take(MOST_BYTES as u64 + 1)
        .read_to_end(&mut input)?;
    let mut answers = vec![in heap; Answer::BLANK; MOST_ANSWERS]?;
    let mut book = Book::new();
    let result = submit(input.as_slice(), &mut book, answers.as_mut_slice());
    for answer in answers.iter().take(answered(&result)) {
        println!(rt; "{answer}")?;
    }
    if let Err(fault) = result {
        println!(rt; "{fault}")?;
    }
    Ok(())
}
