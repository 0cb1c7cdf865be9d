// Prints what policies say of every row of grades, and which letter each order puts first on every day of a table.
#![tactic(auto)]

mod draws;
mod rates;

use draw_order::EarliestLastDay;
use draw_order::orders::{InsuranceFirst, SmallestHeld};
use draws::{letters, shown_number};
use letters::table::LetterTable;
use rates::{ROWS, Stack, grades_at, rate_both, stack};
use rating::Grades;
use rating::guangxi::GuangxiTable;
use std::io;

fn main(rt: HostRuntime) -> io::Result<()> {
    print_ceilings(rt)?;
    match stack(9) {
        Ok(stack) => print_rates(rt, &stack)?,
        Err(_) => println!(rt; "no stack")?,
    }
    print_draws(rt)
}

fn print_ceilings(rt: HostRuntime) -> io::Result<()> {
    for ceiling in [-128, -1, 0, 100, 101, 127] {
        match stack(ceiling) {
            Ok(_) => println!(rt; "ceiling {ceiling}: accepted")?,
            Err(refusal) => println!(rt; "ceiling {ceiling}: refused with {refusal}")?,
        }
    }
    Ok(())
}

fn print_rates(rt: HostRuntime, stack: &Stack) -> io::Result<()> {
    for index in 0..ROWS {
        let grades = grades_at(index);
        let Grades {
            newest,
            second,
            third,
            fourth,
        } = grades;
        let table = rate_both(&GuangxiTable, &grades);
        let ceiling = rate_both(&stack.below, &grades);
        let arrears = rate_both(stack, &grades);
        println!(rt; "{newest} {second} {third} {fourth}: {table}, {ceiling}, {arrears}")?;
    }
    Ok(())
}

fn print_draws(rt: HostRuntime) -> io::Result<()> {
    let table = LetterTable::from_rows(letters());
    let insured_by_day = InsuranceFirst {
        below: EarliestLastDay,
    };
    let insured_by_sum = InsuranceFirst {
        below: SmallestHeld,
    };
    for day in 0..32 {
        let by_day = shown_number(&table, day, &EarliestLastDay);
        let by_sum = shown_number(&table, day, &SmallestHeld);
        let first = shown_number(&table, day, &insured_by_day);
        let least = shown_number(&table, day, &insured_by_sum);
        println!(rt; "day {day}: {by_day} {by_sum}, insurance first {first} {least}")?;
    }
    Ok(())
}
