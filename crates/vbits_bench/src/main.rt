//! Runs one call of `vbits`: an operator as often as it is told, so that its instructions can be counted, or any call once, so
//! that its result can be compared. In go `repeat`, the operator's name and the number of turns, and out comes a sum of
//! the results; or a call's name and what it takes (`words.rt`), and out come the letters of the result from the left, behind an
//! `s` where it is signed, or a `?` for words that don't go together. Without words nothing is run. No law is claimed.
#![tactic(auto)]

mod operators;
mod words;

use operators::{operator_of, run};
use std::{env, io};
use vbits::{Bit4, Vec4};
use words::value_of_call;

fn print_letters(rt: &impl Print, vector: Vec4) -> io::Result<()> {
    for i in 0..vector.len() {
        let shown = match vector.bit(vector.len() - 1 - i) {
            Bit4::Zero => "0",
            Bit4::One => "1",
            Bit4::X => "x",
            Bit4::Z => "z",
        };
        rt.print(shown)?;
    }
    Ok(())
}

fn show(rt: &impl Print, answer: Option<Vec4>) -> io::Result<()> {
    match answer {
        Some(vector) => {
            if vector.signed() {
                rt.print("s")?;
            }
            print_letters(rt, vector)?;
        }
        None => rt.print("?")?,
    }
    rt.println("")
}

fn main(rt: HostRuntime) -> io::Result<()> {
    let given = env::args(&rt)?.collect::<Vec<String>>(rt.alloc())?;
    let mut words = Vec::new(rt.alloc());
    for word in &given {
        words.push(word.as_str())?;
    }
    match words.as_slice() {
        [_, "repeat", name, turns] => {
            let turns = turns.parse::<u64>().unwrap_or(0);
            let sum = run(operator_of(name), turns);
            println!(rt; "{name} {turns} {sum}")
        }
        [] | [_] => Ok(()),
        [_, call @ ..] => show(&rt, value_of_call(call)),
    }
}
