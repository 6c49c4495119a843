// Answers of one line.
use refusal::Refusal;
use std::{fmt, io};

// Prints `refused` and the refusal's number.
pub fn refuse(rt: &HostRuntime, refusal: Refusal) -> io::Result<()> {
    println!(rt; "refused {}", refusal.number())
}

// Prints that word and the value, or the refusal.
pub fn tell<T: fmt::Display + Copy>(
    rt: &HostRuntime,
    word: &str,
    answer: Result<T, Refusal>,
) -> io::Result<()> {
    match answer {
        Ok(value) => println!(rt; "{word} {value}"),
        Err(refusal) => refuse(rt, refusal),
    }
}

// Prints that word alone, or the refusal. A function of its own, since `()` has no text.
pub fn tell_done(rt: &HostRuntime, word: &str, answer: Result<(), Refusal>) -> io::Result<()> {
    match answer {
        Ok(()) => println!(rt; "{word}"),
        Err(refusal) => refuse(rt, refusal),
    }
}
