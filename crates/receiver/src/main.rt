// The receiver's console: reads commands from standard input, one a line, and prints what the library answers.
#![tactic(auto)]

use command::{passed_over, run_line};
use console::Console;
use std::io;
use std::io::{BufRead, BufReader};

// Carries out one line, whose number is for the error that it may be.
fn carry_out(rt: &HostRuntime, console: &mut Console, number: usize, line: &str) -> io::Result<()> {
    let words: Vec<&str> = line.split_whitespace().collect(rt.alloc())?;
    if passed_over(&words) {
        return Ok(());
    }
    match run_line(console, rt.alloc(), &words) {
        Ok(answer) => println!(rt; "{answer}"),
        Err(trouble) => println!(rt; "error {number} {trouble}"),
    }
}

fn main(rt: HostRuntime) -> io::Result<()> {
    let mut console = Console::new();
    for (i, line) in BufReader::new(rt.alloc(), rt.stdin())?
        .lines(rt.alloc())
        .enumerate()
    {
        let number = i.saturating_add(1);
        match line {
            Ok(text) => carry_out(&rt, &mut console, number, text.as_str())?,
            Err(fault) if fault.kind() == io::ErrorKind::InvalidData => {
                println!(rt; "error {number} not text")?
            }
            Err(fault) => return Err(fault),
        }
    }
    Ok(())
}
