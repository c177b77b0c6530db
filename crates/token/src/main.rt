#![tactic(auto)]

mod show;

use diagnosis::Line;
use show::show;
use std::io::{BufRead, BufReader};

// Reads tokens from standard input, one a line in hexadecimal, and prints what each holds or why it is refused.
fn main(rt: HostRuntime) -> anyhow::Result<()> {
    run(&rt)
}

fn run(rt: &HostRuntime) -> anyhow::Result<()> {
    let mut number = 0u64;
    for line in BufReader::new(rt.alloc(), rt.stdin())?.split(rt.alloc(), b'\n') {
        let token = match Line::read(rt.alloc(), line?.as_slice())? {
            Line::Passed => continue,
            Line::NotHex => None,
            Line::Token(token) => Some(token),
        };
        number = number.saturating_add(1);
        match token {
            None => println!(rt; "token {number}: not hexadecimal")?,
            Some(token) => show(rt, number, token.as_slice())?,
        }
    }
    Ok(())
}
