// Answers request lines on standard input, a line each: the cases of outside models are run by it.
#![tactic(auto)]

use answers::answer;
use std::io::{BufRead, BufReader};

mod answers;
mod digits;
mod named;
mod records;
mod sessions;
mod steps;
mod unanswered;

fn run(rt: &HostRuntime) -> anyhow::Result<()> {
    let heap = rt.alloc();
    for line in BufReader::new(heap, rt.stdin())?.lines(heap) {
        let line = line?;
        let reply = answer(heap, line.as_str())?;
        println!(rt; "{reply}")?;
    }
    Ok(())
}

fn main(rt: HostRuntime) -> anyhow::Result<()> {
    run(&rt)
}
