// The program that people use. `sitebook check` reads a manuscript on standard input and prints what it holds; `sitebook settle`
// makes passes over it until they settle.
#![tactic(auto)]

use failures::Failure;
use layouts::{FixedForm, LineFiller};
use manuscript::{Counts, check};
use settle::{Tries, settle_on};
use std::env;
use std::io::{self, Read};
use std::process::ExitCode;

mod book;
mod failures;
mod settle;

// The manuscript on standard input.
fn read_text(rt: &HostRuntime) -> io::Result<Vec<u8>> {
    let mut text = Vec::new(rt.alloc());
    rt.stdin().read_to_end(&mut text)?;
    Ok(text)
}

fn check_text(rt: &HostRuntime) -> Result<(), Failure> {
    let text = read_text(rt)?;
    let Counts {
        lines,
        labels,
        headings,
    } = check(&text).map_err(|fault| Failure::from(fault).naming(rt.alloc(), &text))?;
    println!(rt; "lines {lines}")?;
    println!(rt; "labels {labels}")?;
    println!(rt; "headings {headings}")?;
    Ok(())
}

fn settle_text(rt: &HostRuntime, words: &[&str]) -> Result<(), Failure> {
    match words {
        ["L", width, height, letter, limit] => {
            let tries = Tries::read(*letter, *limit)?;
            settle_on(rt, tries, LineFiller::new(width.parse()?, height.parse()?)?)
        }
        ["F", cell, cells, rows, letter, limit] => {
            let tries = Tries::read(*letter, *limit)?;
            settle_on(
                rt,
                tries,
                FixedForm::new(cell.parse()?, cells.parse()?, rows.parse()?)?,
            )
        }
        _ => Err(Failure::Usage),
    }
}

fn run(rt: &HostRuntime) -> Result<(), Failure> {
    let arguments: Vec<String> = env::args(rt)?.collect(rt.alloc())?;
    let words: Vec<&str> = arguments
        .iter()
        .map(|word| word.as_str())
        .collect(rt.alloc())?;
    let words: &[&str] = &words;
    match words {
        [_, "check", ..] => check_text(rt),
        [_, "settle", rest @ ..] => settle_text(rt, rest),
        _ => Err(Failure::Usage),
    }
}

fn main(rt: HostRuntime) -> ExitCode {
    match run(&rt) {
        Ok(()) => ExitCode::SUCCESS,
        Err(failure) => {
            let _ = eprintln!(rt; "sitebook: {failure}");
            ExitCode::FAILURE
        }
    }
}
