// The program `check`: whether a table, or a counterstrategy, holds together for the rules of a game and knows every start.
#![tactic(auto)]

mod command;
mod judged;

use cli::failure::Failure;
use cli::{MOST_REASONS, Program};
use command::{Command, Kind};
use game::rules::MOST_FILE;
use judged::judge;
use std::process::ExitCode;

const USAGE: &str = "check table RULES FILE, or check way RULES FILE";

const HELP: &str = "check table RULES FILE    accepts or refuses the table FILE for the rules
check way RULES FILE      the same for a counterstrategy
It prints 'accepted, known N' with the number of states that are known, or 'refused N at P' and ends with status 1:
  1 to 6  the rules, as solve --help says; 1 also the bytes of FILE end too early (P: their length) or go on (P: the first too many)
  8       the table does not hold together: the first state with a faulty row
  9       the counterstrategy does not hold together: the first state with a faulty row
  10      a start that it does not know: its number, from 0 on";

struct Checker;

impl Program for Checker {
    const NAME: &'static str = "check";

    fn work<'w>(rt: &HostRuntime, words: &'w [String]) -> Result<(), Failure<'w>> {
        match Command::parse(words) {
            Some(Command::Help) => Ok(rt.println(HELP)?),
            Some(Command::Check { kind, rules, file }) => check(rt, kind, rules, file),
            None => Err(Failure::Misused {
                program: Self::NAME,
                usage: USAGE,
            }),
        }
    }
}

fn main(rt: HostRuntime) -> ExitCode {
    cli::run::<Checker>(&rt)
}

// Judges one file for the rules in another, and prints the verdict.
fn check<'a>(
    rt: &HostRuntime,
    kind: Kind,
    rules: &'a str,
    file: &'a str,
) -> Result<(), Failure<'a>> {
    let rules = cli::load(rt, rules, MOST_FILE)?;
    let file = cli::load(rt, file, MOST_REASONS)?;
    let accepted = judge(kind, rules.as_slice(), file.as_slice())?;
    println!(rt; "accepted, known {}", accepted.known)?;
    Ok(())
}
