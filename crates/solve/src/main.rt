// The program `solve`: who wins the game of a rules file from each start, with a table for the controller and a way for the environment.
#![tactic(auto)]

mod command;
mod files;
mod memory;

use cli::Program;
use cli::failure::Failure;
use command::{Command, Task};
use files::{table_file, way_file};
use game::rules::{MOST_FILE, Rules};
use memory::Memory;
use solver::memory::Outcome;
use solver::needs::Needs;
use solver::solve::outcome;
use std::io;
use std::process::ExitCode;

const USAGE: &str = "solve RULES [--table FILE] [--way FILE]";

const HELP: &str = "solve RULES [--table FILE] [--way FILE] solves the game of the rules file RULES.
It prints how many states there are, in how many of them a controller wins, and the rounds of its outer loop; then for each start
'start I won', or 'start I lost layer L' where the environment beats every controller.
--table FILE  writes the table with reasons for the controller; check table RULES FILE reads it
--way FILE    writes the counterstrategy of the environment; check way RULES FILE reads it
A file that is no rules file prints 'refused N at P': N is the kind of fault, P its place, and the status is 1:
  1  the bytes end too early (P: their length) or go on (P: the first too many)
  2  a count of bits is too large: at most 12 for states, 6 for moves, 6 for answers
  3  a byte that stands for nothing, or a bit that the rule may not use
  4  a formula is shorter or longer than its length byte, at P, says
  5  a count out of range: 0 to 8 promises, 1 to 8 goals, 1 to 16 starts
  6  a start state, from P on, has a bit too many";

struct Solver;

impl Program for Solver {
    const NAME: &'static str = "solve";

    fn work<'w>(rt: &HostRuntime, words: &'w [String]) -> Result<(), Failure<'w>> {
        match Command::parse(words) {
            Some(Command::Help) => Ok(rt.println(HELP)?),
            Some(Command::Solve(task)) => solve(rt, task),
            None => Err(Failure::Misused {
                program: Self::NAME,
                usage: USAGE,
            }),
        }
    }
}

fn main(rt: HostRuntime) -> ExitCode {
    cli::run::<Solver>(&rt)
}

// Solves the game of the rules, prints who wins, and writes the files that are asked for.
fn solve<'a>(rt: &HostRuntime, task: Task<'a>) -> Result<(), Failure<'a>> {
    let heap = rt.alloc();
    let file = cli::load(rt, task.rules, MOST_FILE)?;
    let rules = Rules::read(&file)?;
    let mut memory = Memory::new(Needs::from(&rules), heap)?;
    let rounds = memory.solve(&file)?;
    report(rt, &rules, &memory, rounds)?;
    if let Some(path) = task.table {
        cli::save(rt, path, &table_file(&memory, heap)?)?;
    }
    if let Some(path) = task.way {
        cli::save(rt, path, &way_file(&memory, heap)?)?;
    }
    Ok(())
}

// Prints who wins: a line for the whole, and one for each start.
fn report(rt: &HostRuntime, rules: &Rules<'_>, memory: &Memory, rounds: u32) -> io::Result<()> {
    let states = rules.widths.states();
    let known = &memory.table.known;
    let won = known.iter().filter(|mark| **mark == 1).count();
    println!(rt; "states {states} known {won} rounds {rounds}")?;
    for start in 0..rules.starts.count {
        let state = rules.starts.get(start) as usize;
        let won = outcome(known, &memory.way.layers, rounds, state);
        report_start(rt, start, won)?;
    }
    Ok(())
}

// Prints who wins from one start.
fn report_start(rt: &HostRuntime, start: u8, won: Option<Outcome>) -> io::Result<()> {
    match won {
        Some(Outcome::Won { .. }) => println!(rt; "start {start} won"),
        Some(Outcome::Lost { layer }) => println!(rt; "start {start} lost layer {layer}"),
        None => Ok(()),
    }
}
