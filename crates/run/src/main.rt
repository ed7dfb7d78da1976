// run RULES TABLE: runs the controller of a table that was accepted.
#![tactic(auto)]

mod input;
mod order;

use cli::failure::Failure;
use cli::{MOST_REASONS, Program};
use controller::Controller;
use game::rules::{MOST_FILE, Rules};
use order::{Order, Source, start_number};
use play::recording::record;
use std::io;
use std::io::BufReader;
use std::process::ExitCode;

const USAGE: &str =
    "run RULES TABLE [--start N] [--log FILE], or run RULES TABLE [--start N] --ask";

const HELP: &str =
    "run RULES TABLE reads moves from standard input, one byte each, and prints the table's answers in a line.
The table is checked first; one that does not hold together, or that does not know every start, is refused and does not run.
  --start N   begin in start N of the rules file; 0 where this is not given
  --log FILE  write the log of the play to FILE, also where a move was refused: the start state (two bytes, low first), then
              a byte for each move and a byte for its answer
  --ask       ask for each move as a number, and show state, goal gone for and answer; ends at the end of input
What is refused prints 'refused N at P', and the status is 1. Of a step: 11 at 0, a move that the environment may not make.
solve --help and check --help say what the other numbers are.";

struct Runner;

impl Program for Runner {
    const NAME: &'static str = "run";

    fn work<'w>(rt: &HostRuntime, words: &'w [String]) -> Result<(), Failure<'w>> {
        match words {
            [word] if word.as_str() == "--help" => Ok(rt.println(HELP)?),
            _ => match Order::parse(words) {
                Some(order) => run(rt, order),
                None => Err(Failure::Misused {
                    program: Self::NAME,
                    usage: USAGE,
                }),
            },
        }
    }
}

fn main(rt: HostRuntime) -> ExitCode {
    cli::run::<Runner>(&rt)
}

// Runs the controller of the table, once it is accepted.
fn run<'a>(rt: &HostRuntime, order: Order<'a>) -> Result<(), Failure<'a>> {
    let file = cli::load(rt, order.rules, MOST_FILE)?;
    let table = cli::load(rt, order.table, MOST_REASONS)?;
    let rules = Rules::read(&file)?;
    let count = rules.starts.count;
    let text = order.start;
    let start = start_number(text, count).ok_or(Failure::NoStart { text, count })?;
    let controller = Controller::accepted(rules, &table, start)?;
    match order.source {
        Source::Asked => Ok(ask(rt, controller)?),
        Source::Piped { log } => play_moves(rt, controller, log),
    }
}

// Runs the controller over all moves of standard input, and prints and logs what it did.
fn play_moves<'a>(
    rt: &HostRuntime,
    controller: Controller<'_>,
    log: Option<&'a str>,
) -> Result<(), Failure<'a>> {
    let moves = input::moves(rt)?;
    let most = input::MOST_MOVES;
    if moves.len() as u64 > most {
        return Err(Failure::TooManyMoves { most });
    }
    let recording = record(controller, moves.as_slice(), rt.alloc())?;
    if let Some(path) = log {
        cli::save(rt, path, recording.log.as_slice())?;
    }
    let line = input::spaced(recording.ran.answers.as_slice(), rt.alloc())?;
    println!(rt; "{line}")?;
    match recording.ran.refusal {
        None => Ok(()),
        Some(refusal) => Err(Failure::Refused(refusal)),
    }
}

// Takes the move that a line of text names, and shows what comes of it.
fn try_line(rt: &HostRuntime, controller: &mut Controller<'_>, line: &[u8]) -> io::Result<()> {
    let moved = std::str::from_utf8(line)
        .ok()
        .and_then(|text| text.trim().parse::<u8>().ok());
    match moved.map(|moved| controller.step(moved)) {
        Some(Ok(answer)) => println!(rt; "answer {answer}"),
        Some(Err(refusal)) => rt.println(refusal),
        None => rt.println("write a move as a number, 0 to 63"),
    }
}

// Asks for moves one by one, until the end of input.
fn ask(rt: &HostRuntime, mut controller: Controller<'_>) -> io::Result<()> {
    let heap = rt.alloc();
    // a byte at a time: what comes after the last line that was asked for is left to the next reader
    let mut input = BufReader::with_capacity(heap, 1, rt.stdin())?;
    // a bound, since each loop has to end, and the input need not
    for _ in 0..u64::MAX {
        let state = controller.state;
        let goal = controller.goal;
        print!(rt; "state {state}, goal {goal}, move? ")?;
        let Some(line) = input::line(&mut input, heap)? else {
            break;
        };
        try_line(rt, &mut controller, line.as_slice())?;
    }
    println!(rt; "")
}
