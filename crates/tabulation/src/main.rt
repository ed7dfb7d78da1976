// tabulation RULES [--time]: how much of a game is in its arena, and with --time how long it took to tabulate.
#![tactic(auto)]

ghost use Rattle.game.specs.Content.{Valid, content};

use cli::Program;
use cli::failure::Failure;
use game::rules::{MOST_FILE, Rules};
use sets::tabulate::{Tables, tabulate};
use std::io;
use std::process::ExitCode;
use std::time::Instant;

const USAGE: &str = "tabulation RULES [--time]";

struct Tabulation;

impl Program for Tabulation {
    const NAME: &'static str = "tabulation";

    fn work<'w>(rt: &HostRuntime, words: &'w [String]) -> Result<(), Failure<'w>> {
        let (rules, timed) = match words {
            [rules] => (rules.as_str(), false),
            [rules, _] => (rules.as_str(), true),
            _ => return Err(Failure::Misused {
                program: Self::NAME,
                usage: USAGE,
            }),
        };
        let file = cli::load(rt, rules, MOST_FILE)?;
        let took = show(rt, &Rules::read(&file)?)?;
        if timed {
            println!(rt; "{took} microseconds")?;
        }
        Ok(())
    }
}

fn main(rt: HostRuntime) -> ExitCode {
    cli::run::<Tabulation>(&rt)
}

// Tabulates the game of the rules, says what its arena has, and returns how many microseconds it took.
fn show(rt: &HostRuntime, rules: &Rules<'_>) -> io::Result<u128>
    requires { Valid (content rules.now) }
{
    let heap = rt.alloc();
    let states = rules.widths.states() as usize;
    let steps = states * rules.widths.moves() as usize;
    let nexts = steps * rules.widths.answers() as usize;
    let mut legal = vec![in heap; 0; states]?;
    let mut allowed = vec![in heap; 0; steps]?;
    let mut next = vec![in heap; 0; nexts]?;
    let mut promises = vec![in heap; 0; states]?;
    let mut goals = vec![in heap; 0; states]?;
    let start = Instant::now(rt)?;
    let tables = Tables {
        legal: &mut legal,
        allowed: &mut allowed,
        next: &mut next,
        promises: &mut promises,
        goals: &mut goals,
    };
    let arena = tabulate(rules, tables);
    let took = start.elapsed(rt)?.as_micros();
    println!(rt;
        "{states} states, {} legal moves, {} allowed answers, states after folded to {:x}",
        ones(arena.legal),
        ones(arena.allowed),
        folded(arena.next)
    )?;
    Ok(took)
}

// How many ones there are in a table of words.
fn ones(table: &[u64]) -> u64 {
    table.iter().fold(0, |all, word| all.saturating_add(word.count_ones() as u64))
}

// The states after, folded into one number so that none is left out.
fn folded(next: &[u16]) -> u64 {
    next.iter()
        .fold(0, |all, state| all.wrapping_mul(31) ^ *state as u64)
}
