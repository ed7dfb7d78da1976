// The solver's public call on the bytes of a rules file.
ghost use Rattle.solver.specs.Call.{lent};
ghost use Rattle.solver.specs.Rules.{RulesCall, all_lent};

use super::memory::{Short, Table, Way};
use super::needs::Needs;
use super::solve::solve_front;
use game::refusal::Refusal;
use game::rules::Rules;
pub use sets::tabulate::Tables;
use sets::tabulate::tabulate;

// Solves the game of the rules that the file holds: who wins from each state, with a table with reasons for the
// controller's states, and a counterstrategy for the environment's. Returns how many rounds the outer loop took. A file
// that holds no rules is refused, and so are slices that are too short, and then nothing lent is changed; what is lent
// beyond what it takes is left as it is.
pub fn solve_rules(
    file: &[u8],
    game: Tables<'_>,
    sets: &mut [u8],
    table: Table<'_>,
    way: Way<'_>,
) -> Result<u32, Refusal>
    ensures { RulesCall file.now (all_lent game.entry.legal.now game.entry.allowed.now game.entry.next.now game.entry.promises.now game.entry.goals.now sets.old (lent table.entry.known.now table.entry.answers.now table.entry.ranks.now table.entry.waits.now way.entry.layers.now way.entry.avoids.now way.entry.moves.now way.entry.ranks.now)) (all_lent game.exit.0.now game.exit.1.0.now game.exit.1.1.0.now game.exit.1.1.1.0.now game.exit.1.1.1.1.0.now sets.new (lent table.exit.0.now table.exit.1.0.now table.exit.1.1.0.now table.exit.1.1.1.0.now way.exit.0.now way.exit.1.0.now way.exit.1.1.0.now way.exit.1.1.1.0.now)) result }
{
    let rules = Rules::read(file)?;
    let needs = Needs::from(&rules);
    let fits = needs.game_fits(
        game.legal.len(),
        game.allowed.len(),
        game.next.len(),
        game.promises.len(),
        game.goals.len(),
        sets.len(),
    );
    if !fits {
        return Err(Refusal::from(Short::Sets));
    }
    if let Err(short) = needs.check(sets, &table, &way) {
        return Err(Refusal::from(short));
    }
    let Tables {
        legal,
        allowed,
        next,
        promises,
        goals,
    } = game;
    let tables = Tables {
        legal: &mut legal[0..needs.states],
        allowed: &mut allowed[0..needs.steps()],
        next: &mut next[0..needs.nexts()],
        promises: &mut promises[0..needs.states],
        goals: &mut goals[0..needs.states],
    };
    let arena = tabulate(&rules, tables);
    let Table {
        known,
        answers,
        ranks,
        waits,
    } = table;
    let Way {
        layers,
        avoids,
        moves,
        ranks: turns,
    } = way;
    Ok(solve_front(
        arena, sets, known, answers, ranks, waits, layers, avoids, moves, turns,
    ))
}
