// The solver's public call.
ghost use Rattle.std.specs.Prelude.{◌≡◌, ◌+◌, ◌*◌, ◌<◌, ◌≤◌, length};
ghost use Rattle.sets.specs.Arena.{arena_game};
ghost use Rattle.sets.specs.Member.{room};
ghost use Rattle.solver.specs.Call.{Call, Fits, Solves, entries, lent, outcome_of, refusal_of, replies, rows};
ghost use Rattle.solver.specs.Solution.{Solution};

use super::answers::answer_all;
use super::memory::{Outcome, Short, Table, Way};
use super::moves::move_all;
use super::needs::Needs;
use super::outer::settle;
use game::refusal::Refusal;
use sets::arena::Arena;
use sets::set::has;

// How many sets the loops work with.
pub const SETS: usize = 5;

// Solves the game in slices that are long enough; what goes beyond what it takes is left as it is. The slices come one by
// one: of a part of a slice that is lent on in a struct, the proof would not know what was written there.
pub(crate) fn solve_front(
    arena: Arena<'_>,
    sets: &mut [u8],
    known: &mut [u8],
    answers: &mut [u8],
    ranks: &mut [u16],
    waits: &mut [u8],
    layers: &mut [u16],
    avoids: &mut [u8],
    moves: &mut [u8],
    turns: &mut [u16],
) -> u32
    requires { Fits arena sets.old (lent known.old answers.old ranks.old waits.old layers.old avoids.old moves.old turns.old) }
    ensures solves { Solves arena.entry (lent known.old answers.old ranks.old waits.old layers.old avoids.old moves.old turns.old) (lent known.new answers.new ranks.new waits.new layers.new avoids.new moves.new turns.new) }
    ensures rounds { (0 < result) × (result ≤ arena.entry.states + 1) }
{
    let needs = Needs::from(arena);
    let n = needs.states;
    let known = &mut known[0..n];
    let layers = &mut layers[0..n];
    let avoids = &mut avoids[0..n];
    let ranks = &mut ranks[0..needs.entries()];
    let waits = &mut waits[0..needs.entries()];
    let turns = &mut turns[0..needs.rows()];
    let rounds = settle(arena, sets, known, layers, avoids, ranks, waits, turns);
    answer_all(arena, known, ranks, waits, &mut answers[0..needs.replies()]);
    move_all(
        arena,
        known,
        layers,
        avoids,
        turns,
        &mut moves[0..needs.rows()],
    );
    rounds
}

// Solves the game: who wins from each state, with a table with reasons for the controller's states, and a
// counterstrategy for the environment's. Returns how many rounds the outer loop took. Which table and which
// counterstrategy, of those that hold together, is left to choice. Slices that are too short are refused, and then
// nothing lent is changed; what is lent beyond what it takes is left as it is.
pub fn solve(
    arena: Arena<'_>,
    sets: &mut [u8],
    table: Table<'_>,
    way: Way<'_>,
) -> Result<u32, Short>
    ensures { Call arena.entry sets.old (lent table.entry.known.now table.entry.answers.now table.entry.ranks.now table.entry.waits.now way.entry.layers.now way.entry.avoids.now way.entry.moves.now way.entry.ranks.now) sets.new (lent table.exit.0.now table.exit.1.0.now table.exit.1.1.0.now table.exit.1.1.1.0.now way.exit.0.now way.exit.1.0.now way.exit.1.1.0.now way.exit.1.1.1.0.now) result }
{
    Needs::from(arena).check(sets, &table, &way)?;
    // taken apart here and in `solve_rules`: of a struct that is passed on whole, a proof would not know what it leaves
    let Table {
        known,
        answers,
        ranks,
        waits,
    } = table;
    let Way {
        layers,
        avoids,
        moves,
        ranks: turns,
    } = way;
    Ok(solve_front(
        arena, sets, known, answers, ranks, waits, layers, avoids, moves, turns,
    ))
}

// Who wins from the state `s`, read off what `solve` wrote; nothing where it is no state of the slices.
pub fn outcome(known: &[u8], layers: &[u16], rounds: u32, s: usize) -> Option<Outcome>
    ensures { result ≡ outcome_of known.now layers.now rounds s }
{
    if s >= known.len() || s >= layers.len() {
        return None;
    }
    if has(known, s) {
        Some(Outcome::Won { rounds })
    } else {
        Some(Outcome::Lost { layer: layers[s] })
    }
}

// The number and the place of a refusal, for callers that print them.
pub fn refusal(short: Short) -> (u32, u32)
    ensures { result ≡ refusal_of short }
{
    let refusal = Refusal::from(short);
    (refusal.number() as u32, refusal.place() as u32)
}
