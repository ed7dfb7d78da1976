// The game of the rules, evaluated once into lent tables.
ghost use Rattle.std.specs.Prelude.{◌≡◌, ℕ, ◌*◌, ◌<◌, ◌≤◌, length};
ghost use Rattle.std.specs.List.{HoldsAt};
ghost use Rattle.game.specs.Agree.{Agree};
ghost use Rattle.game.specs.Content.{Valid, content, formulas_of};
ghost use Rattle.game.specs.Meaning.{game_of};
ghost use Rattle.sets.specs.Arena.{arena_game};
ghost use Rattle.sets.specs.Tabulate.{AllowedTable, LegalTable, NextRow, NextTable, Sized, StateRow, StateTable, answer_count, holds_of, move_count, state_count};

use crate::arena::Arena;
use crate::lanes::{Answers, allowed_answers, legal_moves};
use crate::packed::{WORDS, field_of, spell};
use formula::bits::has_bit;
use game::rules::{Rules, Section};
use game::section::spelt;
use game::widths::STATE_BITS;

// The memory lent for the tabulated game: as many entries of `legal`, `promises` and `goals` as there are states, of
// `allowed` as steps, and of `next` as steps with an answer.
#[derive(Drop)]
pub struct Tables<'a> {
    pub legal: &'a mut [u64],
    pub allowed: &'a mut [u64],
    pub next: &'a mut [u16],
    pub promises: &'a mut [u8],
    pub goals: &'a mut [u8],
}

// Fills a table with an entry for each state.
fn fill_by<T: Copy, F: Fn(u16) -> T>(table: &mut [T], entry: F)
    requires few { length table.old ≤ 65536 }
    requires callable { F.IsAlwaysCallable entry }
    ensures { (s : ℕ) → s < length table.new → HoldsAt (F.post entry s) table.new s }
{
    for (state, cell) in table.iter_mut().enumerate() {
        *cell = entry(state as u16);
    }
}

// The legal moves of each state.
fn tabulate_legal(rules: &Rules<'_>, legal: &mut [u64])
    requires { length legal.old ≤ 65536 }
    ensures { LegalTable (game_of (content rules.now)) legal.new }
{
    fill_by(legal, |state| legal_moves(rules, state));
}

// The allowed answers to each legal move; none to one that is not legal, so that it costs no evaluation.
fn tabulate_allowed(rules: &Rules<'_>, legal: &[u64], allowed: &mut [u64])
    requires size { length allowed.old ≡ state_count (content rules.now) * move_count (content rules.now) }
    requires known { length legal.now ≡ state_count (content rules.now) }
    ensures { AllowedTable (game_of (content rules.now)) (move_count (content rules.now)) legal.now allowed.new }
{
    let moves = rules.widths.moves() as usize;
    // a step's state and move are parts of its number: of rows that `chunks_exact_mut` lends, a proof knows the length alone
    for (k, word) in allowed.iter_mut().enumerate() {
        let (state, moved) = (k / moves, k % moves);
        *word = if has_bit(legal[state], moved) {
            let state = state as u16;
            let moved = moved as u8;
            allowed_answers(rules, Answers { state, moved })
        } else {
            0
        };
    }
}

// The states after one move: of each allowed answer the state after it, and 0 for the others.
fn states_after(rules: &Rules<'_>, step: Answers, allowed: u64, row: &mut [u16])
    requires { length row.old ≤ 64 }
    ensures { NextRow ((game_of (content rules.now)).after step.state step.moved) allowed row.new }
{
    if allowed == 0 {
        row.fill(0);
        return;
    }
    let mut packed = [0; WORDS];
    let next = rules.steps.next;
    spell(
        next.bytes,
        next.count.min(STATE_BITS),
        step,
        allowed,
        &mut packed,
    );
    for (a, state) in row.iter_mut().enumerate() {
        *state = field_of(packed[a / 4], a % 4);
    }
}

// The state after each allowed answer to each legal move.
#[tactic(auto, using(crate::proofs::Tables::row_within, crate::proofs::Tables::few_entries))]
fn tabulate_next(rules: &Rules<'_>, allowed: &[u64], next: &mut [u16])
    requires size { length allowed.now ≡ state_count (content rules.now) * move_count (content rules.now) }
    requires room { length next.old ≡ length allowed.now * answer_count (content rules.now) }
    ensures { NextTable (game_of (content rules.now)) (move_count (content rules.now)) (answer_count (content rules.now)) allowed.now next.new }
{
    let moves = rules.widths.moves() as usize;
    let answers = rules.widths.answers() as usize;
    for (k, word) in allowed.iter().enumerate() {
        let step = Answers {
            state: (k / moves) as u16,
            moved: (k % moves) as u8,
        };
        // Not by `chunks_exact_mut`: of what was written through it a proof knows only the length.
        let first = k * answers;
        states_after(rules, step, *word, &mut next[first..first + answers]);
    }
}

// The formulas of a row that hold in a state, one bit each; those after the eighth are left out.
#[tactic(auto, using(crate::proofs::Tables::holding_bit))]
fn holding(section: Section<'_>, state: u16) -> u8
    ensures { StateRow (holds_of (formulas_of section.entry.count section.entry.bytes.now) state) result }
{
    spelt(section.bytes, section.count.min(8), state, 0, 0) as u8
}

// The formulas of a row that hold in each state.
fn tabulate_states(section: Section<'_>, table: &mut [u8])
    requires { length table.old ≤ 65536 }
    ensures { StateTable (holds_of (formulas_of section.entry.count section.entry.bytes.now)) table.new }
{
    fill_by(table, |state| holding(section, state));
}

// The game of the rules as an arena, in the tables that are lent. The two agree wherever a play goes, so a plan, a
// counterstrategy or a controller is as good in the one as in the other.
pub fn tabulate<'a>(rules: &Rules<'_>, tables: Tables<'a>) -> Arena<'a>
    requires sound { Valid (content rules.now) }
    requires room { Sized (content rules.now) tables.legal.now tables.allowed.now tables.next.now tables.promises.now tables.goals.now }
    ensures agrees { Agree (arena_game result) (game_of (content rules.now)) }
    ensures states { result.states ≡ state_count (content rules.now) }
    ensures moves { result.moves ≡ move_count (content rules.now) }
{
    let Tables {
        legal,
        allowed,
        next,
        promises,
        goals,
    } = tables;
    tabulate_legal(rules, legal);
    tabulate_allowed(rules, legal, allowed);
    tabulate_next(rules, allowed, next);
    tabulate_states(rules.promises, promises);
    tabulate_states(rules.goals, goals);
    Arena {
        states: rules.widths.states() as usize,
        moves: rules.widths.moves() as usize,
        answers: rules.widths.answers() as usize,
        promise_count: rules.promises.count as usize,
        goal_count: rules.goals.count as usize,
        legal,
        allowed,
        next,
        promises,
        goals,
    }
}
