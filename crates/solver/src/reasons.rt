// What the outer loop writes beside the zone: the reasons why each goal can be reached, or can't.
ghost use Rattle.std.specs.Prelude.{◌≡◌, ◌*◌, ◌≤◌, length};
ghost use Rattle.sets.specs.Member.{room};

use sets::arena::Arena;

// The game, and a set for what is reached; goal by goal, state by state, the ranks and the promises waited for; and promise
// by promise, state by state, the turns. A goal's row is lent on to the middle loop, a promise's row to the inner one.
#[derive(Drop)]
pub struct Reasons<'g, 'a> {
    pub arena: Arena<'g>,
    pub reach: &'a mut [u8],
    pub ranks: &'a mut [u16],
    pub waits: &'a mut [u8],
    pub turns: &'a mut [u16],
    ghost reach_room: { room reach.now ≡ arena.states },
    ghost ranks_length: { length ranks.now ≡ arena.goal_count * arena.states },
    ghost waits_length: { length waits.now ≡ arena.goal_count * arena.states },
    ghost turns_length: { arena.promise_count * arena.states ≤ length turns.now },
}
