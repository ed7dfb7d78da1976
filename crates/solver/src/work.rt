// What the inner and the middle loop work with.
ghost use Rattle.std.specs.Prelude.{◌≡◌};
ghost use Rattle.sets.specs.Member.{room};

use sets::arena::Arena;

// The game, and a set for each thing that the loops look for: where a goal is reached, the base of a round, and what
// stays in the inner loop, now and before a turn. The lent memory may live shorter than the game. The zone comes with each
// call: the outer loop lends it, and a struct can't hold what another one lends.
#[derive(Drop)]
pub struct Work<'g, 'a> {
    pub arena: Arena<'g>,
    pub hits: &'a mut [u8],
    pub base: &'a mut [u8],
    pub stay: &'a mut [u8],
    pub before: &'a mut [u8],
    ghost hits_room: { room hits.now ≡ arena.states },
    ghost base_room: { room base.now ≡ arena.states },
    ghost stay_room: { room stay.now ≡ arena.states },
    ghost before_room: { room before.now ≡ arena.states },
}
