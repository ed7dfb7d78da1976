// Tables and counterstrategies made by hand, accepted, and then with one byte changed so that each condition fails in turn.
#![tactic(auto)]

ghost use Rattle.std.specs.Prelude.{◌≡◌, ◌<◌, ◌≤◌, slice_set};

use game::refusal::Refusal;
use game::rules::Rules;
use rows::judge::Accepted;

// A lift with floors 0 and 1 that moves only with power, which the environment promises again and again: state bit 0 is
// the power, bit 1 the floor. The move says whether there is power next, the answer is the next floor. Goal: floor 1.
pub const LIFT: [u8; 24] = [
    2, 1, 1, // bits
    1, 1, // any move
    5, 4, 16, 5, 48, 17, // with power, or the floor stays
    1, 32, 1, 48, // power and floor after
    1, 1, 16, // promise: power
    1, 1, 17, // goal: floor 1
    1, 0, 0, // start in state 0
];

// State by state: known, the answers without and with power next, two bytes of rank, the promise waited for.
pub const LIFT_TABLE: [u8; 24] = [
    1, 0, 0, 1, 0, 0, // floor 0 without power: wait
    1, 1, 1, 1, 0, 0, // floor 0 with power: go
    1, 1, 1, 0, 0, 8, // floor 1: stay
    1, 1, 1, 0, 0, 8,
];

// The same lift stuck: it may only go down, and the environment gives power in every step.
pub const STUCK: [u8; 21] = [
    2, 1, 1, // bits
    1, 32, // power next
    2, 2, 48, // down
    1, 32, 1, 48, // power and floor after
    1, 1, 16, // promise: power
    1, 1, 17, // goal: floor 1
    1, 0, 0, // start in state 0
];

// State by state: known, two bytes of layer, the goal kept away from, then for the promise a move and two bytes of rank.
pub const STUCK_WAY: [u8; 28] = [
    1, 0, 0, 0, 1, 1, 0, // floor 0 without power
    1, 0, 0, 0, 1, 0, 0, // floor 0 with power: the promise is kept
    1, 1, 0, 0, 1, 1, 0, // floor 1, where the goal holds: a layer of its own
    1, 1, 0, 0, 1, 0, 0,
];

// A switch without promises whose goal never holds: one state bit, which the answer sets.
pub const OFF: [u8; 16] = [1, 0, 1, 1, 1, 1, 1, 1, 48, 0, 1, 1, 0, 1, 0, 0];

// What became of a file: how many states are known, or the number and the place of a refusal, as they are printed.
pub fn outcome(verdict: Result<Accepted, Refusal>) -> Result<u32, (usize, usize)> {
    verdict
        .map(|accepted| accepted.known)
        .map_err(|refusal| (refusal.number(), refusal.place()))
}

// A checker's verdict on a file, for the rules in another.
fn judged<'a, F>(accept: F, rules: &'a [u8], file: &'a [u8]) -> Result<Accepted, Refusal>
where
    F: FnOnce(&Rules<'a>, &'a [u8]) -> Result<Accepted, Refusal>,
    requires { F.IsAlwaysCallable accept }
{
    accept(&Rules::read(rules)?, file)
}

pub fn table(rules: &[u8], file: &[u8]) -> Result<u32, (usize, usize)> {
    outcome(judged(table::accept, rules, file))
}

pub fn way(rules: &[u8], file: &[u8]) -> Result<u32, (usize, usize)> {
    outcome(judged(counter::accept, rules, file))
}

// The bytes with one of them changed, if there are so many.
pub fn changed<const N: usize>(mut bytes: [u8; N], at: usize, byte: u8) -> [u8; N]
    ensures within { at < N → result ≡ slice_set bytes.entry at byte }
    ensures past { N ≤ at → result ≡ bytes.entry }
{
    if at < N {
        bytes[at] = byte;
    }
    bytes
}

// The table of the lift with one byte changed.
pub fn lift(at: usize, byte: u8) -> Result<u32, (usize, usize)> {
    table(&LIFT, &changed(LIFT_TABLE, at, byte))
}

// The counterstrategy of the stuck lift with one byte changed.
pub fn stuck(at: usize, byte: u8) -> Result<u32, (usize, usize)> {
    way(&STUCK, &changed(STUCK_WAY, at, byte))
}

#[cfg(test)]
mod tests {
    use super::*;

    #[test]
    fn tables_are_accepted(rt: HostRuntime) {
        assert_eq!(rt; table(&LIFT, &LIFT_TABLE), Ok(4));
        assert_eq!(rt; lift(6, 1), Ok(4), "nothing changed");
    }

    #[test]
    fn table_lengths(rt: HostRuntime) {
        assert_eq!(rt; table(&LIFT, &LIFT_TABLE[0..23]), Err((1, 23)));
        assert_eq!(rt; table(&LIFT, &[]), Err((1, 0)));
        assert_eq!(rt; table(&LIFT, &[0; 25]), Err((1, 24)));
    }

    #[test]
    fn table_ranges(rt: HostRuntime) {
        assert_eq!(rt; lift(0, 2), Err((8, 0)), "known is neither 0 nor 1");
        assert_eq!(rt; lift(13, 2), Err((8, 2)), "an answer has a bit too many");
        assert_eq!(rt; lift(17, 1), Err((8, 2)), "a promise that there is not");
        assert_eq!(rt; lift(17, 9), Err((8, 2)), "past the number for none");
    }

    #[test]
    fn table_steps(rt: HostRuntime) {
        assert_eq!(rt; lift(1, 1), Err((8, 0)), "the answer is not allowed");
        assert_eq!(rt; lift(12, 0), Err((8, 1)), "it leads to an unknown state");
        assert_eq!(rt; lift(3, 0), Err((8, 0)), "the rank rises");
        assert_eq!(rt;
            lift(11, 8),
            Err((8, 0)),
            "another promise is waited for after"
        );
        assert_eq!(rt; lift(5, 8), Err((8, 0)), "none is waited for");
        assert_eq!(rt; lift(7, 0), Err((8, 1)), "the promise waited for holds");
        assert_eq!(rt; lift(9, 2), Err((8, 0)), "the first state counts");
    }

    #[test]
    fn table_starts(rt: HostRuntime) {
        let mut bytes = LIFT_TABLE;
        bytes[0] = 0;
        bytes[7] = 1;
        assert_eq!(rt; table(&LIFT, &bytes), Err((10, 0)));
    }

    #[test]
    fn ways_are_accepted(rt: HostRuntime) {
        assert_eq!(rt; way(&STUCK, &STUCK_WAY), Ok(4));
    }

    #[test]
    fn way_lengths(rt: HostRuntime) {
        assert_eq!(rt; way(&STUCK, &STUCK_WAY[0..27]), Err((1, 27)));
        assert_eq!(rt; way(&STUCK, &[0; 29]), Err((1, 28)));
    }

    #[test]
    fn way_ranges(rt: HostRuntime) {
        assert_eq!(rt; stuck(21, 3), Err((9, 3)), "known is neither 0 nor 1");
        assert_eq!(rt; stuck(17, 1), Err((9, 2)), "a goal that there is not");
        assert_eq!(rt; stuck(11, 3), Err((9, 1)), "a move with a bit too many");
    }

    #[test]
    fn way_steps(rt: HostRuntime) {
        assert_eq!(rt; stuck(11, 0), Err((9, 1)), "the move is not legal");
        assert_eq!(rt;
            stuck(7, 0),
            Err((9, 0)),
            "an answer leads to an unknown state"
        );
        assert_eq!(rt; stuck(8, 1), Err((9, 0)), "the layer rises");
        assert_eq!(rt;
            stuck(15, 0),
            Err((9, 2)),
            "the goal kept away from holds, and the layer stays"
        );
        assert_eq!(rt; stuck(5, 0), Err((9, 0)), "the rank does not fall");
    }

    #[test]
    fn way_starts(rt: HostRuntime) {
        assert_eq!(rt; stuck(0, 0), Err((10, 0)));
    }

    #[test]
    fn ways_without_promises(rt: HostRuntime) {
        assert_eq!(rt;
            way(&OFF, &[1, 0, 0, 0, 0, 5, 0, 1, 0, 0, 0, 0, 5, 0]),
            Ok(2)
        );
        assert_eq!(rt;
            way(&OFF, &[1, 0, 0, 0, 0, 5, 0, 1, 0, 0, 0, 0, 4, 0]),
            Err((9, 0)),
            "the rank changes"
        );
        assert_eq!(rt;
            way(&OFF[0..15], &[]),
            Err((1, 15)),
            "the rules are refused first"
        );
    }
}
