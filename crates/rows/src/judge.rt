// Judging reasons, a table's or a counterstrategy's, state by state: the first that is faulty, and the first start that is unknown.
ghost use Rattle.std.specs.Prelude.{◌≡◌, ℕ, Bool};
ghost use Rattle.game.specs.Content.{content, starts_of};
ghost use Rattle.game.specs.declared.refusal.Refusal.{Refusal};
ghost use Rattle.rows.specs.Faults.{first_failing, count_of, start_known, verdict_of};

use game::refusal::Refusal;
use game::rules::{Rules, Starts};

// What it is to be accepted: how many states are known.
#[derive(Clone, Copy, PartialEq, Eq, Debug)]
pub struct Accepted {
    pub known: u32,
}

// Reasons that are judged state by state.
pub trait Reasons {
    // whether all rows of a state hold together, whether the state is known, and the refusal of a state with a fault
    ghost sound: { Self → ℕ → Bool };

    ghost aware: { Self → ℕ → Bool };

    ghost blame: { Self → ℕ → Refusal };

    fn holds(&self, state: u16) -> bool
        ensures { result ≡ sound self.now state };

    fn knows(&self, state: u16) -> bool
        ensures { result ≡ aware self.now state };

    fn fault(&self, state: u16) -> Refusal
        ensures { result ≡ blame self.now state };
}

// The first state whose rows do not hold together.
fn first_fault<R: Reasons>(reasons: &R, states: u16) -> Option<u16>
    ensures { result ≡ first_failing states (R.sound reasons.now) }
{
    (0..states).find(|state| !reasons.holds(*state))
}

// The number of the first start that is not known.
fn first_unknown<R: Reasons>(reasons: &R, starts: Starts) -> Option<u8>
    ensures { result ≡ first_failing starts.entry.count (start_known (R.aware reasons.now) (starts_of starts.entry.count starts.entry.bytes.now)) }
{
    (0..starts.count).find(|i| !reasons.knows(starts.get(*i)))
}

// How many states are known.
fn count_known<R: Reasons>(reasons: &R, states: u16) -> u32
    ensures { result ≡ count_of states (R.aware reasons.now) }
{
    (0..states).filter(|state| reasons.knows(*state)).count() as u32
}

// The first fault, state by state and then start by start; or how many states are known.
#[tactic(auto, using(game::proofs::Appending::starts_count))]
pub fn verdict<R: Reasons>(rules: &Rules, reasons: &R) -> Result<Accepted, Refusal>
    ensures { result ≡ verdict_of (content rules.now) (R.sound reasons.now) (R.aware reasons.now) (R.blame reasons.now) }
{
    let states = rules.widths.states() as u16;
    if let Some(state) = first_fault(reasons, states) {
        return Err(reasons.fault(state));
    }
    if let Some(start) = first_unknown(reasons, rules.starts) {
        return Err(Refusal::UnknownStart {
            start: start as usize,
        });
    }
    Ok(Accepted {
        known: count_known(reasons, states),
    })
}
