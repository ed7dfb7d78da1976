// A log of a play, as it stands in bytes that are lent: the start state, and a move and an answer for each step.
ghost use Rattle.std.specs.Prelude.{◌≡◌, IfOk, MatchResult};
ghost use Rattle.game.specs.Content.{content};
ghost use Rattle.game.specs.Laws.{Written};
ghost use Rattle.game.specs.Meaning.{game_of};
ghost use Rattle.play.specs.Logs.{Record, Reads, bytes_of, record_of};
ghost use Rattle.play.specs.Replays.{states_from};

use game::refusal::Refusal;
use game::rules::Rules;
use std::alloc::{AllocError, Global};

#[derive(Clone, Copy)]
pub struct Log<'a> {
    pub start: u16,
    pub steps: &'a [u8],
}

impl<'a> Log<'a> {
    // The log that fills the bytes; or they lack a start, or the answer of the last step.
    pub fn read(bytes: &'a [u8]) -> Result<Log<'a>, Refusal>
        ensures outcome { Reads bytes.now result }
        ensures reads_written { (p : Record) → bytes_of p ≡ bytes.now → MatchResult result (λ l. record_of l ≡ p) (λ _. ⊥) }
    {
        match bytes {
            [low, high, steps @ ..] if steps.len() % 2 == 0 => Ok(Log {
                start: u16::from_le_bytes([*low, *high]),
                steps,
            }),
            _ => Err(Refusal::CutOff {
                length: bytes.len(),
            }),
        }
    }

    // Appends the bytes of the log; where memory is lacking, nothing.
    pub fn write(self, out: &mut Vec<u8>) -> Result<(), AllocError>
        ensures { Written out.old.items out.new.items result (bytes_of (record_of self.entry)) }
    {
        let before = out.len();
        let whole = self.steps.len() - self.steps.len() % 2;
        out.extend_from_slice(&self.start.to_le_bytes())?;
        match out.extend_from_slice(&self.steps[..whole]) {
            Ok(()) => Ok(()),
            // no `?`: the start goes again
            Err(lacking) => {
                out.truncate(before);
                Err(lacking)
            }
        }
    }

    // The states that the log goes through by the rules, the start first; no step is asked to be legal.
    pub fn replay(self, rules: &Rules, heap: Global) -> Result<Vec<u16>, AllocError>
        ensures { IfOk result (λ v. v.items ≡ states_from (game_of (content rules.now)) (record_of self.entry)) }
    {
        let mut states = Vec::new(heap);
        let mut state = self.start;
        states.push(state)?;
        for [moved, answer] in self.steps.as_chunks::<2>().0 {
            state = rules.after(state, *moved, *answer);
            states.push(state)?;
        }
        Ok(states)
    }
}
