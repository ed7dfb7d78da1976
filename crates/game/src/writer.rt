// Writes rules back to bytes, part by part, as the reader reads them.
ghost use Rattle.std.specs.Prelude.{min, [], ◌∷◌, ◌++◌, take};
ghost use Rattle.game.specs.Content.{Valid, content, file_of, formulas_of, with_length, with_lengths};
ghost use Rattle.game.specs.Laws.{Appended, Written, fitted};

use crate::rules::{Rules, StepRules};
use crate::widths::{ANSWER_BITS, MOVE_BITS, STATE_BITS, Widths};
use formula::Formula;
use formula::reading::MOST_BYTES;
use std::alloc::AllocError;

impl Rules<'_> {
    // Appends the bytes of the rules; where memory is lacking, nothing. Of a move rule or an answer rule that no file holds,
    // since its length is above a byte, the first 255 bytes are written.
    pub fn write(&self, out: &mut Vec<u8>) -> Result<(), AllocError>
        ensures bytes { Written out.old.items out.new.items result (file_of (fitted (content self.now))) }
        ensures valid { Valid (content self.now) → Written out.old.items out.new.items result (file_of (content self.now)) }
    {
        let before = out.len();
        match write_rules(*self, out) {
            Ok(()) => Ok(()),
            // no `?`: what was written goes again
            Err(lacking) => {
                out.truncate(before);
                Err(lacking)
            }
        }
    }
}

// The whole file.
fn write_rules(rules: Rules<'_>, out: &mut Vec<u8>) -> Result<(), AllocError>
    ensures { Appended out.old.items out.new.items result (file_of (fitted (content rules.entry))) }
{
    write_widths(rules.widths, out)?;
    write_steps(rules.steps, out)?;
    rules.promises.write_group(out)?;
    rules.goals.write_group(out)?;
    rules.starts.write_group(out)
}

// The counts of bits.
fn write_widths(widths: Widths, out: &mut Vec<u8>) -> Result<(), AllocError>
    ensures { Appended out.old.items out.new.items result (min widths.state 12 ∷ min widths.moves 6 ∷ min widths.answer 6 ∷ []) }
{
    let bits = [
        widths.state.min(STATE_BITS),
        widths.moves.min(MOVE_BITS),
        widths.answer.min(ANSWER_BITS),
    ];
    out.extend_from_slice(&bits)
}

// The rules of a step.
fn write_steps(steps: StepRules<'_>, out: &mut Vec<u8>) -> Result<(), AllocError>
    ensures { Appended out.old.items out.new.items result
        (with_length (take 255 steps.entry.moves.bytes.now) ++ (with_length (take 255 steps.entry.answers.bytes.now)
        ++ with_lengths (formulas_of (min steps.entry.next.count 12) steps.entry.next.bytes.now))) }
{
    write_formula(steps.moves, out)?;
    write_formula(steps.answers, out)?;
    steps.next.up_to(STATE_BITS).write(out)
}

// A formula after its length.
pub(crate) fn write_formula(formula: Formula<'_>, out: &mut Vec<u8>) -> Result<(), AllocError>
    ensures { Appended out.old.items out.new.items result (with_length (take 255 formula.entry.bytes.now)) }
{
    let len = formula.bytes.len().min(MOST_BYTES);
    out.push(len as u8)?;
    out.extend_from_slice(&formula.bytes[..len])
}
