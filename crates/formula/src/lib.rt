// Formulas over the bits of a state, a move and an answer: a row of bytes, each operator before its operands.
#![tactic(auto)]

ghost use Rattle.std.specs.Prelude.{◌≡◌, ◌≤◌, true, ◌++◌, length, is_ok, if◌then◌else◌};
ghost use Rattle.formula.specs.Trees.{Tree, meaning, written, Fits};
ghost use Rattle.formula.specs.Reading.{formula_of};
ghost use Rattle.formula.specs.Values.{Values};
ghost use Rattle.formula.specs.Laws.{Reads, Formed};

pub mod bits;
pub mod lanes;
pub mod reading;
pub mod scope;
pub mod symbol;
pub mod theorems;
mod values;

use bits::has_bit;
use lanes::{Numbers, Steps};
use reading::Fault;
use scope::Scope;
use std::alloc::AllocError;

// The bytes of a formula. A row that was never read has a meaning too: what lacks in it is taken as false.
#[derive(Clone, Copy)]
pub struct Formula<'a> {
    pub bytes: &'a [u8],
}

impl<'a> Formula<'a> {
    // The formula that fills the row, with the bits of the scope; or the first fault, from the front.
    pub fn read(bytes: &'a [u8], scope: Scope) -> Result<Formula<'a>, Fault>
        ensures outcome { Reads scope bytes.now result }
        ensures formed { is_ok result ≡ true → Formed scope bytes.now }
        ensures again { (t : Tree) → Fits scope t → bytes.now ≡ written t → length (written t) ≤ 255 → (is_ok result ≡ true) × (formula_of bytes.now ≡ t) }
    {
        reading::read(bytes, scope)?;
        Ok(Formula { bytes })
    }

    // Appends the formula's bytes; where memory is lacking, nothing.
    pub fn write(self, out: &mut Vec<u8>) -> Result<(), AllocError>
        ensures bytes { out.new.items ≡ (if is_ok result then out.old.items ++ self.entry.bytes.now else out.old.items) }
        ensures tree { (sc : Scope) → Formed sc self.entry.bytes.now → is_ok result ≡ true → out.new.items ≡ out.old.items ++ written (formula_of self.entry.bytes.now) }
    {
        out.extend_from_slice(self.bytes)
    }

    // The values in the steps of the lanes, one bit each.
    pub fn values<S: Numbers, M: Numbers, A: Numbers>(self, steps: &Steps<S, M, A>) -> u64
        ensures { Values (formula_of self.entry.bytes.now) (S.number steps.now.states) (M.number steps.now.moves) (A.number steps.now.answers) result }
    {
        let (word, _) = values::first(self.bytes, steps);
        word
    }

    // The value in one step.
    pub fn value(self, state: u16, moved: u8, answer: u8) -> bool
        ensures { result ≡ meaning (formula_of self.entry.bytes.now) state moved answer }
    {
        has_bit(self.values(&Steps::one(state, moved, answer)), 0)
    }
}
