// What stands in rows in a rules file, part after part: formulas after their lengths, and states of two bytes.
ghost use Rattle.std.specs.Prelude.{◌≡◌, ℕ, List, drop, IfOk};
ghost use Rattle.game.specs.Content.{first_formula, other_formulas, first_start, with_length, low_high};
ghost use Rattle.game.specs.Reading.{Step, part, read_formula, read_start};
ghost use Rattle.game.specs.Parts.{Parted};
ghost use Rattle.game.specs.Laws.{Appended};
ghost use Rattle.game.specs.First.{formula_first, start_first};

use crate::reader::Reader;
use crate::refusal::Refusal;
use crate::rules::{Formulas, States};
use crate::section::cut;
use crate::writer::write_formula;
use formula::Formula;
use formula::scope::Scope;
use std::alloc::AllocError;

// A kind of parts, in bytes that are lent for 'a.
pub(crate) trait Part<'a> {
    type Item: Copy;

    // what a part may use: the bits of a formula, how many states there are
    type Limit: Copy;

    // what a part says: a formula's bytes, a state
    ghost Said: { Type 0 };

    ghost said: { Self.Item → Said };

    // the first of a row, and the row after it
    ghost first: { List ℕ → Said };

    ghost others: { List ℕ → List ℕ };

    // what is read of it, and its bytes
    ghost reads: { ℕ → Self.Limit → List ℕ → Step Said };

    ghost bytes_of: { Said → List ℕ };

    // what is read is the first, and the row after it is what is left
    ghost reads_first: { (whole : ℕ) (limit : Self.Limit) (bs : List ℕ) (a : Said) (rest : List ℕ) →
        reads whole limit bs ≡ part a rest → (first bs ≡ a) × (others bs ≡ rest) };

    // The first of a row, and the row after it; where the row ends too early, what lacks is left out or is 0.
    fn cut(row: &'a [u8]) -> (Self::Item, &'a [u8])
        ensures first { said result.0 ≡ first row.now }
        ensures others { result.1.now ≡ others row.now };

    // The next one of a file.
    fn read(reader: &mut Reader<'a>, limit: Self::Limit) -> Result<Self::Item, Refusal>
        ensures { Parted reader.old reader.new result said (λ whole. reads whole limit) };

    // Appends the bytes of the first of a row, and lends the row after it.
    fn copy(row: &'a [u8], out: &mut Vec<u8>) -> Result<&'a [u8], AllocError>
        ensures bytes { Appended out.old.items out.new.items result (bytes_of (first row.now)) }
        ensures others { IfOk result (λ rest. rest.now ≡ others row.now) };
}

// A formula after its length.
impl<'a> Part<'a> for Formulas {
    type Item = Formula<'a>;

    type Limit = Scope;

    ghost Said = { List ℕ };

    ghost said = { λ f. f.bytes.now };

    ghost first = { first_formula };

    ghost others = { other_formulas };

    ghost reads = { read_formula };

    ghost bytes_of = { with_length };

    ghost reads_first = { formula_first };

    fn cut(row: &'a [u8]) -> (Formula<'a>, &'a [u8]) {
        cut(row)
    }

    fn read(reader: &mut Reader<'a>, scope: Scope) -> Result<Formula<'a>, Refusal> {
        reader.formula(scope)
    }

    fn copy(row: &'a [u8], out: &mut Vec<u8>) -> Result<&'a [u8], AllocError> {
        let (first, others) = cut(row);
        write_formula(first, out)?;
        Ok(others)
    }
}

// A state of two bytes, the low one first.
impl<'a> Part<'a> for States {
    type Item = u16;

    type Limit = u32;

    ghost Said = { ℕ };

    ghost said = { λ s. s };

    ghost first = { first_start };

    ghost others = { drop 2 };

    ghost reads = { read_start };

    ghost bytes_of = { low_high };

    ghost reads_first = { start_first };

    fn cut(row: &'a [u8]) -> (u16, &'a [u8]) {
        match row {
            [low, high, others @ ..] => (u16::from_le_bytes([*low, *high]), others),
            [low] => (u16::from(*low), &[]),
            [] => (0, &[]),
        }
    }

    fn read(reader: &mut Reader<'a>, states: u32) -> Result<u16, Refusal> {
        reader.state(states)
    }

    fn copy(row: &'a [u8], out: &mut Vec<u8>) -> Result<&'a [u8], AllocError> {
        let (first, others) = Self::cut(row);
        out.extend_from_slice(&first.to_le_bytes())?;
        Ok(others)
    }
}
