// Rows of parts: one by its number, their bytes, and the numbers that formulas spell.
ghost use Rattle.std.specs.Prelude.{◌≡◌, ◌^◌, ◌<◌, ◌≤◌, ◌&&◌, not, nat_lt, min, [], ◌∷◌, length, slice_get, slice_index, slice_index_or};
ghost use Rattle.std.specs.Option.{option_map};
ghost use Rattle.game.specs.Content.{first_formula, other_formulas, parts_of, formulas_of, starts_of, written_all};
ghost use Rattle.game.specs.Laws.{Appended};
ghost use Rattle.game.specs.Meaning.{number, value_of};

use crate::part::Part;
use crate::rules::{Section, Starts, States};
use formula::Formula;
use std::alloc::AllocError;
use std::marker::PhantomData;

// The first formula of a row, and the row after it; both are empty where the row is.
pub fn cut<'a>(bytes: &'a [u8]) -> (Formula<'a>, &'a [u8])
    ensures first { result.0.bytes.now ≡ first_formula bytes.now }
    ensures others { result.1.now ≡ other_formulas bytes.now }
{
    let [len, rest @ ..] = bytes else {
        return (Formula { bytes }, bytes);
    };
    let (first, others) = rest.split_at((*len as usize).min(rest.len()));
    (Formula { bytes: first }, others)
}

// The number whose bits are the values of the first n formulas of a row, the lowest first. A loop would need the worth of
// each bit beside the sum; the recursion is the definition.
pub fn spelt(bytes: &[u8], n: u8, state: u16, moved: u8, answer: u8) -> u16
    requires { n ≤ 16 }
    ensures value { result ≡ number (formulas_of n bytes.now) state moved answer }
    ensures bound { result < 2 ^ n }
{
    if n == 0 {
        return 0;
    }
    let (first, others) = cut(bytes);
    let low = u16::from(first.value(state, moved, answer));
    let high = spelt(others, n - 1, state, moved, answer);
    low + 2 * high
}

impl<'a, P> Section<'a, P> {
    // So many parts of a row that is lent, as the reader takes them, and whoever makes rules by hand.
    pub fn new(count: u8, bytes: &'a [u8]) -> Section<'a, P>
        ensures count { result.count ≡ count }
        ensures bytes { result.bytes.now ≡ bytes.now }
    {
        Section {
            count,
            bytes,
            of: PhantomData,
        }
    }
}

impl<'a, P: Part<'a>> Section<'a, P> {
    // The part of a number.
    pub(crate) fn nth(self, i: u8) -> Option<P::Item>
        ensures { option_map P.said result ≡ slice_get (parts_of P.first P.others self.entry.count self.entry.bytes.now) i }
    {
        if i >= self.count {
            return None;
        }
        let mut row = self.bytes;
        // parts of a kind may differ in length, so there is no slice of them to go through
        for _ in 0..i {
            row = P::cut(row).1;
        }
        Some(P::cut(row).0)
    }

    // No more than so many of them.
    pub(crate) fn up_to(self, most: u8) -> Section<'a, P>
        ensures count { result.count ≡ min self.entry.count most }
        ensures bytes { result.bytes.now ≡ self.entry.bytes.now }
    {
        Section {
            count: self.count.min(most),
            ..self
        }
    }

    // Appends the parts.
    pub(crate) fn write(self, out: &mut Vec<u8>) -> Result<(), AllocError>
        ensures { Appended out.old.items out.new.items result (written_all P.bytes_of (parts_of P.first P.others self.entry.count self.entry.bytes.now)) }
    {
        let mut row = self.bytes;
        for _ in 0..self.count {
            row = P::copy(row, out)?;
        }
        Ok(())
    }

    // Appends the parts after their count.
    pub(crate) fn write_group(self, out: &mut Vec<u8>) -> Result<(), AllocError>
        ensures { Appended out.old.items out.new.items result
            (let parts = parts_of P.first P.others self.entry.count self.entry.bytes.now in length parts ∷ written_all P.bytes_of parts) }
    {
        out.push(self.count)?;
        self.write(out)
    }
}

impl<'a> Section<'a> {
    // The formula of a number; an empty one where there is none.
    pub fn formula(self, i: u8) -> Formula<'a>
        ensures { result.bytes.now ≡ slice_index_or (formulas_of self.entry.count self.entry.bytes.now) i [] }
    {
        self.nth(i).unwrap_or(Formula { bytes: &[] })
    }

    // Whether formula i holds in the state; one that there is not holds nowhere.
    pub fn holds(self, i: u8, state: u16) -> bool
        ensures { result ≡ value_of (slice_index_or (formulas_of self.entry.count self.entry.bytes.now) i []) state 0 0 }
    {
        self.formula(i).value(state, 0, 0)
    }

    // Whether there is a formula i, and it does not hold in the state.
    #[tactic(auto, using(crate::proofs::Appending::formulas_count, std::proofs::lemmas::Bool::Decides::nat_tests))]
    pub fn lacks(self, i: u8, state: u16) -> bool
        ensures { let formulas = formulas_of self.entry.count self.entry.bytes.now in
            result ≡ (nat_lt i (length formulas) && not (value_of (slice_index_or formulas i []) state 0 0)) }
    {
        i < self.count && !self.holds(i, state)
    }
}

impl Starts<'_> {
    // The start of a number; 0 where there is none. Each has two bytes, so no walk leads to it.
    pub fn get(self, i: u8) -> u16
        ensures { result ≡ slice_index (starts_of self.entry.count self.entry.bytes.now) i }
    {
        if i < self.count {
            let at = 2 * i as usize;
            let (_, row) = self.bytes.split_at(at.min(self.bytes.len()));
            States::cut(row).0
        } else {
            0
        }
    }
}
