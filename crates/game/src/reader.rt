// Reads a rules file, part by part, or refuses it with the first fault in the order of the bytes.
ghost use Rattle.std.specs.Prelude.{◌≡◌, ◌-◌, length, nat_lt, IfOk};
ghost use Rattle.game.specs.Content.{parts_of, steps_of};
ghost use Rattle.game.specs.Reading.{read_byte, read_width, read_count, misread, read_widths, read_steps, read_formula, many, counted, read_start};
ghost use Rattle.game.specs.Parts.{Parted, Ended};

use crate::part::Part;
use crate::refusal::Refusal;
use crate::rules::{Section, StepRules};
use crate::widths::{ANSWER_BITS, MOVE_BITS, STATE_BITS, Widths};
use formula::Formula;
use formula::reading::Fault;
use formula::scope::Scope;

// The bytes that are left of a file, and the file's length: a place is that length less what is left from there.
#[derive(Drop)]
pub(crate) struct Reader<'a> {
    pub(crate) rest: &'a [u8],
    pub(crate) whole: usize,
}

impl<'a> Reader<'a> {
    // The place of the next byte.
    fn place(&self) -> usize
        ensures { result ≡ self.now.whole - length self.now.rest.now }
    {
        self.whole.saturating_sub(self.rest.len())
    }

    fn byte(&mut self) -> Result<u8, Refusal>
        ensures { Parted self.old self.new result (λ b. b) read_byte }
    {
        let [byte, rest @ ..] = self.rest else {
            return Err(Refusal::CutOff { length: self.whole });
        };
        self.rest = rest;
        Ok(*byte)
    }

    // A count of bits.
    pub(crate) fn width(&mut self, most: u8) -> Result<u8, Refusal>
        ensures { Parted self.old self.new result (λ b. b) (λ w. read_width w most) }
    {
        let at = self.place();
        let bits = self.byte()?;
        if bits > most {
            return Err(Refusal::Bits { at });
        }
        Ok(bits)
    }

    // A count of promises, goals or starts.
    pub(crate) fn count(&mut self, least: u8, most: u8) -> Result<u8, Refusal>
        ensures { Parted self.old self.new result (λ b. b) (λ w. read_count w least most) }
    {
        let at = self.place();
        let n = self.byte()?;
        if n < least || n > most {
            return Err(Refusal::Count { at });
        }
        Ok(n)
    }

    // A formula after its length.
    pub(crate) fn formula(&mut self, scope: Scope) -> Result<Formula<'a>, Refusal>
        ensures { Parted self.old self.new result (λ f. f.bytes.now) (λ w. read_formula w scope) }
    {
        let at = self.place();
        let len = self.byte()? as usize;
        let left = self.rest.len();
        let (bytes, rest) = self.rest.split_at(len.min(left));
        // A match, since a formula may be refused for its length too; with `map_err` the proof of the closure's refusal
        // stays open.
        match Formula::read(bytes, scope) {
            Ok(_) if len > left => Err(Refusal::Length { at }),
            Ok(formula) => {
                self.rest = rest;
                Ok(formula)
            }
            Err(fault) => Err(self.no_formula(at, len, fault)),
        }
    }

    // Why the bytes that are left do not begin with a formula of `len` bytes; its length byte is at `at`.
    fn no_formula(&self, at: usize, len: usize, fault: Fault) -> Refusal
        ensures { let left = length self.now.rest.now in result ≡ misread self.now.whole at left (nat_lt left len) fault }
    {
        let left = self.rest.len();
        match fault {
            Fault::Symbol { at: k } => Refusal::Symbol {
                at: self.whole.saturating_sub(left.saturating_sub(k as usize)),
            },
            Fault::Short if left < len => Refusal::CutOff { length: self.whole },
            Fault::Short | Fault::Long => Refusal::Length { at },
        }
    }

    // A state of two bytes, the low one first.
    pub(crate) fn state(&mut self, states: u32) -> Result<u16, Refusal>
        ensures { Parted self.old self.new result (λ s. s) (λ w. read_start w states) }
    {
        let at = self.place();
        let low = self.byte()?;
        let high = self.byte()?;
        let state = u16::from_le_bytes([low, high]);
        if state as u32 >= states {
            return Err(Refusal::Start { at });
        }
        Ok(state)
    }

    // n parts one after the other.
    pub(crate) fn section<P: Part<'a>>(
        &mut self,
        n: u8,
        limit: P::Limit,
    ) -> Result<Section<'a, P>, Refusal>
        ensures parts { Parted self.old self.new result (λ s. parts_of P.first P.others s.count s.bytes.now) (λ w. many (P.reads w limit) n) }
        ensures count { IfOk result (λ s. s.count ≡ n) }
    {
        let bytes = self.rest;
        for _ in 0..n {
            P::read(self, limit)?;
        }
        Ok(Section::new(n, bytes))
    }

    // A count and that many parts.
    pub(crate) fn group<P: Part<'a>>(
        &mut self,
        least: u8,
        most: u8,
        limit: P::Limit,
    ) -> Result<Section<'a, P>, Refusal>
        ensures { Parted self.old self.new result (λ s. parts_of P.first P.others s.count s.bytes.now) (λ w. counted w (P.reads w limit) least most) }
    {
        let n = self.count(least, most)?;
        self.section(n, limit)
    }

    // Nothing is left.
    pub(crate) fn end(&self) -> Result<(), Refusal>
        ensures { Ended self.now result }
    {
        if self.rest.is_empty() {
            Ok(())
        } else {
            Err(Refusal::GoesOn { at: self.place() })
        }
    }

    // The counts of bits.
    pub(crate) fn widths(&mut self) -> Result<Widths, Refusal>
        ensures { Parted self.old self.new result (λ b. b) read_widths }
    {
        let state = self.width(STATE_BITS)?;
        let moves = self.width(MOVE_BITS)?;
        let answer = self.width(ANSWER_BITS)?;
        Ok(Widths {
            state,
            moves,
            answer,
        })
    }

    // The rules of a step.
    pub(crate) fn steps(&mut self, widths: Widths) -> Result<StepRules<'a>, Refusal>
        ensures parts { Parted self.old self.new result steps_of (λ w. read_steps w widths) }
        ensures count { IfOk result (λ s. s.next.count ≡ widths.state) }
    {
        let moves = self.formula(widths.move_scope())?;
        let answers = self.formula(widths.step_scope())?;
        let next = self.section(widths.state, widths.step_scope())?;
        Ok(StepRules {
            moves,
            answers,
            next,
        })
    }
}
