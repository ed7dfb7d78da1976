// Reading: whether a row of bytes is a formula of a scope, and where it is not.
ghost use Rattle.std.specs.Prelude.{◌≡◌, ◌+◌, ◌≤◌, length};
ghost use Rattle.formula.specs.Reading.{scan, reading};

use crate::scope::Scope;
use crate::symbol::Symbol;

// The most bytes that a formula has: its length is written in one byte.
pub const MOST_BYTES: usize = 255;

// Why a row of bytes is no formula of a scope.
#[derive(Clone, Copy, PartialEq, Eq, Debug)]
pub enum Fault {
    // a byte that stands for nothing, or for a bit that the rule may not use
    Symbol { at: u32 },
    // an operand is lacking at the end
    Short,
    // bytes go on after the formula, or there are more than a formula may have
    Long,
}

// Whether the bytes are a formula of the scope: the first fault, from the front.
pub(crate) fn read(bytes: &[u8], scope: Scope) -> Result<(), Fault>
    ensures { result ≡ reading scope bytes.now }
{
    if bytes.len() > MOST_BYTES {
        return Err(Fault::Long);
    }
    operands(bytes, 0, 1, scope)
}

// Reads `wanted` formulas one after the other; `at` is the place of the first byte in the row.
fn operands(bytes: &[u8], at: usize, wanted: usize, scope: Scope) -> Result<(), Fault>
    requires short { at + length bytes.now ≤ 255 }
    requires few { wanted ≤ at + 1 }
    ensures { result ≡ scan scope at wanted bytes.now }
{
    match (bytes, wanted) {
        ([], 0) => Ok(()),
        ([], _) => Err(Fault::Short),
        (_, 0) => Err(Fault::Long),
        ([byte, rest @ ..], _) => {
            let symbol = Symbol::from(*byte);
            if !scope.permits(symbol) {
                return Err(Fault::Symbol { at: at as u32 });
            }
            operands(rest, at + 1, wanted - 1 + symbol.arity(), scope)
        }
    }
}
