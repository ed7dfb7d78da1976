// The verdict on the bytes of a file for the bytes of the rules.
ghost use Rattle.std.specs.Prelude.{◌≡◌};
ghost use Rattle.checker.specs.Judged.{verdict_on};

use crate::command::Kind;
use game::refusal::Refusal;
use game::rules::Rules;
use rows::judge::Accepted;

// A match, since the contract speaks of the kind.
pub fn judge(kind: Kind, rules: &[u8], file: &[u8]) -> Result<Accepted, Refusal>
    ensures { result ≡ verdict_on kind rules.now file.now }
{
    let rules = Rules::read(rules)?;
    match kind {
        Kind::Table => table::accept(&rules, file),
        Kind::Way => counter::accept(&rules, file),
    }
}
