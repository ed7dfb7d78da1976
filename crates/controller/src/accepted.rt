// The way to a controller that may run: its table was accepted.
ghost use Rattle.std.specs.Prelude.{◌<◌};
ghost use Rattle.controller.specs.Ready.{Readies};

use crate::Controller;
use game::refusal::Refusal;
use game::rules::Rules;
use table::{Table, accept};

impl<'a> Controller<'a> {
    // A controller at a start of the rules, by its number, with the table that fills the bytes; or why the table is refused.
    pub fn accepted(rules: Rules<'a>, bytes: &'a [u8], start: u8) -> Result<Controller<'a>, Refusal>
        requires { start < rules.starts.count }
        ensures { Readies rules.entry bytes.now start result }
    {
        accept(&rules, bytes)?;
        let table = Table::read(&rules, bytes)?;
        let state = rules.starts.get(start);
        Ok(Controller::new(rules, table, state))
    }
}
