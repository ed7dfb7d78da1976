// Runs of the controller that leave a log behind.
ghost use Rattle.std.specs.Prelude.{◌≡◌, ◌++◌, IfOk, OnOk};
ghost use Rattle.play.specs.Logs.{paired, spelled};
ghost use Rattle.play.specs.Recorded.{Recorded};

use crate::log::Log;
use controller::{Controller, Ran};
use std::alloc::{AllocError, Global};

// The controller after a run, what came of the run, and the bytes of its log.
#[derive(Drop)]
pub struct Recording<'a> {
    pub controller: Controller<'a>,
    pub ran: Ran,
    pub log: Vec<u8>,
}

// Appends a move and its answer for each step.
fn write_steps(moves: &[u8], answers: &[u8], out: &mut Vec<u8>) -> Result<(), AllocError>
    ensures { OnOk result (out.new.items ≡ out.old.items ++ spelled (paired moves.now answers.now)) }
{
    for (moved, answer) in moves.iter().zip(answers) {
        out.extend_from_slice(&[*moved, *answer])?;
    }
    Ok(())
}

// Runs the controller over a row of moves, up to the first refusal, and writes the log of it.
pub fn record<'a>(
    mut controller: Controller<'a>,
    moves: &[u8],
    heap: Global,
) -> Result<Recording<'a>, AllocError>
    ensures { IfOk result (Recorded controller.entry moves.now) }
{
    let begun = Log {
        start: controller.state,
        steps: &[],
    };
    let ran = controller.run(moves, heap)?;
    let mut log = Vec::new(heap);
    begun.write(&mut log)?;
    write_steps(moves, ran.answers.as_slice(), &mut log)?;
    Ok(Recording {
        controller,
        ran,
        log,
    })
}
