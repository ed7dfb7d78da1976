// What the programs share: their arguments, files read up to a limit and written whole, and how they end.
#![tactic(auto)]

ghost use Rattle.std.specs.Prelude.{◌≡◌, ◌≤◌, is_ok, IfErr, if◌then◌else◌};
ghost use Rattle.std.specs.Process.{exit_status};

pub mod failure;

use failure::Failure;
use std::fs::File;
use std::io::{Read, Write};
use std::process::ExitCode;
use std::{env, fs, io};

// The most bytes of a table: a row of 4 bytes and an answer to each of 64 moves, for each of 4096 states and 8 goals. A
// counterstrategy has fewer.
pub const MOST_REASONS: u64 = 8 * 4096 * (4 + 64);

// A program: its name, and its work on the words after its name.
pub trait Program {
    const NAME: &'static str;

    fn work<'w>(rt: &HostRuntime, words: &'w [String]) -> Result<(), Failure<'w>>;
}

// Runs a program up to its end: with status 0, or 1 where its work failed.
pub fn run<P: Program>(rt: &HostRuntime) -> ExitCode
    ensures { exit_status result ≤ 1 }
{
    match words(rt) {
        Ok(words) => told(rt, P::NAME, P::work(rt, &words)),
        Err(error) => told(rt, P::NAME, Err(Failure::Io(error))),
    }
}

// What a program says at its end, and how it ends: a refusal on standard output; on standard error wrong usage, and what else
// somebody can set right. What else ended the work (closed output, want of memory) is not told.
pub fn told(rt: &HostRuntime, program: &str, outcome: Result<(), Failure<'_>>) -> ExitCode
    ensures { exit_status result ≡ (if is_ok outcome.entry then 0 else 1) }
{
    if let Err(failure) = outcome {
        let _ = match failure {
            Failure::Refused(_) => println!(rt; "{failure}"),
            Failure::Io(_) | Failure::Memory(_) => Ok(()),
            _ => eprintln!(rt; "{program}: {failure}"),
        };
    }
    ending(outcome)
}

// How a program ends, whatever its errors are: with status 0, or 1 where its work failed.
pub fn ending<E: Drop>(outcome: Result<(), E>) -> ExitCode
    ensures { exit_status result ≡ (if is_ok outcome then 0 else 1) }
{
    match outcome {
        Ok(()) => ExitCode::SUCCESS,
        Err(_) => ExitCode::FAILURE,
    }
}

// The arguments after the program's own name.
pub fn words(rt: &HostRuntime) -> io::Result<Vec<String>> {
    let mut words = Vec::new(rt.alloc());
    for word in env::args(rt)?.skip(1) {
        words.push(word)?;
    }
    Ok(words)
}

// The bytes of a file, at most one more than `most`: so a file that is too long shows, and one without end is not read for ever.
pub fn read_up_to(rt: &HostRuntime, path: &str, most: u64) -> io::Result<Vec<u8>> {
    let mut bytes = Vec::new(rt.alloc());
    File::open(rt, path)?
        .take(most.saturating_add(1))
        .read_to_end(&mut bytes)?;
    Ok(bytes)
}

// The same, with a failure that names the file.
pub fn load<'a>(rt: &HostRuntime, path: &'a str, most: u64) -> Result<Vec<u8>, Failure<'a>>
    ensures { IfErr result (λ failure. (error : _) × (failure ≡ Failure.Unreadable path.entry error)) }
{
    read_up_to(rt, path, most).map_err(|error| Failure::Unreadable { path, error })
}

// Writes the bytes under the name `part`, which then becomes the file's own.
fn write_part(rt: &HostRuntime, part: &str, path: &str, bytes: &[u8]) -> io::Result<()> {
    let mut file = File::create(rt, part)?;
    file.write_all(bytes)?;
    file.sync_all()?;
    fs::rename(rt, part, path)
}

// Writes a file whole or not at all: first under another name in the same folder, which goes again where that fails.
pub fn save_whole(rt: &HostRuntime, path: &str, bytes: &[u8]) -> io::Result<()> {
    let part = format!(in rt.alloc(); "{path}.part")?;
    let done = write_part(rt, part.as_str(), path, bytes);
    if done.is_err() {
        let _ = fs::remove_file(rt, part.as_str());
    }
    done
}

// The same, with a failure that names the file.
pub fn save<'a>(rt: &HostRuntime, path: &'a str, bytes: &[u8]) -> Result<(), Failure<'a>>
    ensures { IfErr result (λ failure. (error : _) × (failure ≡ Failure.Unwritable path.entry error)) }
{
    save_whole(rt, path, bytes).map_err(|error| Failure::Unwritable { path, error })
}
