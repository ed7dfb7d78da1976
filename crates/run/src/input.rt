// Moves from standard input: all at once, or one to a line. No read goes on for ever.
use std::alloc::{AllocError, Global};
use std::io;
use std::io::{BufRead, Read};

// The most moves of one run, and the most bytes of a line.
pub const MOST_MOVES: u64 = 1 << 24;

const MOST_LINE: u64 = 64;

// The bytes of standard input, at most one more than there may be moves: so too many show.
pub fn moves(rt: &HostRuntime) -> io::Result<Vec<u8>> {
    let mut bytes = Vec::new(rt.alloc());
    rt.stdin().take(MOST_MOVES + 1).read_to_end(&mut bytes)?;
    Ok(bytes)
}

// The next line, without its end; nothing at the end of input. Of a line that is too long, the rest is the next line.
pub fn line(input: &mut impl BufRead, heap: Global) -> io::Result<Option<Vec<u8>>> {
    let mut bytes = Vec::new(heap);
    let mut line = input.by_ref().take(MOST_LINE);
    if line.read_until(b'\n', &mut bytes)? == 0 {
        return Ok(None);
    }
    if bytes.last() == Some(&b'\n') {
        bytes.pop();
    }
    Ok(Some(bytes))
}

// The answers as they are printed, separated by spaces.
pub fn spaced(answers: &[u8], heap: Global) -> Result<String, AllocError> {
    let mut text = String::new(heap);
    for (i, answer) in answers.iter().enumerate() {
        if i > 0 {
            text.push(' ')?;
        }
        write!(text, "{answer}")?;
    }
    Ok(text)
}
