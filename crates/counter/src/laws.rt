// Writing rows of a counterstrategy, and the theorems that writing and reading are inverse.
ghost use Rattle.std.specs.Prelude.{◌≡◌, true, ◌++◌, is_ok};
ghost use Rattle.counter.specs.Written.{head_bytes, turn_bytes, WayWritten, WayRead};

use std::alloc::AllocError;

// Appends the front of a row: known, the layer, and the goal kept away from. A row that is not known has all of its bytes
// too.
pub fn write_head(out: &mut Vec<u8>, known: bool, layer: u16, avoid: u8) -> Result<(), AllocError>
    ensures { is_ok result ≡ true → out.new.items ≡ out.old.items ++ head_bytes known layer avoid }
{
    out.push(u8::from(known))?;
    out.extend_from_slice(&layer.to_le_bytes())?;
    out.push(avoid)?;
    Ok(())
}

// Appends the part of a promise gone for: the move and the rank.
pub fn write_turn(out: &mut Vec<u8>, moved: u8, rank: u16) -> Result<(), AllocError>
    ensures { is_ok result ≡ true → out.new.items ≡ out.old.items ++ turn_bytes moved rank }
{
    out.push(moved)?;
    out.extend_from_slice(&rank.to_le_bytes())
}

// A counterstrategy that is written is read as it was.
#[tactic(auto, using(crate::proofs::Inverse::way_written))]
pub fn way_written()
    ensures { WayWritten }
{}

// A counterstrategy that is read is written as it was.
#[tactic(auto, using(crate::proofs::Inverse::way_read))]
pub fn way_read()
    ensures { WayRead }
{}
