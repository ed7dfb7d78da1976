// Writing rows of a table, and the theorems that writing and reading are inverse.
ghost use Rattle.std.specs.Prelude.{◌≡◌, true, ◌++◌, is_ok};
ghost use Rattle.table.specs.Written.{row_bytes, TableWritten, TableRead};

use std::alloc::AllocError;

// Appends a row: known, the answer to each move, the rank, and the promise waited for. A row that is not known has all of
// its bytes too.
pub fn write_row(
    out: &mut Vec<u8>,
    known: bool,
    answers: &[u8],
    rank: u16,
    waits: u8,
) -> Result<(), AllocError>
    ensures { is_ok result ≡ true → out.new.items ≡ out.old.items ++ row_bytes known answers.now rank waits }
{
    out.push(u8::from(known))?;
    out.extend_from_slice(answers)?;
    out.extend_from_slice(&rank.to_le_bytes())?;
    out.push(waits)?;
    Ok(())
}

// A plan that is written is read as it was.
#[tactic(auto, using(crate::proofs::Inverse::table_written))]
pub fn table_written()
    ensures { TableWritten }
{}

// A table that is read is written as it was.
#[tactic(auto, using(crate::proofs::Inverse::table_read))]
pub fn table_read()
    ensures { TableRead }
{}
