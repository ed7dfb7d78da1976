// What is written is read again, and what was read is written again: theorems as contracts; nothing is computed.
ghost use Rattle.rows.specs.Written.{RowWritten, RowsRead};

// A row that was written among others is read as it was.
#[tactic(auto, using(crate::proofs::Gathered::row_written))]
pub fn row_written()
    ensures { RowWritten }
{}

// The rows that bytes hold, written again, are those bytes.
#[tactic(auto, using(crate::proofs::Gathered::rows_read))]
pub fn rows_read()
    ensures { RowsRead }
{}
