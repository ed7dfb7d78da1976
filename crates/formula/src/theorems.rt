// Reading and writing are inverse, both ways round. Each function's contract is one theorem, so that the check asks for its proof; nothing is computed.
ghost use Rattle.formula.specs.Laws.{ReadWritten, WrittenRead};

// What a formula writes is read as that formula.
pub fn written_read()
    ensures { WrittenRead }
{}

// What was read writes the bytes that it was read from.
pub fn read_written()
    ensures { ReadWritten }
{}
