// Choosing numbers: the first one that fits, and a row of them.
ghost use Rattle.std.specs.Prelude.{ℕ, ◌<◌, ◌≤◌, length, slice_index, false};
ghost use Rattle.solver.specs.Choice.{FirstOf};

// The first number below `end` that fits, or 0 where there is none.
pub fn first_that<F: Fn(usize) -> bool>(end: usize, fits: F) -> u8
    requires few { end ≤ 64 }
    requires can { (k : ℕ) → k < end → F.pre fits k }
    ensures { FirstOf (F.post fits) end result }
{
    // no `find`: that it calls `fits` below `end` alone stays open in its proof
    for k in 0..end {
        if fits(k) {
            return k as u8;
        }
    }
    0
}

// Writes a row: at each place the number that is chosen for it.
pub fn write_row<F: Fn(usize) -> u8>(row: &mut [u8], choose: F)
    requires { (k : ℕ) → k < length row.old → F.pre choose k }
    ensures { (k : ℕ) → k < length row.new → F.post choose k (slice_index row.new k) }
{
    for (k, entry) in row.iter_mut().enumerate() {
        *entry = choose(k);
    }
}
