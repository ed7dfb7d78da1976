// The bytes of a table file and of a way file, from what the solver wrote.
use crate::memory::Memory;
use counter::laws::{write_head, write_turn};
use std::alloc::{AllocError, Global};
use table::laws::write_row;

// Whether the state is marked in the set.
fn marked(set: &[u8], state: usize) -> bool {
    set.get(state) == Some(&1)
}

// Goal by goal, state by state a row; the rows stand in the solver's memory in the same order.
pub fn table_file(memory: &Memory, heap: Global) -> Result<Vec<u8>, AllocError> {
    let Memory { needs, table, .. } = memory;
    let mut out = Vec::new(heap);
    let rows = table
        .answers
        .chunks(needs.moves.max(1))
        .zip(table.ranks.iter().zip(table.waits.iter()));
    for (k, (row, (rank, wait))) in rows.enumerate() {
        let known = marked(&table.known, k % needs.states.max(1));
        write_row(&mut out, known, row, *rank, *wait)?;
    }
    Ok(out)
}

// The part of a state's row for each promise gone for: the solver has these promise by promise.
fn write_promises(out: &mut Vec<u8>, memory: &Memory, state: usize) -> Result<(), AllocError> {
    let Memory { needs, way, .. } = memory;
    let states = needs.states.max(1);
    for (moves, ranks) in way.moves.chunks(states).zip(way.ranks.chunks(states)) {
        let moved = moves.get(state).copied().unwrap_or(0);
        let rank = ranks.get(state).copied().unwrap_or(0);
        write_turn(out, moved, rank)?;
    }
    Ok(())
}

// State by state a row; the counterstrategy knows the states that the table does not.
pub fn way_file(memory: &Memory, heap: Global) -> Result<Vec<u8>, AllocError> {
    let Memory { table, way, .. } = memory;
    let mut out = Vec::new(heap);
    for (state, (layer, avoid)) in way.layers.iter().zip(way.avoids.iter()).enumerate() {
        write_head(&mut out, !marked(&table.known, state), *layer, *avoid)?;
        write_promises(&mut out, memory, state)?;
    }
    Ok(out)
}
