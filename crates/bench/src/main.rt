// bench --time: how long the 64-lane values of a 50-byte formula take. It prints no time unless asked, so that its run can be compared.
#![tactic(auto)]

use formula::Formula;
use formula::lanes::Steps;
use std::env;
use std::time::Instant;

// Fifty bytes: 25 bits of the state, the move and the answer, joined by 24 operators and one negation.
const FIFTY: [u8; 50] = [
    5, 4, 4, 4, 4, 2, 19, 49, 4, 5, 36, 32, 16, 5, 52, 20, 5, 5, 23, 33, 4, 35, 48, 5, 5, 4, 5, 5,
    5, 5, 5, 51, 34, 26, 37, 4, 4, 5, 50, 16, 22, 24, 5, 5, 25, 21, 27, 53, 18, 17,
];

const MOVES: u8 = 64;

const BLOCKS: u16 = 64;

const ANSWERS: u8 = 16;

// The values in 64 blocks at 64 moves and 16 answers, folded into one word so that none is left out.
// Three loops over ranges: a chain would nest two flat_maps, and there is nothing but the numbers to go through.
fn sweep(formula: Formula<'_>) -> u64 {
    let mut all = 0u64;
    for answer in 0..ANSWERS {
        for moved in 0..MOVES {
            for block in 0..BLOCKS {
                all = all.wrapping_mul(31) ^ formula.values(&Steps::block(block, moved, answer));
            }
        }
    }
    all
}

fn main(rt: HostRuntime) -> anyhow::Result<()> {
    let formula = Formula { bytes: &FIFTY };
    let words = env::args(&rt)?.count();
    if words < 2 {
        let all = sweep(formula);
        println!(rt; "bench --time measures; the values fold to {all:x}")?;
        return Ok(());
    }
    let start = Instant::now(&rt)?;
    let all = sweep(formula);
    let took = start.elapsed(&rt)?.as_nanos();
    println!(rt; "{took} ns for 65536 words of 64 states, folded to {all:x}")?;
    Ok(())
}
