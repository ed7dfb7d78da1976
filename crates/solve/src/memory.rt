// The memory that the solver works in and writes to: owned here, as much as the rules of a game ask for, and lent.
use game::refusal::Refusal;
use sets::tabulate::Tables;
use solver::memory::{Table, Way};
use solver::needs::Needs;
use solver::rules::solve_rules;
use std::alloc::{AllocError, Global};

// For the tabulated game.
#[derive(Drop)]
pub struct OwnedGame {
    legal: Vec<u64>,
    allowed: Vec<u64>,
    next: Vec<u16>,
    promises: Vec<u8>,
    goals: Vec<u8>,
}

impl OwnedGame {
    fn new(needs: Needs, heap: Global) -> Result<OwnedGame, AllocError> {
        Ok(OwnedGame {
            legal: vec![in heap; 0; needs.states]?,
            allowed: vec![in heap; 0; needs.steps()]?,
            next: vec![in heap; 0; needs.nexts()]?,
            promises: vec![in heap; 0; needs.states]?,
            goals: vec![in heap; 0; needs.states]?,
        })
    }

    fn lend(&mut self) -> Tables<'_> {
        Tables {
            legal: &mut self.legal,
            allowed: &mut self.allowed,
            next: &mut self.next,
            promises: &mut self.promises,
            goals: &mut self.goals,
        }
    }
}

// For the table with reasons.
#[derive(Drop)]
pub struct OwnedTable {
    pub known: Vec<u8>,
    pub answers: Vec<u8>,
    pub ranks: Vec<u16>,
    pub waits: Vec<u8>,
}

impl OwnedTable {
    fn new(needs: Needs, heap: Global) -> Result<OwnedTable, AllocError> {
        Ok(OwnedTable {
            known: vec![in heap; 0; needs.states]?,
            answers: vec![in heap; 0; needs.replies()]?,
            ranks: vec![in heap; 0; needs.entries()]?,
            waits: vec![in heap; 0; needs.entries()]?,
        })
    }

    fn lend(&mut self) -> Table<'_> {
        Table {
            known: &mut self.known,
            answers: &mut self.answers,
            ranks: &mut self.ranks,
            waits: &mut self.waits,
        }
    }
}

// For the counterstrategy.
#[derive(Drop)]
pub struct OwnedWay {
    pub layers: Vec<u16>,
    pub avoids: Vec<u8>,
    pub moves: Vec<u8>,
    pub ranks: Vec<u16>,
}

impl OwnedWay {
    fn new(needs: Needs, heap: Global) -> Result<OwnedWay, AllocError> {
        Ok(OwnedWay {
            layers: vec![in heap; 0; needs.states]?,
            avoids: vec![in heap; 0; needs.states]?,
            moves: vec![in heap; 0; needs.rows()]?,
            ranks: vec![in heap; 0; needs.rows()]?,
        })
    }

    fn lend(&mut self) -> Way<'_> {
        Way {
            layers: &mut self.layers,
            avoids: &mut self.avoids,
            moves: &mut self.moves,
            ranks: &mut self.ranks,
        }
    }
}

#[derive(Drop)]
pub struct Memory {
    pub needs: Needs,
    game: OwnedGame,
    sets: Vec<u8>,
    pub table: OwnedTable,
    pub way: OwnedWay,
}

impl Memory {
    pub fn new(needs: Needs, heap: Global) -> Result<Memory, AllocError> {
        Ok(Memory {
            needs,
            game: OwnedGame::new(needs, heap)?,
            sets: vec![in heap; 0; needs.sets()]?,
            table: OwnedTable::new(needs, heap)?,
            way: OwnedWay::new(needs, heap)?,
        })
    }

    // Solves the game of the rules in the file, and returns the rounds of the outer loop; the table and the way are then here.
    pub fn solve(&mut self, file: &[u8]) -> Result<u32, Refusal> {
        solve_rules(
            file,
            self.game.lend(),
            &mut self.sets,
            self.table.lend(),
            self.way.lend(),
        )
    }
}
