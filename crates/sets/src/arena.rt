// The tabulated game: what each side may do in each state, and what follows.
ghost use Rattle.std.specs.Prelude.{◌≡◌, ℕ, ◌*◌, ◌<◌, ◌≤◌, length, slice_index};

// In `legal`, bit e of entry s: the environment may make the move e in the state s. In `allowed`, bit a of entry
// s·moves + e: the answer a is allowed then. In `next`, entry (s·moves + e)·answers + a: the state after both. In
// `promises` and `goals`, bit i of entry s: promise (goal) i holds in the state s. So no state's number is taken as a
// marker, and 65,536 states fit.
#[derive(Clone, Copy)]
pub struct Arena<'a> {
    pub states: usize,
    pub moves: usize,
    pub answers: usize,
    pub promise_count: usize,
    pub goal_count: usize,
    pub legal: &'a [u64],
    pub allowed: &'a [u64],
    pub next: &'a [u16],
    pub promises: &'a [u8],
    pub goals: &'a [u8],
    ghost some_states: { 0 < states },
    ghost most_states: { states ≤ 65536 },
    ghost most_moves: { moves ≤ 64 },
    ghost most_answers: { answers ≤ 64 },
    ghost most_promises: { promise_count ≤ 8 },
    ghost some_goals: { 0 < goal_count },
    ghost most_goals: { goal_count ≤ 8 },
    ghost legal_length: { length legal.now ≡ states },
    ghost allowed_length: { length allowed.now ≡ states * moves },
    ghost next_length: { length next.now ≡ states * moves * answers },
    ghost promises_length: { length promises.now ≡ states },
    ghost goals_length: { length goals.now ≡ states },
    ghost next_within: { (k : ℕ) → slice_index next.now k < states },
}
