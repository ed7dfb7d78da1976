// Games that agree wherever a play goes have the same winners. Each function's contract is one theorem, proved by the lemma that is named above
// it; nothing is computed.
ghost use Rattle.game.specs.Agree.{BeatenAgrees, CounterAgrees, PlanAgrees, WinningAgrees};

// A plan that holds together in one game does so in each that agrees with it.
#[tactic(auto, using(crate::proofs::Agreement::plan_agrees))]
pub fn plan_agrees()
    ensures { PlanAgrees }
{}

// A counterstrategy that holds together in one game does so in each that agrees with it.
#[tactic(auto, using(crate::proofs::Agreement::counter_agrees))]
pub fn counter_agrees()
    ensures { CounterAgrees }
{}

// A controller that wins in one game wins in each that agrees with it.
#[tactic(auto, using(crate::proofs::Agreement::winning_agrees))]
pub fn winning_agrees()
    ensures { WinningAgrees }
{}

// A controller that is beaten in one game is beaten in each that agrees with it.
#[tactic(auto, using(crate::proofs::Agreement::beaten_agrees))]
pub fn beaten_agrees()
    ensures { BeatenAgrees }
{}
