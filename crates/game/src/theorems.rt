// The theorems of winning and of the rules' bytes. Each function's contract is one theorem, so that the check asks for its proof, which is the lemma
// named above the function, or stands in its Answers.antt; nothing is computed.
ghost use Rattle.game.specs.Finite.{CounterTested, GuardedWithin, PlanTested};
ghost use Rattle.game.specs.Laws.{RulesReadWritten, RulesWrittenRead};
ghost use Rattle.game.specs.Samples.{SamplesHold};
ghost use Rattle.game.specs.Theorems.{BeatenLoses, CounterWins, Exactly, Follows, NeverBoth, PlanWins, StaysOnPlan, StepsOnPlan};

// A plan that holds together wins from each state that it knows for goal 0.
#[tactic(auto, using(crate::proofs::Wins::plan_wins))]
pub fn plan_wins()
    ensures { PlanWins }
{}

// A counterstrategy that holds together beats every controller from each state that it knows.
#[tactic(auto, using(crate::proofs::Beats::counter_wins))]
pub fn counter_wins()
    ensures { CounterWins }
{}

// A controller that is beaten from a state does not win from it, nor nearly win.
#[tactic(auto, using(crate::proofs::Loses::beaten_loses))]
pub fn beaten_loses()
    ensures { BeatenLoses }
{}

// No plan and no counterstrategy that hold together know one state.
#[tactic(auto, using(crate::proofs::Loses::never_both))]
pub fn never_both()
    ensures { NeverBoth }
{}

// Where one of the two knows a state, the plan knows it exactly if some controller wins from it.
#[tactic(auto, using(crate::proofs::Loses::exactly))]
pub fn exactly()
    ensures { Exactly }
{}

// After one more legal move a plan still knows where it is.
#[tactic(auto, using(crate::proofs::Following::on_plan_step))]
pub fn steps_on_plan()
    ensures { StepsOnPlan }
{}

// The controller that follows a plan is in the states that the plan reckons with.
#[tactic(auto, using(crate::proofs::Following::follows))]
pub fn follows()
    ensures { Follows }
{}

// As long as the moves are legal, a plan knows where it is.
#[tactic(auto, using(crate::proofs::Following::stays_on_plan))]
pub fn stays_on_plan()
    ensures { StaysOnPlan }
{}

// The finite test of a plan is true exactly if the plan holds together.
#[tactic(auto, using(crate::proofs::Tested::plan_tested))]
pub fn plan_tested()
    ensures { PlanTested }
{}

// The finite test of a counterstrategy is true exactly if it holds together.
#[tactic(auto, using(crate::proofs::Tested::counter_tested))]
pub fn counter_tested()
    ensures { CounterTested }
{}

// A game without what is out of range is within its sizes.
#[tactic(auto, using(crate::proofs::Tested::guarded_within))]
pub fn guarded_within()
    ensures { GuardedWithin }
{}

// Three small games, one won and two lost: the plan and the counterstrategies hold together.
#[tactic(auto, using(crate::proofs::Sampled::samples_hold))]
pub fn samples_hold()
    ensures { SamplesHold }
{}

// Rules that were read are valid, and are written as the bytes that they were read from.
pub fn rules_read_written()
    ensures { RulesReadWritten }
{}

// Valid rules are read from their bytes as what they were.
#[tactic(auto, using(crate::proofs::RoundTrip::written_read))]
pub fn rules_written_read()
    ensures { RulesWrittenRead }
{}
