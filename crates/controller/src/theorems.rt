// The theorems of runs. Each function's contract is one theorem, so that the check asks for its proof; nothing is computed.
ghost use Rattle.controller.specs.Theorems.{RunsSafe, WalksPlay};

// What a run walks through is part of the play that follows the plan.
pub fn walks_play()
    ensures { WalksPlay }
{}

// A run on a plan that holds together is safe, promises kept or not.
pub fn runs_safe()
    ensures { RunsSafe }
{}
