// Laws of the definitions, each as the contract of a call.
ghost use Rattle.grid_code.specs.Turns.{AllRestLaw, LeaverLaw, OwnTurnsLaw, RestLaw};

/// The laws of places that aren't live: a run of code leaves such a place the values of its varying registers and its own budget, and where
/// no place is live, it changes nothing.
#[tactic(auto, using(crate::proofs::Resting::all_rest))]
pub fn rest_law()
    ensures place { RestLaw }
    ensures all { AllRestLaw }
{}

/// The law of places that left a loop: later turns of other places leave them the values of their varying registers and their own budgets.
#[tactic(auto, using(crate::proofs::Leavers::leaver_keeps))]
pub fn leaver_law()
    ensures { LeaverLaw }
{}

/// The law of own budgets: in each run of code, whatever other places do, a place's own budget falls by the turns of loops by place that it takes
/// itself.
#[tactic(auto, using(crate::proofs::OwnTurns::own_turns))]
pub fn own_turns_law()
    ensures { OwnTurnsLaw }
{}
