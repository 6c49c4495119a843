// What holds of the meaning. These functions do nothing: each stands for the theorems that its contract names.
ghost use Rattle.meaning.specs.Arithmetic.{Division};
ghost use Rattle.meaning.specs.Programs.{EveryProgramSound};
ghost use Rattle.meaning.specs.Promises.{Kept};
ghost use Rattle.meaning.specs.Results.{EveryResult};
ghost use Rattle.meaning.specs.Rules.{Inputs, OneRule};
ghost use Rattle.meaning.specs.Sights.{EverySight, EveryMove};
ghost use Rattle.meaning.specs.Tables.{EveryPlan, EveryReply, EveryReadiness, EveryChange, EveryBeginning};

// What is promised of every visit holds of every log of calls.
#[tactic(auto, using(crate::proofs::Soundness::every_sound))]
pub fn promises()
    ensures kept { Kept }
    ensures sound { EveryProgramSound }
{}

// Division is what it is called, and what is computed fits 32 bits; and so is every other result what it is called.
#[tactic(auto, using(crate::proofs::Dividing::division, crate::proofs::Resulting::every_result))]
pub fn arithmetic()
    ensures division { Division }
    ensures results { EveryResult }
{}

// An in gives what the rules say, and they say one thing.
#[tactic(auto, using(crate::proofs::Hearing::every_in, crate::proofs::Hearing::one_rule))]
pub fn inputs()
    ensures given { Inputs }
    ensures only { OneRule }
{}

// The words of secrecy and progress say what they are meant to: what a level sees of a log it sees of each call.
#[tactic(auto, using(crate::proofs::Sighting::every_move))]
pub fn sights()
    ensures seen { EverySight }
    ensures moved { EveryMove }
{}

// Plans and replies are rows of their tables, and visits begin as they are said to.
#[tactic(auto, using(crate::proofs::Tabling::every_plan, crate::proofs::Tabling::every_reply, crate::proofs::Tabling::every_readiness, crate::proofs::Tabling::every_change, crate::proofs::Tabling::every_beginning))]
pub fn tables()
    ensures plans { EveryPlan }
    ensures replies { EveryReply }
    ensures ready { EveryReadiness }
    ensures changes { EveryChange }
    ensures begins { EveryBeginning }
{}
