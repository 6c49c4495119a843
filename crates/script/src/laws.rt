// What holds of every script.
ghost use Rattle.script.specs.Equality.{TellsApart};
ghost use Rattle.script.specs.Fields.{KnownByFields};
ghost use Rattle.script.specs.Model.{EveryScriptAccepted, SameScript};

use crate::accepted::Script;
use crate::parts::{Channel, Direction, Fields, Instruction};

// Every script holds an accepted model.
pub fn every_script_is_accepted()
    ensures { EveryScriptAccepted }
{}

// Two scripts that hold the same are one value.
#[tactic(auto, using(crate::proofs::Held::same_script))]
pub fn same_script_is_one_value()
    ensures { SameScript }
{}

// An instruction is known by its fields: there is one way back from them.
#[tactic(auto, using(crate::specs::Fields::instruction_back))]
pub fn fields_tell_an_instruction()
    ensures { KnownByFields }
{}

// Two directions are equal exactly where they are one value.
pub fn equal_directions_are_one_value()
    ensures { TellsApart ⟦<Direction as PartialEq>⟧.eq }
{}

// And so are the fields of two instructions.
pub fn equal_fields_are_one_value()
    ensures { TellsApart ⟦<Fields as PartialEq>⟧.eq }
{}

// And so are two channels.
#[tactic(auto, using(crate::specs::Equal::same_channel_decides))]
pub fn equal_channels_are_one_value()
    ensures { TellsApart ⟦<Channel as PartialEq>⟧.eq }
{}

// And so are two instructions.
#[tactic(auto, using(crate::specs::Equal::same_instruction_decides))]
pub fn equal_instructions_are_one_value()
    ensures { TellsApart ⟦<Instruction as PartialEq>⟧.eq }
{}

// And so are two scripts.
#[tactic(auto, using(crate::specs::EqualScripts::same_script_decides))]
pub fn equal_scripts_are_one_value()
    ensures { TellsApart ⟦<Script as PartialEq>⟧.eq }
{}
