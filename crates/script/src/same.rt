// Equality of scripts.
ghost use Rattle.std.specs.Prelude.{◌≡◌, Decides};
ghost use Rattle.script.specs.EqualScripts.{same_script, same_script_decides};
ghost use Rattle.std.specs.Cmp as Keys;

use crate::accepted::Script;

// The same counts and tables: unused slots are blank. A function of its own, so that the search proves each part.
fn hold_the_same(a: &Script, b: &Script) -> bool
    ensures { result ≡ same_script a.now b.now }
{
    a.levels == b.levels
        && a.channel_count == b.channel_count
        && a.instruction_count == b.instruction_count
        && a.channels == b.channels
        && a.instructions == b.instructions
}

// By hand, as for what a script is made of.
impl PartialEq for Script {
    ghost eq = { same_script };

    ghost laws = { Keys.partial_equiv_from_equiv (Keys.decided same_script same_script_decides) };

    #[tactic(auto, using(crate::specs::EqualScripts::same_script_decides))]
    fn eq(&self, other: &Script) -> bool
        ensures value { result ≡ same_script self.now other.now }
        ensures same { Decides result (self.now ≡ other.now) }
    {
        hold_the_same(self, other)
    }
}

impl Eq for Script {
    ghost laws = { Keys.decided same_script same_script_decides };
}
