// What holds of every row of steps.
ghost use Rattle.preview.specs.Previews.{EveryLateValue, EveryPreview};

// Steps that are done one after another, from the beginning, lead to what the plain run has after as many steps, and
// what it has written by then are the values that they told.
#[tactic(auto, using(crate::proofs::Told::every_preview))]
pub fn every_preview_is_the_plain_run()
    ensures { EveryPreview }
{}

// Values that are added between steps are as if they had been there from the beginning: steps that waited for them are
// more, and nothing else is other.
#[tactic(auto, using(crate::proofs::Late::every_late_value))]
pub fn late_values_come_in_time()
    ensures { EveryLateValue }
{}
