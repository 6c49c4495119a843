// Worked cases. This function does nothing: it stands for the table that its contract names.
ghost use Rattle.cases.specs.Table.{Arithmetic, Files, FromBytesToAnswers, Instructions};

// What files, a whole run and arithmetic give, case by case.
pub fn worked_cases()
    ensures lesson { FromBytesToAnswers }
    ensures files { Files }
    ensures instructions { Instructions }
    ensures arithmetic { Arithmetic }
{}
