// The laws of files, for every file and every script.
ghost use Rattle.format.specs.Laws.{AcceptedNotRefused, AcceptedOrRefused, AppendedSame, EveryByteWithin, InItsRecord, OneFile, OneRefusal, PrefixIsShort, TailExactly};

// Two scripts with one file are equal.
#[tactic(auto, using(crate::proofs::Theorems::one_file))]
pub fn one_file_is_one_script()
    ensures { OneFile }
{}

// Bytes are the file of an accepted script or are refused, never both, and in one way only.
pub fn each_file_has_one_answer()
    ensures some { AcceptedOrRefused }
    ensures one { AcceptedNotRefused }
    ensures single { OneRefusal }
{}

// Every proper prefix of an accepted file is refused with 1 at its own length.
#[tactic(auto, using(crate::proofs::Theorems::prefix_is_short))]
pub fn prefix_is_short()
    ensures { PrefixIsShort }
{}

// A file is refused with 6 at p exactly where its first p bytes are accepted, and there are more.
#[tactic(auto, using(crate::proofs::Theorems::tail_exactly))]
pub fn tail_follows_a_file()
    ensures { TailExactly }
{}

// A refusal with 2 to 5 stays the same whatever is appended.
pub fn appended_bytes_change_nothing()
    ensures { AppendedSame }
{}

// The byte that is told is at most the file's length, and equal to it exactly for 1.
pub fn byte_is_within_the_file()
    ensures { EveryByteWithin }
{}

// A fault lies in the record that it names, and all before that record is right.
#[tactic(auto, using(crate::proofs::Theorems::in_its_record))]
pub fn fault_lies_in_its_record()
    ensures { InItsRecord }
{}
