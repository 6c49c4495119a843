// The calls of a plain run.
ghost use Rattle.std.specs.Prelude.{◌≡◌, ℕ, ◌<◌, true, false, [], ◌∷◌, ◌++◌, is_some, length};
ghost use Rattle.copies.specs.Held.{copy_of};
ghost use Rattle.host.specs.Channels.{IfRefused, on_ok, push_answer};
ghost use Rattle.meaning.specs.Copies.{first, with_at};
ghost use Rattle.meaning.specs.Programs.{program};
ghost use Rattle.meaning.specs.Visits.{put_on};
ghost use Rattle.preview.specs.Views.{add_answer, give_answer, given_in, given_of, list_in, lists_in, lists_of};

use crate::plain_run::PlainRun;
use copies::replica::Replica;
use copies::tapes::Tape;
use refusal::Refusal;
use script::accepted::Script;
use script::parts::Direction;

// Whether the channel is an in channel of the script.
fn judge(script: &Script, channel: u8) -> Result<(), Refusal>
    ensures { result ≡ give_answer (program script.now) channel }
{
    script.judge(channel, Direction::In)
}

// There is a list, empty if there was none.
fn begin(list: &mut Option<Tape>)
    ensures given { is_some list.new ≡ true }
    ensures kept { list_in list.new ≡ list_in list.old }
{
    list.get_or_insert_with(Tape::empty);
}

// There is a list of the channel, empty if there was none, and all else is as it was. Of the table, and not of the run, as
// `push_at`, so that the search shows it.
#[tactic(auto, using(crate::proofs::Listed::begun_given, crate::proofs::Listed::begun_lists, crate::proofs::Listed::read_list))]
fn begin_at(lists: &mut [Option<Tape>], channel: u8)
    requires { channel < length lists.old }
    ensures given { (k : ℕ) → given_in lists.new k ≡ with_at (given_in lists.old) channel true k }
    ensures lists { (k : ℕ) → lists_in lists.new k ≡ lists_in lists.old k }
{
    begin(&mut lists[usize::from(channel)]);
}

// The list, empty if there was none, gets a value more.
fn push(list: &mut Option<Tape>, value: i32) -> Result<(), Refusal>
    ensures answer { result ≡ push_answer 64 (list_in list.old) }
    ensures given { is_some list.new ≡ true }
    ensures after { list_in list.new ≡ on_ok result (list_in list.old ++ (value ∷ [])) (list_in list.old) }
    ensures refused { IfRefused result (list.new ≡ list.old) }
{
    list.get_or_insert_with(Tape::empty).push(value)
}

// The same in the table: no other channel's list changes.
#[tactic(auto, using(crate::proofs::Listed::read_list, crate::proofs::Listed::pushed_given, crate::proofs::Listed::pushed_lists))]
fn push_at(lists: &mut [Option<Tape>], channel: u8, value: i32) -> Result<(), Refusal>
    requires { channel < length lists.old }
    ensures answer { result ≡ push_answer 64 (lists_in lists.old channel) }
    ensures given { (k : ℕ) → given_in lists.new k ≡ on_ok result (with_at (given_in lists.old) channel true) (given_in lists.old) k }
    ensures lists { (k : ℕ) → lists_in lists.new k ≡ on_ok result (put_on channel value (lists_in lists.old)) (lists_in lists.old) k }
    ensures refused { IfRefused result (lists.new ≡ lists.old) }
{
    push(&mut lists[usize::from(channel)], value)
}

// That the script stays, and that a refusal changes nothing, is said of each call for itself: no invariant can say it,
// since one speaks of a run and not of the run before.
impl PlainRun {
    // A run as it begins, with every in channel shut.
    pub fn new(script: Script) -> PlainRun
        ensures script { result.script ≡ script }
        ensures given { (k : ℕ) → given_of result k ≡ false }
        ensures lists { (k : ℕ) → lists_of result k ≡ [] }
        ensures copy { copy_of result.copy ≡ first }
    {
        PlainRun {
            script,
            lists: [None; 16],
            copy: Replica::first(),
        }
    }

    // The channel is given a list, empty at first. One that it had stays.
    pub fn give(&mut self, channel: u8) -> Result<(), Refusal>
        ensures answer { result ≡ give_answer (program self.old.script) channel }
        ensures given { given_of self.new ≡ on_ok result (with_at (given_of self.old) channel true) (given_of self.old) }
        ensures script { self.new.script ≡ self.old.script }
        ensures lists { lists_of self.new ≡ lists_of self.old }
        ensures copy { self.new.copy ≡ self.old.copy }
        ensures refused { IfRefused result (self.new ≡ self.old) }
    {
        judge(&self.script, channel)?;
        begin_at(&mut self.lists, channel);
        Ok(())
    }

    // A value more at the end of the channel's list, which is given one if it had none.
    pub fn add(&mut self, channel: u8, value: i32) -> Result<(), Refusal>
        ensures answer { result ≡ add_answer (program self.old.script) (lists_of self.old) channel }
        ensures given { given_of self.new ≡ on_ok result (with_at (given_of self.old) channel true) (given_of self.old) }
        ensures lists { lists_of self.new ≡ on_ok result (put_on channel value (lists_of self.old)) (lists_of self.old) }
        ensures script { self.new.script ≡ self.old.script }
        ensures copy { self.new.copy ≡ self.old.copy }
        ensures refused { IfRefused result (self.new ≡ self.old) }
    {
        judge(&self.script, channel)?;
        push_at(&mut self.lists, channel, value)
    }

    // Where the run is: its next instruction, registers and positions.
    pub fn copy(&self) -> Replica
        ensures { result ≡ self.now.copy }
    {
        self.copy
    }
}
