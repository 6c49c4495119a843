// One step.
ghost use Rattle.std.specs.Prelude.{◌≡◌, ℕ, ◌<◌, true, List, ℤ, is_some};
ghost use Rattle.copies.specs.Held.{copy_of};
ghost use Rattle.meaning.specs.Copies.{plain_read, plain_write};
ghost use Rattle.meaning.specs.Programs.{program};
ghost use Rattle.preview.specs.Acts.{Stepped, did_read, written_after};
ghost use Rattle.preview.specs.Views.{given_of, input_at, input_of, lists_of, plain_of};
ghost use Rattle.preview.specs.declared.acts.Did.TheVariants.{Wrote};

use crate::acts::Did;
use crate::plain_run::PlainRun;
use copies::replica::Replica;
use copies::tapes::Tape;
use script::parts::Instruction;

// What a channel with that list offers a copy at a position, which may be nothing yet; without a list, and to a copy that
// has read 64 values, it offers nothing at all.
fn offered(list: &Option<Tape>, position: u8) -> Option<Option<i32>>
    ensures gives { input_of result ≡ input_at list.now position }
    ensures early { is_some result ≡ true → position < 64 }
{
    match list {
        Some(list) if position < 64 => Some(list.value(position)),
        _ => None,
    }
}

// An in that is offered that: 0, the next value of the list, or nothing yet. Not in one body with `offered`: a list that is
// lent beside a copy that is lent to be changed has no proof, and a list by value is copied whole.
fn read(next: Option<Option<i32>>, copy: &mut Replica, target: u8, channel: u8) -> Did
    requires register { target < 16 }
    requires port { channel < 16 }
    requires running { (copy_of copy.old).next < 65535 }
    requires early { is_some next ≡ true → (copy_of copy.old).positions channel < 64 }
    ensures told { result ≡ did_read channel (input_of next) }
    ensures after { (w : ℕ → List ℤ) → plain_of copy.new (written_after result w) ≡ plain_read (plain_of copy.old w) target channel (input_of next) }
{
    // Not by `Source::of`: what it promises is of a host too, and each promise here then stays open without a lemma of every
    // case.
    match next {
        Some(Some(value)) => {
            copy.read(target, channel, value);
            Did::Got { channel, value }
        }
        Some(None) => Did::Waits { channel },
        None => {
            copy.assign(target, 0);
            Did::Defaulted { channel }
        }
    }
}

// An out: the value is told, and the copy goes on.
fn write(copy: &mut Replica, first: u8, channel: u8) -> Did
    requires { (copy_of copy.old).next < 65535 }
    ensures told { result ≡ Wrote channel ((copy_of copy.old).registers first) }
    ensures after { (w : ℕ → List ℤ) → plain_of copy.new (written_after result w) ≡ plain_write (plain_of copy.old w) channel ((copy_of copy.old).registers first) }
{
    let value = copy.register(first);
    copy.go_on();
    Did::Wrote { channel, value }
}

impl PlainRun {
    // One step, and what it did. That the script stays is said here too, as in `calls`.
    pub fn step(&mut self) -> Did
        ensures does { Stepped (program self.old.script) (given_of self.old) (lists_of self.old) (copy_of self.old.copy) result (copy_of self.new.copy) }
        ensures script { self.new.script ≡ self.old.script }
        ensures given { given_of self.new ≡ given_of self.old }
        ensures lists { self.new.lists ≡ self.old.lists }
    {
        // The instruction is matched where it stands: `instruction_at` would copy it out at every step.
        let place = usize::from(self.copy.next());
        if place >= self.script.instruction_count {
            return Did::Ended;
        }
        match self.script.instructions[place] {
            Instruction::Input { target, channel } => {
                let position = self.copy.position(channel);
                let next = offered(&self.lists[usize::from(channel)], position);
                read(next, &mut self.copy, target, channel)
            }
            Instruction::Output { first, channel } => write(&mut self.copy, first, channel),
            inner => {
                self.copy
                    .compute(inner, self.script.instruction_count as u16);
                Did::Inner
            }
        }
    }
}
