// What calls answered: counts, and a sum that tells runs apart.
use meaning::answers::Moved;
use refusal::Refusal;
use std::fmt;

// The sum with one more value: their order counts.
pub fn mixed(sum: i32, value: i32) -> i32 {
    sum.wrapping_mul(31).wrapping_add(value)
}

// Not the `Tally` of the other program: the tool's checksum is fixed by docs/bookscript.md, the sum of `speed` by its twin
// in bench/.
#[derive(Clone, Copy, Default)]
pub struct Tally {
    moved: u32,
    nobody: u32,
    fed: u32,
    collected: u32,
    refused: u32,
    sum: i32,
}

impl Tally {
    fn mix(&mut self, value: i32) {
        self.sum = mixed(self.sum, value);
    }

    pub fn turn(&mut self, answer: Result<Option<Moved>, Refusal>) {
        match answer {
            Ok(Some(Moved { level, act })) => {
                self.moved = self.moved.wrapping_add(1);
                self.mix(i32::from(level) * 8 + i32::from(act.number()));
                self.mix(act.carried().map_or(0, |(_, value)| value));
            }
            Ok(None) => self.nobody = self.nobody.wrapping_add(1),
            Err(_) => self.refused = self.refused.wrapping_add(1),
        }
    }

    pub fn feed(&mut self, answer: Result<(), Refusal>) {
        match answer {
            Ok(()) => self.fed = self.fed.wrapping_add(1),
            Err(_) => self.refused = self.refused.wrapping_add(1),
        }
    }

    pub fn collect(&mut self, answer: Result<i32, Refusal>) {
        match answer {
            Ok(value) => {
                self.collected = self.collected.wrapping_add(1);
                self.mix(value);
            }
            Err(_) => self.refused = self.refused.wrapping_add(1),
        }
    }
}

impl fmt::Display for Tally {
    fn fmt<W: fmt::Write>(&self, f: &mut fmt::Formatter<W>) -> fmt::Result {
        let Tally {
            moved,
            nobody,
            fed,
            collected,
            refused,
            sum,
        } = *self;
        write!(f, "moved {moved} nobody {nobody} fed {fed}")?;
        write!(f, " collected {collected} refused {refused} sum {sum}")
    }
}
