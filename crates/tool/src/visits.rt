// A visit and the calls on it.
use crate::tell::{refuse, tell, tell_done};
use engine::visit::Visit;
use host::calls::Host;
use house::any_regime::AnyRegime;
use meaning::answers::{Act, Moved};
use refusal::Refusal;
use std::{fmt, io};
use text::number::capped_byte;

// What a copy did, in words. A struct of one field: a crate may not implement `Display` for a type of another crate.
#[derive(Clone, Copy)]
struct Acted(Act);

impl fmt::Display for Acted {
    fn fmt<W: fmt::Write>(&self, f: &mut fmt::Formatter<W>) -> fmt::Result {
        match self.0 {
            Act::Inner => f.write_str("inner"),
            Act::Took { channel, value } => write!(f, "took {channel} {value}"),
            Act::Reused { channel, value } => write!(f, "reused {channel} {value}"),
            Act::Defaulted { channel, value } => write!(f, "defaulted {channel} {value}"),
            Act::Wrote { channel, value } => write!(f, "wrote {channel} {value}"),
            Act::Withheld { channel, value } => write!(f, "withheld {channel} {value}"),
        }
    }
}

// What many turns answered: how many of each kind, and a checksum of all answers in order.
// Not the `Tally` of the other program: the tool's checksum is fixed by docs/bookscript.md, the sum of `speed` by its twin
// in bench/.
#[derive(Clone, Copy, Default)]
struct Tally {
    moved: usize,
    nobody: usize,
    refused: usize,
    sum: u32,
}

impl Tally {
    fn add(&mut self, number: u32) {
        self.sum = self
            .sum
            .wrapping_mul(1000003)
            .wrapping_add(number)
            .wrapping_add(1);
    }

    fn add_act(&mut self, act: Act) {
        self.add(u32::from(act.number()));
        if let Some((channel, value)) = act.carried() {
            self.add(u32::from(channel));
            self.add(value.cast_unsigned());
        }
    }

    fn add_answer(&mut self, answer: Result<Option<Moved>, Refusal>) {
        match answer {
            Ok(None) => {
                self.nobody = self.nobody.saturating_add(1);
                self.add(0);
            }
            Ok(Some(Moved { level, act })) => {
                self.moved = self.moved.saturating_add(1);
                self.add(1);
                self.add(u32::from(level));
                self.add_act(act);
            }
            Err(refusal) => {
                self.refused = self.refused.saturating_add(1);
                self.add(2);
                self.add(u32::from(refusal.number()));
            }
        }
    }
}

impl fmt::Display for Tally {
    fn fmt<W: fmt::Write>(&self, f: &mut fmt::Formatter<W>) -> fmt::Result {
        let Tally {
            moved,
            nobody,
            refused,
            sum,
        } = *self;
        write!(
            f,
            "moved {moved} nobody {nobody} refused {refused} sum {sum}"
        )
    }
}

pub fn tell_feed<H: Host>(
    rt: &HostRuntime,
    visit: &mut Visit<AnyRegime, H>,
    channel: usize,
    value: i32,
) -> io::Result<()> {
    tell_done(rt, "fed", visit.feed(capped_byte(channel), value))
}

pub fn tell_collect<H: Host>(
    rt: &HostRuntime,
    visit: &mut Visit<AnyRegime, H>,
    channel: usize,
) -> io::Result<()> {
    tell(rt, "collected", visit.collect(capped_byte(channel)))
}

pub fn tell_turn<H: Host>(rt: &HostRuntime, visit: &mut Visit<AnyRegime, H>) -> io::Result<()> {
    match visit.turn() {
        Ok(None) => println!(rt; "nobody"),
        Ok(Some(Moved { level, act })) => println!(rt; "moved {level} {}", Acted(act)),
        Err(refusal) => refuse(rt, refusal),
    }
}

pub fn tell_turns<H: Host>(
    rt: &HostRuntime,
    visit: &mut Visit<AnyRegime, H>,
    count: usize,
) -> io::Result<()> {
    let mut tally = Tally::default();
    for _ in 0..count {
        tally.add_answer(visit.turn());
    }
    println!(rt; "turns {count} {tally}")
}

pub fn tell_standing<H: Host>(
    rt: &HostRuntime,
    visit: &Visit<AnyRegime, H>,
    level: usize,
) -> io::Result<()> {
    match visit.ask(capped_byte(level)) {
        Ok(standing) => {
            let status = standing.status.number();
            let channel = standing.status.channel();
            let steps = standing.steps;
            println!(rt; "level {level} status {status} channel {channel} steps {steps}")
        }
        Err(refusal) => refuse(rt, refusal),
    }
}
