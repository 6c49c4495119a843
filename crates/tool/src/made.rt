// What was made last, and the answers to the lines that ask about it, about a host and about a visit: each prints what
// docs/bookscript.md has for the line.
use crate::files::{answer_file, read, show, split, tell_script, write};
use crate::hosts::TellsEntries;
use crate::levels::{compartments, ladder, make_levels, map, tell_flows, tell_pick};
use crate::listing::list_file;
use crate::previews::answer_run;
use crate::tell::{tell, tell_done};
use crate::visits::{tell_collect, tell_feed, tell_standing, tell_turn, tell_turns};
use console::command::Command;
use engine::visit::Visit;
use host::calls::Host;
use house::any_regime::AnyRegime;
use preview::plain_run::PlainRun;
use script::accepted::Script;
use std::io;
use text::number::capped_byte;

// The host is no part of it: a strip is lent its entries, and can only be lent on.
#[derive(Clone, Copy, Default)]
pub struct Made {
    script: Option<Script>,
    levels: Option<AnyRegime>,
    run: Option<PlainRun>,
}

// Is the command refused while a visit is open: does it change what a visit is made from, or open one?
fn is_setting_up(command: &Command) -> bool {
    matches!(
        command,
        Command::Ladder(_)
            | Command::Compartments(_)
            | Command::Map { .. }
            | Command::SlotHost
            | Command::OwnHost(_)
            | Command::StripHost { .. }
            | Command::Put(_, _)
            | Command::Take(_)
            | Command::Script(_)
            | Command::Open
    )
}

impl Made {
    // What a visit is made from besides the host, if both were made.
    pub fn ready(&self) -> Option<(Script, AnyRegime)> {
        Some((self.script?, self.levels?))
    }

    // A file that is refused leaves the script that was made before.
    fn make_script(&mut self, rt: &HostRuntime, file: &[u8]) -> io::Result<()> {
        answer_file(rt, file, |script| {
            self.script = Some(*script);
            tell_script(rt, script)
        })
    }

    // A plain run of the script that was made last takes the place of an earlier one.
    fn make_run(&mut self, rt: &HostRuntime) -> io::Result<()> {
        let Some(script) = self.script else {
            return println!(rt; "unmade");
        };
        self.run = Some(PlainRun::new(script));
        println!(rt; "plain")
    }

    // A line while there is no host. What only a host or a visit could answer is unmade; so is what only a plain run could,
    // where none was begun.
    pub fn answer(&mut self, rt: &HostRuntime, command: Command) -> io::Result<()> {
        match command {
            Command::Read(file) => read(rt, file.as_slice()),
            Command::Show(file) => show(rt, file.as_slice()),
            Command::Split(file, index) => split(rt, file.as_slice(), index),
            Command::Write(file, room) => write(rt, file.as_slice(), room),
            Command::List(file) => list_file(rt, file.as_slice()),
            Command::Ladder(n) => make_levels(rt, &mut self.levels, Ok(ladder(n))),
            Command::Compartments(k) => make_levels(rt, &mut self.levels, Ok(compartments(k))),
            Command::Map { levels, rows } => make_levels(rt, &mut self.levels, map(levels, rows)),
            Command::Flows { from, to } => tell_flows(rt, self.levels, from, to),
            Command::Pick { place, mask } => tell_pick(rt, self.levels, place, mask),
            Command::Script(file) => self.make_script(rt, file.as_slice()),
            Command::Plain => self.make_run(rt),
            other => match &mut self.run {
                Some(run) => answer_run(rt, run, other),
                None => println!(rt; "unmade"),
            },
        }
    }

    // A line to a host that may only be asked.
    fn answer_about<H: Host + TellsEntries>(
        &mut self,
        rt: &HostRuntime,
        host: &H,
        command: Command,
    ) -> io::Result<()> {
        match command {
            Command::Count => println!(rt; "count {}", host.count()),
            Command::Held(channel) => tell(rt, "held", host.held(capped_byte(channel))),
            Command::Space(channel) => tell(rt, "space", host.space(capped_byte(channel))),
            Command::Entries => host.tell_entries(rt),
            other => self.answer(rt, other),
        }
    }

    // A line to a host that no visit has.
    pub fn answer_with<H: Host + TellsEntries>(
        &mut self,
        rt: &HostRuntime,
        host: &mut H,
        command: Command,
    ) -> io::Result<()> {
        match command {
            Command::Put(channel, value) => {
                tell_done(rt, "put", host.put(capped_byte(channel), value))
            }
            Command::Take(channel) => tell(rt, "taken", host.take(capped_byte(channel))),
            other => self.answer_about(rt, &*host, other),
        }
    }

    // A line to an open visit.
    pub fn answer_visit<H: Host + TellsEntries>(
        &mut self,
        rt: &HostRuntime,
        visit: &mut Visit<AnyRegime, H>,
        command: Command,
    ) -> io::Result<()> {
        if is_setting_up(&command) {
            return println!(rt; "error the visit is open");
        }
        match command {
            Command::Feed(channel, value) => tell_feed(rt, visit, channel, value),
            Command::Collect(channel) => tell_collect(rt, visit, channel),
            Command::Turn => tell_turn(rt, visit),
            Command::Turns(count) => tell_turns(rt, visit, count),
            Command::Ask(level) => tell_standing(rt, visit, level),
            other => self.answer_about(rt, visit.host(), other),
        }
    }

    // The command that opened the visit is its first call, unless it only opened it.
    pub fn answer_first<H: Host + TellsEntries>(
        &mut self,
        rt: &HostRuntime,
        visit: &mut Visit<AnyRegime, H>,
        command: Command,
    ) -> io::Result<()> {
        match command {
            Command::Open => println!(rt; "opened"),
            other => self.answer_visit(rt, visit, other),
        }
    }
}
