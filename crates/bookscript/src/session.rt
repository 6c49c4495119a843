// A session: lines before there is a host, lines to a host, lines to a visit.
use console::command::Command;
use engine::visit::Visit;
use host::calls::Host;
use house::any_regime::AnyRegime;
use page::slots::SlotHost;
use script::accepted::Script;
use std::io::{BufRead, BufReader, Read, Split};
use std::ops::ControlFlow;
use std::{fmt, io};
use strip::entry::Entry;
use strip::strips::StripHost;
use tool::hosts::{
    Capacities, NewHost, SLOT_CAPACITY, TellsEntries, ToolHost, host_asked, tell_host,
};
use tool::lines::command_of;
use tool::made::Made;

// No input asks for as many hosts.
const HOSTS: usize = usize::MAX;

// No input opens as many visits.
const VISITS: usize = usize::MAX;

// What ends the lines to a host that no visit has: there are no more, one asks for another host, or a call of a visit opens
// one on the script and the levels.
#[derive(Drop)]
enum Waited {
    End,
    Host(NewHost),
    Open(Script, AnyRegime, Command),
}

// Answers a line, unless it asks for a host, which ends the stage.
fn host_or<F: FnOnce(Command) -> io::Result<()>>(
    rt: &HostRuntime,
    command: Command,
    answer: F,
) -> io::Result<ControlFlow<NewHost>>
    requires { F.IsAlwaysCallable answer }
{
    match host_asked(rt, &command) {
        Ok(Some(host)) => return Ok(ControlFlow::Break(host)),
        Ok(None) => answer(command)?,
        Err(error) => println!(rt; "error {error}")?,
    }
    Ok(ControlFlow::Continue(()))
}

fn is_call(command: &Command) -> bool {
    matches!(
        command,
        Command::Open
            | Command::Feed(_, _)
            | Command::Collect(_)
            | Command::Turn
            | Command::Turns(_)
            | Command::Ask(_)
    )
}

// The lines of one input, and what they made.
#[derive(Drop)]
struct Session<R> {
    lines: Split<BufReader<R>>,
    made: Made,
}

impl<R: Read + Drop> Session<R> {
    // Lines are bytes: one that is not UTF-8 is a bad line like any other.
    fn new(rt: &HostRuntime, input: R) -> io::Result<Session<R>> {
        Ok(Session {
            lines: BufReader::new(rt.alloc(), input)?.split(rt.alloc(), b'\n'),
            made: Made::default(),
        })
    }

    // Answers lines while there is no host; the host that one asks for, unless there are no more lines.
    fn answer_unhosted(&mut self, rt: &HostRuntime) -> io::Result<Option<NewHost>> {
        for line in &mut self.lines {
            let Some(command) = command_of(rt, line?.as_slice())? else {
                continue;
            };
            let flow = host_or(rt, command, |command| self.made.answer(rt, command))?;
            if let ControlFlow::Break(host) = flow {
                return Ok(Some(host));
            }
        }
        Ok(None)
    }

    // Answers lines to a host that no visit has. A call of a visit opens one, if script and levels were made.
    fn wait<H: Host + TellsEntries>(
        &mut self,
        rt: &HostRuntime,
        host: &mut H,
    ) -> io::Result<Waited> {
        for line in &mut self.lines {
            let Some(command) = command_of(rt, line?.as_slice())? else {
                continue;
            };
            if is_call(&command)
                && let Some((script, levels)) = self.made.ready()
            {
                return Ok(Waited::Open(script, levels, command));
            }
            let flow = host_or(
                rt,
                command,
                |command| self.made.answer_with(rt, host, command),
            )?;
            if let ControlFlow::Break(new) = flow {
                return Ok(Waited::Host(new));
            }
        }
        Ok(Waited::End)
    }

    // Answers lines to an open visit, until one closes it; is there more to come?
    fn attend<H: Host + TellsEntries>(
        &mut self,
        rt: &HostRuntime,
        visit: &mut Visit<AnyRegime, H>,
    ) -> io::Result<bool> {
        for line in &mut self.lines {
            match command_of(rt, line?.as_slice())? {
                None => {}
                Some(Command::Close) => {
                    println!(rt; "closed")?;
                    return Ok(true);
                }
                Some(command) => self.made.answer_visit(rt, visit, command)?,
            }
        }
        Ok(false)
    }

    // A host, and the visits that have it one after another, until another host is asked for. Host and visit are lent to the
    // lines, and move only where a visit is opened or ends: a value of their size is not to be moved at each line.
    fn serve<H: Host + TellsEntries + Drop, C: fmt::Display + Copy>(
        &mut self,
        rt: &HostRuntime,
        host: H,
        capacity: C,
    ) -> io::Result<Option<NewHost>> {
        tell_host(rt, &host, capacity)?;
        let mut host = host;
        for _ in 0..VISITS {
            match self.wait(rt, &mut host)? {
                Waited::End => return Ok(None),
                Waited::Host(new) => return Ok(Some(new)),
                Waited::Open(script, levels, command) => {
                    let mut visit = Visit::open(script, levels, host);
                    self.made.answer_first(rt, &mut visit, command)?;
                    let more = self.attend(rt, &mut visit)?;
                    let (_, _, back) = visit.end();
                    host = back;
                    if !more {
                        return Ok(None);
                    }
                }
            }
        }
        Ok(None)
    }

    // The same of a host over a strip, which borrows its entries.
    fn serve_strip(
        &mut self,
        rt: &HostRuntime,
        entries: &mut [Entry],
        count: usize,
    ) -> io::Result<Option<NewHost>> {
        let host = StripHost::new(entries, count);
        let capacity = host.capacity();
        self.serve(rt, ToolHost::Strip(host), capacity)
    }

    // The same of the host that was asked for, of whichever kind.
    fn serve_new(&mut self, rt: &HostRuntime, host: NewHost) -> io::Result<Option<NewHost>> {
        match host {
            NewHost::Slot => self.serve(rt, ToolHost::Slot(SlotHost::new()), SLOT_CAPACITY),
            NewHost::Own { host, capacities } => {
                self.serve(rt, ToolHost::Own(host), Capacities(capacities))
            }
            NewHost::Strip { count, entries } => {
                let mut entries = entries;
                self.serve_strip(rt, entries.as_mut_slice(), count)
            }
        }
    }
}

// Answers the lines of an input. Each input is a session of its own, and nothing stays from one to the next.
pub fn answer_lines<R: Read + Drop>(rt: &HostRuntime, input: R) -> io::Result<()> {
    let mut session = Session::new(rt, input)?;
    let mut next = session.answer_unhosted(rt)?;
    // Counted, since the check wants to see that a loop ends, and no iterator gives the hosts: each is asked for by a line
    // to the one before.
    for _ in 0..HOSTS {
        let Some(host) = next else {
            return Ok(());
        };
        next = session.serve_new(rt, host)?;
    }
    Ok(())
}
