// The hosts that the tool can make, and what can be shown of them.
use console::command::Command;
use host::calls::Host;
use house::hosts::AnyHost;
use own_host::lanes::HeapHost;
use std::{fmt, io};
use strip::entry::Entry;
use strip::strips::StripHost;
use text::error::LineError;

// The capacity of each channel of the slot host.
pub const SLOT_CAPACITY: usize = 32;

// The capacities that a line gave: those before the first that is 0, which no channel can have.
fn given(capacities: &[u16; 16]) -> &[u16] {
    let count = capacities
        .iter()
        .position(|capacity| *capacity == 0)
        .unwrap_or(capacities.len());
    &capacities[..count]
}

// Capacities that a line gave, with commas between them. A struct of one field: a crate may not implement `Display` for an
// array.
#[derive(Clone, Copy)]
pub struct Capacities(pub [u16; 16]);

impl fmt::Display for Capacities {
    fn fmt<W: fmt::Write>(&self, f: &mut fmt::Formatter<W>) -> fmt::Result {
        let [first, rest @ ..] = given(&self.0) else {
            return f.write_str("-");
        };
        write!(f, "{first}")?;
        for capacity in rest {
            write!(f, ",{capacity}")?;
        }
        Ok(())
    }
}

// The host of a session, chosen by a line.
pub type ToolHost<'a> = AnyHost<StripHost<'a>, HeapHost>;

// A host to be, with the memory that it needs.
#[derive(Drop)]
pub enum NewHost {
    Slot,
    Own {
        host: HeapHost,
        // To be shown: a new host would tell them as its space, but as a `Result` for each channel.
        capacities: [u16; 16],
    },
    Strip {
        // How many channels; the entries are as many as the line asks for.
        count: usize,
        entries: Vec<Entry>,
    },
}

// A host with a channel for each capacity that a line gave. They are 16 at most, and each is one that a channel can have,
// so only memory can be wanting.
fn heap_host(rt: &HostRuntime, capacities: &[u16; 16]) -> Result<HeapHost, LineError> {
    let mut host = HeapHost::new(rt.alloc());
    for capacity in given(capacities) {
        host.add(rt.alloc(), usize::from(*capacity), &[])
            .map_err(|_| LineError::Memory)?;
    }
    Ok(host)
}

// Prints that a host was made, with how many channels, and the capacity of each.
pub fn tell_host<H: Host, C: fmt::Display + Copy>(
    rt: &HostRuntime,
    host: &H,
    capacity: C,
) -> io::Result<()> {
    println!(rt; "host {} capacity {capacity}", host.count())
}

// The entries of a strip, those that are not in use too. A struct of one field: a crate may not implement `Display` for a
// slice.
#[derive(Clone, Copy)]
struct Entries<'a>(&'a [Entry]);

impl fmt::Display for Entries<'_> {
    fn fmt<W: fmt::Write>(&self, f: &mut fmt::Formatter<W>) -> fmt::Result {
        f.write_str("entries")?;
        for Entry { channel, value } in self.0 {
            write!(f, " {channel}:{value}")?;
        }
        Ok(())
    }
}

// What can be shown of a host besides its channels. A trait, since what serves a host is generic over it: a strip is lent
// its entries, and such a value goes round a loop under a type parameter alone.
pub trait TellsEntries {
    fn tell_entries(&self, rt: &HostRuntime) -> io::Result<()>;
}

// Only a strip has entries.
impl TellsEntries for ToolHost<'_> {
    fn tell_entries(&self, rt: &HostRuntime) -> io::Result<()> {
        match self {
            AnyHost::Strip(host) => println!(rt; "{}", Entries(host.entries())),
            _ => println!(rt; "unmade"),
        }
    }
}

// Entries that no host has used: of a channel that there is not, and each with a value of its own. A line asks for fewer
// than there are values below 0.
fn unused_entries(rt: &HostRuntime, count: usize) -> Result<Vec<Entry>, LineError> {
    let values = (i32::MIN..0).rev().take(count);
    Ok(
        values
            .map(|value| Entry {
                channel: 255,
                value,
            })
            .collect(rt.alloc())?,
    )
}

// The host that a line asks for, if it asks for one.
pub fn host_asked(rt: &HostRuntime, command: &Command) -> Result<Option<NewHost>, LineError> {
    match command {
        Command::SlotHost => Ok(Some(NewHost::Slot)),
        Command::OwnHost(capacities) => Ok(Some(NewHost::Own {
            host: heap_host(rt, capacities)?,
            capacities: *capacities,
        })),
        Command::StripHost { count, entries } => Ok(Some(NewHost::Strip {
            count: *count,
            entries: unused_entries(rt, *entries)?,
        })),
        _ => Ok(None),
    }
}
