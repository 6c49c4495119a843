// The lines that `help` prints.
use std::io;

const LINES: &[&str] = &[
    "read HEX        how many levels, channels and instructions a file has",
    "show HEX        its channels and the fields of its instructions",
    "split HEX I     its record with index I, channels first",
    "write HEX ROOM  the file written to a buffer of ROOM bytes",
    "list HEX        the file for a person to read",
    "levels ladder K | levels compartments K | levels map N ROW ...",
    "                levels of that kind; ROW is 4 hex digits, row 0 first, bit a of row b for a flows to b",
    "flows A B       whether level A flows to level B",
    "pick PLACE MASK who moves at that place, of the levels whose bits are one in the hex number MASK",
    "                (unmade, where no levels were made)",
    "host slot       a host of 16 channels of capacity 32",
    "host caps CAP ...  a host with a channel of each capacity, 16 at most",
    "host strip COUNT ENTRIES  a host over a list of entries, 65536 at most",
    "put C V         the value V goes to the end of channel C",
    "take C          the oldest value of channel C comes out",
    "count | held C | space C  how many channels, how many values, how many more fit",
    "entries         every entry of the strip, in use or not",
    "                (unmade, where no host was made)",
    "script HEX      the script of the next visit, or of the next plain run",
    "open | close    a visit with the script, levels and host that were made; its end",
    "feed C V | collect C  a value goes into channel C of the visit, or comes out of it",
    "turn | turns K  one turn; K turns, how many answered what, and a checksum",
    "ask L           the status of the copy at level L, the channel that it lacks, and its own steps",
    "                (unmade, where script, levels or host were not made)",
    "plain           a plain run of the script begins: one copy alone, without levels and host",
    "give C | add C V  channel C of the run is given a list; the value V goes to the end of the list",
    "step | copy     one step of the run; its next instruction, registers and positions",
    "                (unmade, where no script was made, or no plain run was begun)",
    "help            these lines",
    "HEX is hex digits, or - for no bytes; a line that begins with # is left out",
];

pub fn help(rt: &HostRuntime) -> io::Result<()> {
    for line in LINES {
        rt.println(*line)?;
    }
    Ok(())
}
