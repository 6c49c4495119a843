// The tool of authors and makers of scripts: it answers the lines that it reads.
#![tactic(auto)]

mod session;

use session::answer_lines;
use std::fs::File;
use std::{env, io};

// The lines are those of the files that the arguments name, or of standard input where they name none.
fn main(rt: HostRuntime) -> io::Result<()> {
    let mut names = env::args(&rt)?.skip(1).peekable();
    if names.peek().is_none() {
        return answer_lines(&rt, rt.stdin());
    }
    for name in names {
        answer_lines(&rt, File::open(&rt, name.as_str())?)?;
    }
    Ok(())
}
