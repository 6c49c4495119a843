// Lines of a command-line tool: a name and the words after it, or nothing.
ghost use Rattle.std.specs.Prelude.{◌≡◌};
ghost use Rattle.text.specs.Lines.{comment, Answers, LineGives};
ghost use Rattle.text.specs.Words.{words_of};

use crate::error::LineError;
use crate::words::Words;
use std::alloc::Global;

// A line that begins with `#` is for people.
pub fn is_comment(word: &[u8]) -> bool
    ensures { result ≡ comment word.now }
{
    matches!(word, [b'#', ..])
}

// What `read` makes of a line's name and of all words after it; nothing if the line is blank or for people. For consoles of
// others: the tool's reads its lines itself. The heap is not used, since the words hold none and `read` brings its own; it
// stays so that calls stay as they were.
pub fn parse_line<C: Drop, F: FnOnce(&[u8], &mut Words) -> Result<C, LineError>>(
    _heap: Global,
    line: &[u8],
    read: F,
) -> Result<Option<C>, LineError>
    requires { F.IsAlwaysCallable read }
    ensures { LineGives (Answers F.FnOnce read) (words_of line.now) result }
{
    let mut words = Words::new(line);
    let Some(name) = words.next_word().filter(|name| !is_comment(name)) else {
        return Ok(None);
    };
    let command = read(name, &mut words)?;
    words.end()?;
    Ok(Some(command))
}
