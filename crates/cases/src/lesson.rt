// The run of the file F in code, from its bytes to its answers.
ghost use Rattle.std.specs.Prelude.{◌≡◌, Ok};
ghost use Rattle.page.specs.Ladder.{ladder};
ghost use Rattle.page.specs.Slots.{empty_channels};
ghost use Rattle.engine.specs.Views.{opening};
ghost use Rattle.format.specs.Refusals.{Reads};
ghost use Rattle.cases.specs.Lesson.{file_f};
ghost use Rattle.cases.specs.Told.{answers_of, as_taught, gone_through};

use engine::visit::Visit;
use meaning::answers::Moved;
use page::ladder::Ladder;
use page::slots::SlotHost;
use reader::file::read_script;
use refusal::{Fault, Refusal};
use script::accepted::Script;

// What the calls of the lesson answered, in their order: so many calls, each with its answer in its place.
pub struct Lesson {
    pub fed: [Result<(), Refusal>; 2],
    pub turns: [Result<Option<Moved>, Refusal>; 9],
    pub collected: [Result<i32, Refusal>; 2],
}

// The file F.
pub fn file() -> [u8; 27]
    ensures { result ≡ file_f }
{
    *b"\x02\x04\x00\x02\x01\x01\x01\x03\x01\x01\x04\x00\x43\x0A\x01\x01\x45\x0B\x01\x02\x03\x0A\x02\x45\x0B\x02\x03"
}

// Any script on a ladder of 2, over a slot host that begins empty: 7 is fed to channel 1 and 5 to channel 0, and after nine
// turns channels 2 and 3 are collected.
pub fn teach(script: Script) -> Lesson
    ensures { answers_of result ≡ gone_through (opening script (ladder 2) empty_channels) }
{
    let mut visit = Visit::open(script, Ladder::new(2), SlotHost::new());
    let fed = [visit.feed(1, 7), visit.feed(0, 5)];
    // Written out: once a closure that borrows the visit made them (`map`, tried, or `from_fn`), a proof knows nothing of the
    // visit; and a loop would need an invariant that tells again what its calls answer.
    let turns = [
        visit.turn(),
        visit.turn(),
        visit.turn(),
        visit.turn(),
        visit.turn(),
        visit.turn(),
        visit.turn(),
        visit.turn(),
        visit.turn(),
    ];
    let collected = [visit.collect(2), visit.collect(3)];
    Lesson {
        fed,
        turns,
        collected,
    }
}

fn read_file() -> Result<Script, Fault>
    ensures { Reads file_f result }
{
    read_script(&file())
}

// The lesson with F, which is read from its bytes.
pub fn teach_file() -> Result<Lesson, Fault>
    ensures { result ≡ Ok as_taught }
{
    let script = read_file()?;
    Ok(teach(script))
}
