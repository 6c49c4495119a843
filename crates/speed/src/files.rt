// Reading and writing the largest file.
use crate::runs::timed;
use crate::tally::mixed;
use anyhow::anyhow;
use reader::file::read_script;
use refusal::{Fault, Flaw, Refusal};
use script::accepted::Script;
use script::parts::{Channel, Direction, Instruction};
use writer::file::write_script;

const BYTES: usize = 1844;

// A script of 16 levels, 16 channels and 256 instructions with no field of 0.
fn largest() -> Result<Script, Flaw> {
    let channel = Channel {
        direction: Direction::Out,
        level: 15,
    };
    let mut instructions = [Instruction::Skip; 256];
    // Each number is made of the one before.
    let mut number: i32 = 1;
    for instruction in instructions.iter_mut() {
        number = number.wrapping_mul(1_664_525);
        *instruction = Instruction::Set { target: 15, number };
    }
    Script::new(16, &[channel; 16], &instructions)
}

// Reads the file with another last byte, and answers the last instruction's number, which ends with it.
fn read_with(file: &mut [u8; BYTES], last: u8) -> Result<i32, Fault> {
    file[BYTES - 1] = last;
    let script = read_script(&*file)?;
    match script.instructions().last() {
        Some(Instruction::Set { target: _, number }) => Ok(*number),
        _ => Ok(0),
    }
}

// Writes the script, and answers the last byte.
fn write_to(file: &mut [u8; BYTES], script: &Script) -> Result<i32, Refusal> {
    write_script(script, &mut *file)?;
    Ok(i32::from(file[BYTES - 1]))
}

// Calls it that many times, with the low byte of each time's number, and tells its sum and its time.
fn measure<E: Drop, F: FnMut(u8) -> Result<i32, E>>(
    rt: &HostRuntime,
    name: &str,
    times: usize,
    call: F,
) -> anyhow::Result<()>
    requires { F.IsAlwaysCallable call }
{
    let (sum, nanos) = timed(rt, || sum_of(times, call))?;
    println!(rt; "{name} {BYTES} bytes times {times} sum {sum}")?;
    eprintln!(rt; "{name} file - 16 {times} {nanos}")?;
    Ok(())
}

// What the calls answered, in order.
fn sum_of<E: Drop, F: FnMut(u8) -> Result<i32, E>>(times: usize, call: F) -> i32
    requires { F.IsAlwaysCallable call }
{
    let mut call = call;
    let mut sum: i32 = 0;
    for time in 1..=times {
        let [low, ..] = time.to_le_bytes();
        sum = match call(low) {
            Ok(number) => mixed(sum, number),
            Err(_) => sum.wrapping_mul(37),
        };
    }
    sum
}

pub fn measure_files(rt: &HostRuntime, times: usize) -> anyhow::Result<()> {
    let script = largest().map_err(|_| anyhow!("the largest script is not accepted"))?;
    let mut file = [0; BYTES];
    measure(rt, "write", times, |_| write_to(&mut file, &script))?;
    measure(rt, "read", times, |last| read_with(&mut file, last))
}
