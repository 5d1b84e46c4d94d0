//! The program `mdoc`: makes the real files, the real output, the clock, the dice of the system and toy key devices,
//! which give no security, and hands them to the library's one call.
#![tactic(auto)]

use key_device::{Recorder, ToyDevice};
use mdoc_outside::{Dealt, Dice, DiceFault, FolderCabinet, OsDice, OutSink, Word};
use mdoc_program::{Status, run};
use std::env;
use std::io::ErrorKind;
use std::process::ExitCode;
use std::rt::{Clock, Env};
use std::time::{SystemTime, UNIX_EPOCH};

// The words of the command line after the program's name. One that isn't UTF-8 is no word of a command.
fn words_of(rt: &(impl Env + AllocGlobal)) -> Result<Vec<Word>, Status> {
    let args = match env::args(rt) {
        Ok(args) => args,
        Err(fault) if fault.kind() == ErrorKind::OutOfMemory => return Err(Status::Memory),
        Err(_) => return Err(Status::Usage),
    };
    let mut words = Vec::new(rt.alloc());
    for arg in args.skip(1) {
        words.push(Word::copy_of(rt.alloc(), arg.as_str())?)?;
    }
    Ok(words)
}

// The clock's moment, in whole seconds since 1970, or 0 where it can't be read.
fn moment_of(rt: &impl Clock) -> i64 {
    let Ok(now) = SystemTime::now(rt) else {
        return 0;
    };
    match now.duration_since(UNIX_EPOCH) {
        Ok(since) => i64::try_from(since.as_secs()).unwrap_or(0),
        Err(_) => 0,
    }
}

// The number of the first key of each device: the low 31 bits of a word of the dice.
fn first_key_of<R: Dice>(dice: &mut R) -> Result<u32, Status> {
    match dice.next() {
        Ok(word) => Ok((word & 0x7fff_ffff) as u32),
        Err(DiceFault::Failed) => Err(Status::Dice),
        Err(DiceFault::Memory) => Err(Status::Memory),
    }
}

// Runs the words of the command line over the real objects.
fn run_words(rt: &HostRuntime) -> Result<Status, Status> {
    let words = words_of(rt)?;
    let first = first_key_of(&mut OsDice::new(rt))?;
    let mut cabinet = FolderCabinet::new(rt);
    let mut wallet_device = Recorder::new(rt.alloc(), ToyDevice::new(1, 1, first));
    let mut reader_device = Recorder::new(rt.alloc(), ToyDevice::new(1, 2, first));
    let mut dice = Dealt::new(rt.alloc(), OsDice::new(rt));
    let mut out = OutSink::new(rt);
    Ok(run(
        rt.alloc(),
        &words,
        moment_of(rt),
        &mut cabinet,
        &mut wallet_device,
        &mut reader_device,
        &mut dice,
        &mut out,
    ))
}

fn main(rt: HostRuntime) -> ExitCode {
    let status = run_words(&rt).unwrap_or_else(|status| status);
    if status != Status::Done {
        let _ = eprintln!(rt; "{status}");
    }
    ExitCode::from(status.code())
}
