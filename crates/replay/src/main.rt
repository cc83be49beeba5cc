// Replays the log of a site: a line for each call in, and a line with what it answers out.
#![tactic(auto)]

mod command;
mod desk;
mod line;
mod report;

use command::Command;
use desk::Desk;
use line::{Failure, Line};
use report::{Refused, Reply};
use std::alloc::Global;
use std::io::{BufRead, BufReader, BufWriter, Write};

// Does what a line asks for, if there is more on it than a comment.
fn reply_to<'a>(
    desk: &'a mut Desk,
    heap: Global,
    text: &[u8],
) -> Result<Option<Reply<'a>>, Failure> {
    let words = line::words(heap, text)?;
    if words.is_empty() {
        return Ok(None);
    }
    let line = Line {
        heap,
        words: words.as_slice(),
    };
    desk.perform(Command::read(line)?)
}

fn run(rt: &HostRuntime) -> anyhow::Result<()> {
    let heap = rt.alloc();
    let mut out = BufWriter::new(heap, rt.stdout())?;
    let mut desk = Desk::new(heap);
    let lines = BufReader::new(heap, rt.stdin())?.split(heap, b'\n');
    for (i, line) in lines.enumerate() {
        match reply_to(&mut desk, heap, line?.as_slice()) {
            Ok(None) => {}
            Ok(Some(reply)) => writeln!(out, "{reply}")?,
            Err(Failure::Refused(refusal)) => writeln!(out, "{}", Refused(refusal))?,
            Err(Failure::Bad(bad)) => writeln!(out, "bad line {}: {bad}", i + 1)?,
            Err(Failure::NoMemory(error)) => return Err(error.into()),
        }
    }
    out.flush()?;
    Ok(())
}

fn main(rt: HostRuntime) -> anyhow::Result<()> {
    run(&rt)
}
