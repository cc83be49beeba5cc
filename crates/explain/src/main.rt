// Explains packets and judges certificates: lines of hexadecimal text in, a few lines of plain
// words out for each.
#![tactic(auto)]

mod judging;
mod line;
mod page;
mod pieces;

use anyhow::anyhow;
use judging::Case;
use line::{Task, Trial};
use lines::without_comment;
use packets::seal;
use page::Page;
use pieces::{Grouped, Meant};
use std::env;
use std::io::{BufRead, BufReader};
use values::{Refusal, TagLimit};
use wire::Packet;

// The longest tag, where no argument says otherwise.
const LONGEST: usize = 2048;

// The tag limit: the first argument, if there is one.
fn tag_limit(rt: &HostRuntime) -> anyhow::Result<TagLimit> {
    let word = env::args(rt)?.nth(1);
    let bytes = word.map_or(Ok(LONGEST), |word| {
        word.as_str().parse().map_err(|_| Refusal::Limits)
    });
    bytes.and_then(TagLimit::new).map_err(|refusal| anyhow!(
        "{refusal}: the tag limit is a multiple of 4 from 4 to 2048"
    ))
}

// Explains the lines of one run, whose tags have one limit.
#[derive(Clone, Copy)]
struct Explainer<'a> {
    rt: &'a HostRuntime,
    limit: TagLimit,
}

impl Explainer<'_> {
    // What a packet holds, behind a margin.
    fn explain_packet(self, bytes: &[u8], margin: usize) -> anyhow::Result<()> {
        let packet = Packet {
            bytes,
            limit: self.limit,
        };
        Page {
            rt: self.rt,
            packet,
            margin,
        }
        .show()
    }

    // The message that sealing makes of a draft and a tag, read back.
    fn explain_draft(self, draft: &[u8], tag: &[u8]) -> anyhow::Result<()> {
        let rt = self.rt;
        let drafted = draft.len();
        let tagged = tag.len();
        println!(rt; "draft of {drafted} bytes, tag of {tagged} bytes")?;
        let room = drafted.saturating_add(self.limit.bytes() + 4);
        let mut sealed = vec![in rt.alloc(); 0u8; room]?;
        match seal(draft, tag, self.limit, sealed.as_mut_slice()) {
            Ok(len) => {
                sealed.truncate(len);
                println!(rt; "  sealed: {}", Grouped(sealed.as_slice()))?;
                // What comes first on this line depends on the packet.
                print!(rt; "  ")?;
                self.explain_packet(sealed.as_slice(), 4)
            }
            Err(refusal) => {
                println!(rt; "  {}", Meant(refusal))?;
                Ok(())
            }
        }
    }

    // A progress certificate, and what it lets be proposed.
    fn explain_trial(self, trial: &Trial) -> anyhow::Result<()> {
        let rt = self.rt;
        match Case::new(trial) {
            Ok(case) => case.show(rt),
            Err(refusal) => {
                println!(rt; "{}", Meant(refusal))?;
                Ok(())
            }
        }
    }

    // What a line has before its comment; `run` has seen that it is more than blanks.
    fn explain_line(self, number: usize, text: &[u8]) -> anyhow::Result<()> {
        let rt = self.rt;
        print!(rt; "line {number}: ")?;
        match Task::read(rt.alloc(), text) {
            Ok(Task::Explain { packet }) => self.explain_packet(packet.as_slice(), 2),
            Ok(Task::Seal { draft, tag }) => self.explain_draft(draft.as_slice(), tag.as_slice()),
            Ok(Task::Judge(trial)) => self.explain_trial(&trial),
            Err(bad) => {
                println!(rt; "{bad}")?;
                Ok(())
            }
        }
    }
}

fn run(rt: &HostRuntime) -> anyhow::Result<()> {
    let limit = tag_limit(rt)?;
    let explainer = Explainer { rt, limit };
    let heap = rt.alloc();
    let lines = BufReader::new(heap, rt.stdin())?.split(heap, b'\n');
    for (i, line) in lines.enumerate() {
        let line = line?;
        let text = without_comment(line.as_slice());
        // Tested here: a call for each empty line would take half as long again.
        if !hexadecimal::is_blank(text) {
            explainer.explain_line(i + 1, text)?;
        }
    }
    Ok(())
}

fn main(rt: HostRuntime) -> anyhow::Result<()> {
    run(&rt)
}
