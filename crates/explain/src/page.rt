// What a packet holds, in plain words.
use super::pieces::{Fixed, Heading, Meant, Reported, Tag};
use messages::{Envelope, Message, NewView, envelope_at, shortest};
use packets::{read, write};
use std::{fmt, io};
use values::Refusal;
use wire::{Claim, Packet, Part, ViewChange, word_at};

// Where a packet is shown: lines behind a margin of so many blanks. What comes first goes on
// behind what was printed before.
#[derive(Clone, Copy)]
pub struct Page<'a> {
    pub rt: &'a HostRuntime,
    pub packet: Packet<'a>,
    pub margin: usize,
}

impl<'a> Page<'a> {
    // Reads the packet, and shows what it is and that it is written back as it was.
    pub fn show(self) -> anyhow::Result<()> {
        match read(self.packet.bytes, self.packet.limit) {
            Ok(message) => {
                self.message(message)?;
                self.rewritten(message)
            }
            Err(refusal) => {
                self.refused(refusal)?;
                self.too_short()?;
                Ok(())
            }
        }
    }

    pub fn line<D: fmt::Display + Drop>(self, text: D) -> io::Result<()> {
        let margin = self.margin;
        println!(self.rt; "{:margin$}{text}", "")
    }

    // The same page, for lines that stand under another.
    fn under(self) -> Page<'a> {
        Page {
            margin: self.margin.saturating_add(2),
            ..self
        }
    }

    // The first line of a packet that is not read.
    fn refused(self, refusal: Refusal) -> io::Result<()> {
        println!(self.rt; "{}", Meant(refusal))
    }

    // How long the packet should have been at least, if its kind is known.
    fn too_short(self) -> io::Result<()> {
        let len = self.packet.bytes.len();
        let Ok(kind) = word_at(self.packet.bytes, 0) else {
            return Ok(());
        };
        match shortest(kind) {
            Some(least) if len < least => self.line(format_args!(
                "it has {len} bytes, and kind {kind} at least {least}"
            )),
            _ => Ok(()),
        }
    }

    fn message(self, message: Message<'_>) -> io::Result<()> {
        match message {
            Message::Propose {
                claim,
                tag,
                progress,
            } => {
                self.claim("propose", claim, tag)?;
                self.progress(progress.place)
            }
            Message::Prepare { claim, tag } => self.claim("prepare", claim, tag),
            Message::Commit {
                claim,
                tag,
                certificate,
            } => {
                self.claim("commit", claim, tag)?;
                self.certificate(certificate.place)
            }
            Message::NewView {
                change,
                tag,
                certificate,
            } => {
                self.kind("new-view")?;
                self.change(change, tag, certificate)
            }
        }
    }

    // The first line.
    fn kind(self, kind: &str) -> io::Result<()> {
        println!(self.rt; "{kind}, {} bytes", self.packet.bytes.len())
    }

    fn claim(self, kind: &str, claim: Claim, tag: Part<'_>) -> io::Result<()> {
        self.kind(kind)?;
        self.line(Heading(claim.head))?;
        self.line(Fixed(claim.value.into()))?;
        self.line(Tag(tag))
    }

    // A view change, its tag, and the certificate of what it reports as committed.
    fn change(self, change: ViewChange, tag: Part<'_>, certificate: Part<'_>) -> io::Result<()> {
        self.line(Heading(change.head))?;
        self.line(format_args!("prepared {}", Reported(change.prepared)))?;
        self.line(format_args!("committed {}", Reported(change.committed)))?;
        self.line(Tag(tag))?;
        match change.committed {
            Some(_) => self.certificate(certificate.place),
            None => Ok(()),
        }
    }

    // A commit certificate: a line for each entry, under it. It was read before, so that no
    // part of it is cut.
    fn certificate(self, place: usize) -> io::Result<()> {
        let Ok(count) = word_at(self.packet.bytes, place) else {
            return Ok(());
        };
        self.line(format_args!("commit certificate at {place}, {count} entries"))?;
        // No count by hand: `next` is where the next one stands.
        let mut next = place + 4;
        for _ in 0..count {
            let Ok((entry, end)) = self.packet.entry_at(next) else {
                return Ok(());
            };
            self.under()
                .line(format_args!("site {}, {}", entry.site, Tag(entry.tag)))?;
            next = end;
        }
        Ok(())
    }

    // A progress certificate, as whole: each new-view, under it. It may be inside a propose, or
    // a packet of its own.
    // A loop shared with commit certificates would take two closures, and be no plainer.
    pub fn progress(self, place: usize) -> io::Result<()> {
        let Ok(count) = word_at(self.packet.bytes, place) else {
            return Ok(());
        };
        self.line(format_args!("progress certificate at {place}, {count} entries"))?;
        let mut next = place + 4;
        for _ in 0..count {
            let Ok((entry, end)) = envelope_at::<NewView>(self.packet, next) else {
                return Ok(());
            };
            self.under().new_view(next, entry)?;
            next = end;
        }
        Ok(())
    }

    // A new-view inside a progress certificate.
    fn new_view(self, place: usize, entry: Envelope<'_, ViewChange>) -> io::Result<()> {
        self.line(format_args!("new-view at {place}"))?;
        let Envelope {
            statement,
            tag,
            attachment,
        } = entry;
        self.under().change(statement, tag, attachment)
    }

    // The message written again, and compared with the packet.
    fn rewritten(self, message: Message<'_>) -> anyhow::Result<()> {
        let Packet { bytes, limit } = self.packet;
        let mut out = vec![in self.rt.alloc(); 0u8; bytes.len()]?;
        match write(message, limit, out.as_mut_slice()) {
            Ok(len) => {
                let same = if out.as_slice() == bytes {
                    "the same"
                } else {
                    "OTHER"
                };
                self.line(format_args!("written back, {same} {len} bytes"))?;
            }
            Err(refusal) => self.refused(refusal)?,
        }
        Ok(())
    }
}
