// Compares the library with vectors from outside: files of lines, a case a line.
#![tactic(auto)]

mod formats;
mod line;
mod setup;
mod signatures;
mod tally;

use anyhow::anyhow;
use line::Line;
use setup::Setup;
use signatures::Signed;
use std::{env, fs};
use tally::Tally;

// What the lines so far have left for the next.
#[derive(Drop)]
struct Bench<'a> {
    rt: &'a HostRuntime,
    tally: Tally<'a>,
    setup: Setup,
    signed: Option<Signed>,
}

impl<'a> Bench<'a> {
    fn new(rt: &'a HostRuntime) -> Bench<'a> {
        Bench {
            rt,
            tally: Tally::new(rt),
            setup: Setup::new(),
            signed: None,
        }
    }

    // One line: a case, or what later cases are about.
    // No enum of these words: it would be matched a second time, here.
    fn run_line(&mut self, line: Line<'_>) -> anyhow::Result<()> {
        let tally = &mut self.tally;
        match line.word(0)? {
            "digest" => signatures::run_digest(line, tally),
            "verify" => {
                self.signed = Some(signatures::run_verify(line, tally)?);
                Ok(())
            }
            "changed" => signatures::run_changed(line, self.signed.as_mut(), tally),
            "port" => self.setup.set_port(line),
            "revoke" => self.setup.revoke(line),
            "key" => self.setup.set_key(line),
            "vouch" => self.setup.run_vouch(line, tally),
            "statement" => formats::run_statement(line, tally),
            "seal" => formats::run_seal(line, tally),
            "packet" => formats::run_packet(line, tally),
            "row" => formats::run_row(line, tally),
            "sizes" => formats::run_sizes(line, tally),
            _ => Err(anyhow!("no such case")),
        }
    }

    fn run_file(&mut self, path: &str) -> anyhow::Result<()> {
        let rt = self.rt;
        let heap = rt.alloc();
        let text = fs::read_to_string(rt, path)?;
        println!(rt; "== {path}")?;
        for (i, line) in text.as_str().lines().enumerate() {
            let words: Vec<&str> = line.split_whitespace().collect(heap)?;
            let line = Line {
                heap,
                words: words.as_slice(),
            };
            if !line.is_case() {
                continue;
            }
            if let Err(error) = self.run_line(line) {
                println!(rt; "{path}, line {}: not understood", i + 1)?;
                return Err(error);
            }
        }
        Ok(())
    }
}

fn run(rt: &HostRuntime) -> anyhow::Result<()> {
    let mut bench = Bench::new(rt);
    for path in env::args(rt)?.skip(1) {
        bench.run_file(path.as_str())?;
    }
    bench.tally.finish()
}

fn main(rt: HostRuntime) -> anyhow::Result<()> {
    run(&rt)
}
