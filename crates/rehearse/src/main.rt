// A rehearsal of four sites, of which one lies: packets and calls as in a harbour, over a register.
#![tactic(auto)]

mod harbour;
mod liar;
mod registry;

use anyhow::{Context, bail, ensure};
use harbour::Station;
use liar::Liar;
use records::Decision;
use registry::Registry;
use site::What;
use values::{Fix, Report, Value};
use verdicts::{Forced, Forcing, Verdict};

// Two fixes of one target.
const D: Value = Value {
    first: 7,
    second: 600_000,
    third: 30_000_000,
};

const E: Value = Value {
    first: 7,
    second: 600_001,
    third: 30_000_000,
};

// A line: in which view what was found, and the fix.
fn show(rt: &HostRuntime, view: u32, found: &str, value: Value) -> anyhow::Result<()> {
    let Fix {
        track,
        longitude,
        latitude,
    } = value.into();
    println!(rt; "{view} {found} {track} {longitude} {latitude}")?;
    Ok(())
}

// Site 0 lies, and sites 1 to 3 follow the rules.
#[derive(Drop)]
struct Rehearsal<'a> {
    rt: &'a HostRuntime,
    registry: Registry,
    liar: Liar,
    one: Station,
    two: Station,
    three: Station,
}

impl<'a> Rehearsal<'a> {
    fn open(rt: &'a HostRuntime) -> anyhow::Result<Rehearsal<'a>> {
        let heap = rt.alloc();
        Ok(Rehearsal {
            rt,
            registry: Registry::new(heap),
            liar: Liar::new(heap)?,
            one: Station::open(heap, 1)?,
            two: Station::open(heap, 2)?,
            three: Station::open(heap, 3)?,
        })
    }

    // View 1, which the liar leads: it equivocates. The others prepare what they hear, and hear no
    // prepare. The prepares of d, the liar's first.
    fn first_view(&mut self) -> anyhow::Result<[Vec<u8>; 3]> {
        let of_d = self.liar.propose(D, &mut self.registry)?;
        let of_e = self.liar.propose(E, &mut self.registry)?;
        self.one.hear(of_d.as_slice(), &self.registry)?;
        self.two.hear(of_d.as_slice(), &self.registry)?;
        self.three.hear(of_e.as_slice(), &self.registry)?;
        let by_one = self.one.seal(&mut self.registry)?;
        let by_two = self.two.seal(&mut self.registry)?;
        self.three.seal(&mut self.registry)?;
        let by_liar = self.liar.prepare(1, D, &mut self.registry)?;
        Ok([by_liar, by_one, by_two])
    }

    // All but the liar leave for a view.
    fn leave(&mut self, view: u32) -> anyhow::Result<()> {
        self.one.leave(view)?;
        self.two.leave(view)?;
        self.three.leave(view)
    }

    // View 2, which site 1 leads. The liar tells it that it prepared e, as site 3 did. The proposal.
    fn second_view(&mut self) -> anyhow::Result<Vec<u8>> {
        self.leave(2)?;
        let prepared = Report { view: 1, value: E };
        let new_views = [
            self.liar.new_view(2, prepared, &mut self.registry)?,
            self.one.seal(&mut self.registry)?,
            self.three.seal(&mut self.registry)?,
        ];
        lead(&mut self.one, &new_views, &self.registry)?;
        show_verdict(self.rt, 2, self.one.judge(&self.registry)?)?;
        self.one.seal(&mut self.registry)
    }

    // All prepare the proposal of view 2. Site 1 hears the four prepares, and the others hear none.
    fn decide(&mut self, proposal: &[u8]) -> anyhow::Result<()> {
        self.one.hear(proposal, &self.registry)?;
        self.two.hear(proposal, &self.registry)?;
        self.three.hear(proposal, &self.registry)?;
        let prepares = [
            self.liar.prepare(2, E, &mut self.registry)?,
            self.one.seal(&mut self.registry)?,
            self.two.seal(&mut self.registry)?,
            self.three.seal(&mut self.registry)?,
        ];
        for prepare in prepares.iter() {
            self.one.hear(prepare.as_slice(), &self.registry)?;
        }
        let Decision { report, .. } = self.one.read().context("site 1 has not decided")?;
        show(self.rt, report.view, "decided", report.value)
    }

    // View 3, which site 2 leads. The liar tells it that it prepared d in view 1 and committed it,
    // with a certificate of these prepares.
    fn third_view(&mut self, prepares: &[Vec<u8>]) -> anyhow::Result<()> {
        self.leave(3)?;
        let report = Report { view: 1, value: D };
        let new_views = [
            self.liar
                .committed_new_view(3, report, prepares, &mut self.registry)?,
            self.two.seal(&mut self.registry)?,
            self.three.seal(&mut self.registry)?,
        ];
        lead(&mut self.two, &new_views, &self.registry)?;
        show_verdict(self.rt, 3, self.two.judge(&self.registry)?)
    }
}

// The leader hears the new-views, of which the last makes a quorum, and is handed d to propose.
fn lead(leader: &mut Station, new_views: &[Vec<u8>], registry: &Registry) -> anyhow::Result<()> {
    let mut what = What::Noted;
    for new_view in new_views {
        what = leader.hear(new_view.as_slice(), registry)?;
    }
    ensure!(what == What::Gathered, "the new-views are no quorum");
    leader.propose(D, registry)
}

// What a leader's new-views force.
fn show_verdict(rt: &HostRuntime, view: u32, verdict: Verdict) -> anyhow::Result<()> {
    let Verdict::Forced(Forced { value, by, .. }) = verdict else {
        bail!("no fix is forced");
    };
    let by = match by {
        Forcing::Fast => "fast",
        Forcing::Commit => "certificate",
    };
    show(rt, view, by, value)
}

fn run(rt: &HostRuntime) -> anyhow::Result<()> {
    let mut rehearsal = Rehearsal::open(rt)?;
    println!(rt; "view found track lon lat")?;
    let prepares = rehearsal.first_view()?;
    let proposal = rehearsal.second_view()?;
    rehearsal.decide(proposal.as_slice())?;
    rehearsal.third_view(&prepares)
}

fn main(rt: HostRuntime) -> anyhow::Result<()> {
    run(&rt)
}
