// Progress certificates judged, in plain words.
use super::line::{Terms, Trial};
use super::page::Page;
use super::pieces::Judged;
use certificates::judge;
use checks::Register;
use messages::read_progress;
use std::fmt;
use values::{Fleet, Refusal, TagLimit};
use verdicts::Verdict;
use wire::Packet;

// How many bytes a row of a register has.
const ROW: usize = 72;

// A progress certificate that is to be judged: for which fleet, round and view, over which
// register.
#[derive(Clone, Copy)]
pub struct Case<'a> {
    packet: Packet<'a>,
    fleet: Fleet,
    round: u32,
    view: u32,
    register: &'a [u8],
}

impl<'a> Case<'a> {
    // Refused where there is no such fleet, or no such tag limit.
    pub fn new(trial: &'a Trial) -> Result<Case<'a>, Refusal> {
        let Terms {
            f,
            t,
            limit,
            round,
            view,
        } = trial.terms;
        let fleet = Fleet::new(f, t)?;
        let packet = Packet {
            bytes: trial.certificate.as_slice(),
            limit: TagLimit::new(limit as usize)?,
        };
        Ok(Case {
            packet,
            fleet,
            round,
            view,
            register: trial.register.as_slice(),
        })
    }

    fn judge(self) -> Result<Verdict, Refusal> {
        let Packet { bytes, limit } = self.packet;
        let register = Register::new(self.register);
        judge(self.fleet, limit, self.round, self.view, bytes, &register)
    }

    // What is judged, what it holds if its layout is good, and the verdict.
    pub fn show(self, rt: &HostRuntime) -> anyhow::Result<()> {
        println!(rt; "{self}")?;
        let page = Page {
            rt,
            packet: self.packet,
            margin: 2,
        };
        if read_progress(self.packet).is_ok() {
            page.progress(0)?;
        }
        page.line(Judged(self.judge()))?;
        Ok(())
    }
}

impl fmt::Display for Case<'_> {
    fn fmt<W: fmt::Write>(&self, f: &mut fmt::Formatter<W>) -> fmt::Result {
        let Case {
            view,
            round,
            fleet,
            ..
        } = *self;
        let len = self.packet.bytes.len();
        let rows = self.register.len() / ROW;
        write!(
            f,
            "progress certificate of {len} bytes, judged for view {view} of round {round}"
        )?;
        write!(
            f,
            " in a fleet of {} sites (f {}, t {})",
            fleet.n(),
            fleet.f(),
            fleet.t()
        )?;
        write!(f, ", register of {rows} rows")
    }
}
