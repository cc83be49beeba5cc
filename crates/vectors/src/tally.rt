// How many cases there were, and how many came out otherwise than they should.
use anyhow::ensure;
use std::fmt;

#[derive(Clone, Copy)]
pub struct Tally<'a> {
    rt: &'a HostRuntime,
    cases: u64,
    wrong: u64,
}

impl<'a> Tally<'a> {
    pub fn new(rt: &'a HostRuntime) -> Tally<'a> {
        Tally {
            rt,
            cases: 0,
            wrong: 0,
        }
    }

    // A line for a case.
    pub fn note<D: fmt::Display + Drop>(&mut self, case: D, right: bool) -> anyhow::Result<()> {
        self.cases = self.cases.saturating_add(1);
        self.wrong = self.wrong.saturating_add(u64::from(!right));
        let verdict = if right { "right" } else { "WRONG" };
        println!(self.rt; "{case}: {verdict}")?;
        Ok(())
    }

    // The last line, and whether the run was good.
    pub fn finish(self) -> anyhow::Result<()> {
        let Tally { rt, cases, wrong } = self;
        println!(rt; "{cases} cases, {wrong} wrong")?;
        ensure!(cases > 0, "no cases: name the files to compare with");
        ensure!(wrong == 0, "the library and the vectors differ");
        Ok(())
    }
}
