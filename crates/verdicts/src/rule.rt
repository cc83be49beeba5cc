// The rule by which progress certificates are judged, over what their entries report.
ghost use Rattle.std.specs.Prelude.{◌≡◌, ◌≤◌};
ghost use Rattle.values.specs.Refusals.{refused_as, conflicting};
ghost use Rattle.verdicts.specs.Rule.{reaches, reporters, fast_view, fast_certificate, fast_support, top_committed, committed_in, by_commits, finding};
ghost use Rattle.verdicts.specs.Told.{weighed, finding_told};

use values::{Fleet, Refusal, Report, Value};

// What an entry of a progress certificate reports: the last prepare and the last commit.
#[derive(Clone, Copy, Debug, PartialEq, Eq)]
pub struct Reported {
    pub prepared: Option<Report>,
    pub committed: Option<Report>,
}

// Which certificate forces a value.
#[derive(Clone, Copy, Debug, PartialEq, Eq)]
pub enum Forcing {
    Fast,
    Commit,
}

// Two values are committed in the highest view that has a commit certificate: number 14.
#[derive(Clone, Copy, Debug, PartialEq, Eq)]
pub struct Conflict;

impl From<Conflict> for Refusal {
    ghost from_gives = { λ conflict r. refused_as r ≡ conflicting };

    fn from(_conflict: Conflict) -> Refusal {
        Refusal::Conflict
    }
}

impl Reported {
    // It reports a prepare of the value with a view of at least `view`.
    fn reaches(&self, value: Value, view: u32) -> bool
        ensures { result ≡ reaches value view self.now.prepared }
    {
        self.prepared
            .is_some_and(|report| report.value == value && view <= report.view)
    }
}

// How many report a prepare of the value with a view of at least `view`.
fn reporters(reports: &[Reported], value: Value, view: u32) -> usize
    ensures { result ≡ reporters value view reports.now }
{
    reports.iter().filter(|r| r.reaches(value, view)).count()
}

// The highest view that enough reports of a value reach.
fn fast_view(reports: &[Reported], value: Value, enough: usize) -> u32
    requires { 1 ≤ enough }
    ensures { result ≡ fast_view enough reports.now value }
{
    let mut highest = 0;
    for entry in reports {
        if let Some(report) = entry.prepared {
            if report.value == value
                && report.view > highest
                && reporters(reports, value, report.view) >= enough
            {
                highest = report.view;
            }
        }
    }
    highest
}

// The value that enough entries report as prepared, and the view of its fast certificate. There
// is one such value at most, so the search ends with the first.
fn fast_certificate(reports: &[Reported], enough: usize) -> Option<Report>
    requires { 1 ≤ enough }
    ensures { result ≡ fast_certificate enough reports.now }
{
    'search: {
        for candidate in reports {
            if let Some(report) = candidate.prepared {
                let mut count = 0;
                for entry in reports {
                    if entry.reaches(report.value, 1) {
                        count += 1;
                        if count == enough {
                            let view = fast_view(reports, report.value, enough);
                            break 'search Some(Report { view, ..report });
                        }
                    }
                }
            }
        }
        None
    }
}

// The highest view of a reported commit, 0 where there is none.
fn top_committed(reports: &[Reported]) -> u32
    ensures { result ≡ top_committed reports.now }
{
    let mut top = 0;
    for entry in reports {
        if let Some(report) = entry.committed {
            top = top.max(report.view);
        }
    }
    top
}

// The value that is committed in `view`, the highest that has a commit certificate; 0 says that
// none has.
fn by_commits(reports: &[Reported], view: u32) -> Result<Option<(Value, u32, Forcing)>, Conflict>
    ensures { weighed result ≡ finding_told (by_commits view (committed_in view reports.now)) }
{
    if view == 0 {
        return Ok(None);
    }
    let mut found: Option<Value> = None;
    for entry in reports {
        if let Some(report) = entry.committed {
            if report.view == view {
                if found.is_some_and(|value| value != report.value) {
                    return Err(Conflict);
                }
                found = Some(report.value);
            }
        }
    }
    Ok(found.map(|value| (value, view, Forcing::Commit)))
}

// The value that the reports force, its view, and which certificate forces it.
#[tactic(auto, unfolding(crate::specs::Rule::finding))]
pub fn weigh(reports: &[Reported], fleet: Fleet) -> Result<Option<(Value, u32, Forcing)>, Conflict>
    ensures { weighed result ≡ finding_told (finding fleet.f fleet.t reports.now) }
{
    let enough = fleet.f() + fleet.t() + 1;
    let top = top_committed(reports);
    match fast_certificate(reports, enough as usize) {
        Some(Report { view, value }) if view > top => Ok(Some((value, view, Forcing::Fast))),
        _ => by_commits(reports, top),
    }
}
