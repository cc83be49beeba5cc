// What the library offers for certificates: judging.
ghost use Rattle.std.specs.Prelude.{◌≡◌};
ghost use Rattle.values.specs.Refusals.{answered};
ghost use Rattle.verdicts.specs.Told.{verdict_told};
ghost use Rattle.agreement.specs.Examples.{Examples};
ghost use Rattle.certificates.specs.Judging.{judging};
ghost use Rattle.certificates.specs.Laws.{AskedDecides, Counting, Agreement};
ghost use Rattle.certificates.specs.Runs.{JudgingKeepsDecisions, JudgingNeverConflicts, JudgingAnswers};

use super::examiner::Examiner;
use checks::Check;
use values::{Fleet, Refusal, TagLimit};
use verdicts::Verdict;
use wire::Packet;

// What a progress certificate for a view lets be proposed, in a fleet and a round, where the
// check says who has made its statements.
pub fn judge<C: Check>(
    fleet: Fleet,
    limit: TagLimit,
    round: u32,
    view: u32,
    certificate: &[u8],
    check: &C,
) -> Result<Verdict, Refusal>
    ensures value { answered verdict_told result ≡ judging (C.Check.vouched check.now) fleet.f fleet.t limit.bytes round view certificate.now }
    ensures asked { AskedDecides }
    ensures examples { Examples }
    ensures counting { Counting }
    ensures agreement { Agreement }
    ensures decisions { JudgingKeepsDecisions }
    ensures conflicts { JudgingNeverConflicts }
    ensures answers { JudgingAnswers }
{
    let packet = Packet {
        bytes: certificate,
        limit,
    };
    let examiner = Examiner {
        packet,
        fleet,
        round,
        check,
    };
    Ok(examiner.judge(view)?.into())
}
