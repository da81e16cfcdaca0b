// Behind the last record of a file: refusal 14, or the outcome.
ghost use Rattle.std.specs.Prelude.{◌≡◌};
ghost use Rattle.outcome_rules.specs.Values.{day_value, pfs_values, duration_values};
ghost use Rattle.file.specs.Verdict.{is_after, starts_late};
ghost use Rattle.file.specs.Ending.{EndsFile};

use super::{FileRefusal, refused};
use dates::StudyDay;
use outcome::OutcomeResult;
use outcome_rules::{DurationResult, PfsResult};
use subject::Subject;

fn is_after(first: Option<StudyDay>, pfs: PfsResult) -> bool
    ensures { result ≡ is_after (day_value first) (pfs_values pfs).day }
{
    match first {
        None => false,
        Some(day) => pfs.day.0 < day.0,
    }
}

// Refusal 14; without a duration there is no response to start.
#[tactic(auto, unfolding(crate::specs::Verdict::starts_late))]
fn starts_late(duration: Option<DurationResult>, first: Option<StudyDay>, pfs: PfsResult) -> bool
    ensures { result ≡ starts_late (duration_values duration) (day_value first) (pfs_values pfs) }
{
    duration.is_some() && is_after(first, pfs)
}

// No subject of a file is out of range.
pub fn end_file(s: Subject, last: usize) -> Result<OutcomeResult, FileRefusal>
    ensures { EndsFile s last result }
{
    let first = s.followup.counting.firstresponse;
    let Ok(outcome) = outcome::read_outcome(s) else {
        return refused(12, last);
    };
    if starts_late(outcome.duration, first, outcome.pfs) {
        return refused(14, last);
    }
    Ok(outcome)
}
