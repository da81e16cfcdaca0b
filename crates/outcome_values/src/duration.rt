// Duration of response.
ghost use Rattle.std.specs.Prelude.{◌≡◌};
ghost use Rattle.outcome_rules.specs.Values.{day_value, pfs_values, best_word, duration_values};
ghost use Rattle.outcome_rules.specs.BestResponse.{is_response};
ghost use Rattle.outcome_rules.specs.Duration.{duration_of};

use super::days::days_between;
use dates::StudyDay;
use outcome_rules::{BestResponse, DurationResult, PfsResult};

fn is_response(best: BestResponse) -> bool
    ensures { result ≡ is_response (best_word best) }
{
    matches!(best, BestResponse::CR | BestResponse::PR)
}

// From the best response, the day of the first counting CR or PR and PFS.
pub fn duration_of(
    best: BestResponse,
    first: Option<StudyDay>,
    pfs: PfsResult,
) -> Option<DurationResult>
    ensures { duration_values result ≡ duration_of (best_word best) (day_value first) (pfs_values pfs) }
{
    match first {
        Some(start) if is_response(best) => Some(DurationResult {
            status: pfs.status,
            days: days_between(start, pfs.day) as u64 + 1,
        }),
        _ => None,
    }
}
