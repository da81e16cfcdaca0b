// Two visits missed.
ghost use Rattle.std.specs.Prelude.{◌≡◌};
ghost use Rattle.outcome_rules.specs.Pfs.{gap_limit, two_visits_missed};

use super::days::days_between;
use dates::StudyDay;

// The limit in days, by the previous visit's day; there is no day 0.
#[tactic(auto, unfolding(outcome_rules::specs::Pfs::gap_limit))]
fn gap_limit(previous: StudyDay) -> u32
    ensures { result ≡ gap_limit previous.0 }
{
    match previous.0 {
        0..=1 => 91,
        2..=119 => 98,
        120..=161 => 112,
        _ => 126,
    }
}

pub(crate) fn two_visits_missed(day: StudyDay, previous: StudyDay) -> bool
    ensures { result ≡ two_visits_missed day.0 previous.0 }
{
    gap_limit(previous) < days_between(previous, day)
}
