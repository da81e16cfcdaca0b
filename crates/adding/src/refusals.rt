// The first refusal that meets a record: 12, then its own, then 8 to 11.
ghost use Rattle.std.specs.Prelude.{◌≡◌, false, ltb};
ghost use Rattle.laws.specs.Refusals.{first};
ghost use Rattle.records.specs.declared.Entry.TheVariants as E;
ghost use Rattle.adding.specs.Refusals.{refusal_number, add_number, refusals_of_later_held, refusals_of_entry_held};
ghost use Rattle.adding.specs.Stepping.{refusal_of_step_held};

use super::AddRefusal;
use super::fitting::fits;
use dates::StudyDay;
use outcome_values::is_recorded;
use records::VisitEntry;
use subject::{Enrolment, FollowUp};

pub(crate) fn refusal_of_step(
    inside: bool,
    own: Result<(), AddRefusal>,
    behind: Result<(), AddRefusal>,
) -> Result<(), AddRefusal>
    ensures { add_number result ≡ refusal_of_step_held inside (add_number own) (add_number behind) }
{
    if !inside {
        return Err(AddRefusal::OutOfRange);
    }
    match own {
        Ok(()) => behind,
        Err(refusal) => Err(refusal),
    }
}

// 8, behind 12 and its own.
pub(crate) fn refusal_of_baseline(inside: bool, own: Result<(), AddRefusal>) -> AddRefusal
    ensures { refusal_number result ≡ refusal_of_step_held inside (add_number own) 8 }
{
    match refusal_of_step(inside, own, Ok(())) {
        Ok(()) => AddRefusal::SecondBaseline,
        Err(refusal) => refusal,
    }
}

// 9 to 11.
fn refusal_of_later(f: FollowUp, early: bool, misfit: bool) -> Result<(), AddRefusal>
    ensures { add_number result ≡ first (refusals_of_later_held f early misfit) }
{
    if is_recorded(f.deathday) {
        return Err(AddRefusal::AfterDeath);
    }
    if early {
        return Err(AddRefusal::TooEarly);
    }
    if misfit {
        return Err(AddRefusal::Misfit);
    }
    Ok(())
}

// 9 to 11 of a visit.
pub(crate) fn refusal_of_visit(
    e: Enrolment,
    f: FollowUp,
    day: StudyDay,
    v: VisitEntry,
    measured: [bool; 5],
) -> Result<(), AddRefusal>
    ensures { add_number result ≡ first (refusals_of_entry_held e f day (E.Visit v) measured) }
{
    let fit = fits(e.disease.count, e.nontarget, v.status, measured);
    refusal_of_later(f, day.0 <= f.latestday.0, !fit)
}

// 9 and 10 of a therapy or a death, which is on or after the latest day.
pub(crate) fn refusal_of_therapy_or_death(f: FollowUp, day: StudyDay) -> Result<(), AddRefusal>
    ensures { add_number result ≡ first (refusals_of_later_held f (ltb day.0 f.latestday.0) false) }
{
    refusal_of_later(f, day.0 < f.latestday.0, false)
}
