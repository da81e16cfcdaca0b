// Days that may be absent.
ghost use Rattle.std.specs.Prelude.{◌≡◌};
ghost use Rattle.subject.specs.Days.{first_recorded, confirmed_on};

use dates::StudyDay;

const CONFIRMATION_DAYS: u64 = 28;

pub(crate) fn first_recorded(before: Option<StudyDay>, day: StudyDay) -> Option<StudyDay>
    ensures { result ≡ first_recorded before day }
{
    before.or(Some(day))
}

pub(crate) fn confirmed_on(before: Option<StudyDay>, day: StudyDay) -> bool
    ensures { result ≡ confirmed_on before day.0 }
{
    match before {
        None => false,
        Some(d) => d.0 as u64 + CONFIRMATION_DAYS <= day.0 as u64,
    }
}
