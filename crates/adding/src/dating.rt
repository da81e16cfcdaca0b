// A record on its study day, with its own refusal.
ghost use Rattle.std.specs.Prelude.{◌≡◌, not, eqb};
ghost use Rattle.laws.specs.Layout.{AreBytes};
ghost use Rattle.dates.specs.Answers.{study_day_values};
ghost use Rattle.laws.specs.Refusals.{first};
ghost use Rattle.records.specs.Refusals.{refusals_of_fields};
ghost use Rattle.records.specs.declared.Entry.TheVariants as E;
ghost use Rattle.records.specs.Forms.{new_form, new_unit};
ghost use Rattle.codec.specs.Reading.{raw_visit, refusal_of_bytes, record_of_bytes};
ghost use Rattle.adding.specs.Refusals.{add_number};
ghost use Rattle.adding.specs.Stepping.{DatedAs, DatedFrom};

use super::{AddRefusal, Dated};
use codec::VisitFields;
use dates::{Date, StudyDay, StudyDayRefusal};
use records::{Entry, OwnRefusal, Record};

// 0, which is no study day, where there is none.
fn day_of(counted: Result<StudyDay, StudyDayRefusal>) -> StudyDay
    ensures { result.0 ≡ (study_day_values counted).day }
{
    counted.unwrap_or(StudyDay(0))
}

fn exists(counted: Result<StudyDay, StudyDayRefusal>) -> bool
    ensures { result ≡ not (eqb (study_day_values counted).refusal 3) }
{
    !matches!(counted, Err(StudyDayRefusal::NoSuchDate))
}

// 3 by the date that was counted, then 4 and 5.
fn own_of_visit(
    counted: Result<StudyDay, StudyDayRefusal>,
    v: VisitFields,
) -> Result<(), AddRefusal>
    ensures { add_number result ≡ first (refusals_of_fields new_unit (eqb (study_day_values counted).refusal 3) (E.Visit v.entry) v.measured v.sizes v.badstatus v.spare) }
{
    if !exists(counted) {
        return Err(AddRefusal::Own(OwnRefusal::NoSuchDate));
    }
    records::check_visit(v.measured, v.sizes, v.badstatus, v.spare).map_err(AddRefusal::from)
}

fn dated_visit(day: StudyDay, own: Result<(), AddRefusal>, v: VisitFields) -> Dated
    ensures { (result.day ≡ day) × (result.own ≡ own) × (result.found ≡ (raw_visit v).read) }
{
    let sizes = v.sizes;
    let marks = v.measured;
    let found = Record {
        entry: Entry::Visit(v.entry),
        sizes,
        marks,
    };
    Dated { day, own, found }
}

fn dated_other(day: StudyDay, bytes: &[u8]) -> Dated
    ensures { (result.day ≡ day) × (add_number result.own ≡ refusal_of_bytes new_form bytes.now) × (result.found ≡ record_of_bytes new_form bytes.now) × AreBytes bytes.now }
{
    let read = codec::read(bytes);
    Dated {
        day,
        own: read.answer.map_err(AddRefusal::from),
        found: read.found,
    }
}

// The kind is looked at first, and a visit's date judged as it is counted.
pub(crate) fn dated_bytes(randomisation: Date, bytes: &[u8]) -> Dated
    ensures { DatedFrom randomisation bytes.now result }
{
    let v = codec::visit_fields(bytes);
    let counted = dates::study_day(v.entry.date, randomisation);
    let day = day_of(counted);
    if v.isvisit {
        return dated_visit(day, own_of_visit(counted, v), v);
    }
    dated_other(day, bytes)
}

pub(crate) fn dated(randomisation: Date, r: Record) -> Dated
    ensures { DatedAs randomisation r result }
{
    let counted = dates::study_day(records::date_of(r.entry), randomisation);
    Dated {
        day: day_of(counted),
        own: records::check(r).map_err(AddRefusal::from),
        found: r,
    }
}
