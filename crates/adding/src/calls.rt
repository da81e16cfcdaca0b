// Adding a record, by value, where the caller keeps the subject, and from its bytes.
ghost use Rattle.std.specs.Prelude.{◌≡◌};
ghost use Rattle.laws.specs.Choice.{both};
ghost use Rattle.subject.specs.Range.{enrolment_in_range, follow_up_in_range};
ghost use Rattle.adding.specs.Promises.{Adds, AddsBytes};

use super::dating::{dated, dated_bytes};
use super::stepping::step;
use super::{AddAnswer, AddResult, Step};
use records::Record;
use subject::{Enrolment, Subject};

fn in_range(s: Subject) -> bool
    ensures { result ≡ both (enrolment_in_range s.enrolment) (follow_up_in_range s.followup) }
{
    subject::enrolment_in_range(s.enrolment) && subject::followup_in_range(s.followup)
}

fn moved(e: Enrolment, s: Step) -> AddResult
    ensures { (result.answer ≡ s.answer) × (result.subject ≡ record { enrolment = e; followup = s.followup }) }
{
    let subject = Subject {
        enrolment: e,
        followup: s.followup,
    };
    AddResult {
        subject,
        answer: s.answer,
    }
}

pub fn added(s: Subject, r: Record) -> AddResult
    ensures { Adds s r result.answer result.subject }
{
    let inside = in_range(s);
    let on_its_day = dated(s.enrolment.randomisation, r);
    let stepped = step(inside, s.enrolment, s.followup, on_its_day);
    moved(s.enrolment, stepped)
}

// The same on a subject that the caller keeps.
pub fn add(subject: &mut Subject, r: Record) -> AddAnswer
    ensures { Adds subject.old r result subject.new }
{
    let next = added(*subject, r);
    *subject = next.subject;
    next.answer
}

pub fn add_bytes(s: Subject, bytes: &[u8]) -> AddResult
    ensures { AddsBytes s bytes.now result.answer result.subject }
{
    let inside = in_range(s);
    let on_its_day = dated_bytes(s.enrolment.randomisation, bytes);
    let stepped = step(inside, s.enrolment, s.followup, on_its_day);
    moved(s.enrolment, stepped)
}
