// An old record opens a subject or is added to one: it is read with each size times ten, and placed by the calls that place any other.
ghost use Rattle.converter.specs.Judging.{OpenedOld, AddedOld};

use subject::Subject;

// The subject opened, or the number in document 01 of the first refusal.
#[tactic(auto, using(crate::proofs::PlacingReturns::open_unread))]
pub(crate) fn open_old(part: &[u8]) -> Result<Subject, u8>
    ensures { OpenedOld part.now result }
{
    let read = codec::read_old(part);
    if read.answer.is_err() {
        return Err(codec::read_number(read.answer));
    }
    let opened = subject::open_subject(read.found);
    if opened.answer.is_err() {
        return Err(subject::open_number(opened.answer));
    }
    Ok(opened.subject)
}

// The same of an addition.
pub(crate) fn add_old(s: Subject, part: &[u8]) -> Result<Subject, u8>
    ensures { AddedOld s part.now result }
{
    let read = codec::read_old(part);
    if read.answer.is_err() {
        return Err(codec::read_number(read.answer));
    }
    let added = adding::added(s, read.found);
    if added.answer.is_err() {
        return Err(adding::add_number(added.answer));
    }
    Ok(added.subject)
}
