// A record as 13 bytes, read from any byte string, and a file cut into such bytes (document 01, "Where a call stops", 1 to 5 and 13, and "Change in size,
// file and listing"); a record of the old form read into such a one (document 02, request 1).
#![tactic(auto)]

ghost use Rattle.std.specs.Prelude.{◌≡◌, Err};
ghost use Rattle.laws.specs.Refusals.{first};
ghost use Rattle.records.specs.Refusals.{check_number};
ghost use Rattle.records.specs.Forms.{new_unit};
ghost use Rattle.codec.specs.Reading.{read_number, refusals_of_raw, blank_record, JudgesRead, Reads, blank_visit, ReadsVisit};
ghost use Rattle.codec.specs.declared.Raw.{Raw};

use dates::Date;
use records::{OwnRefusal, Record, Status, VisitEntry};

mod fields; // fields.rt: the bits of one field
mod forms; // forms.rt: the bytes of a record of either form
mod decode; // decode.rt: bytes to what stands in them, before it is judged
mod old; // old.rt: a record of the old form read into one of the new form
mod parts; // parts.rt: whether a file can be cut into the bytes of its records

pub use old::{OLD_RECORD_LENGTH, read_old};
pub use parts::{MOST_BYTES, MOST_RECORDS, bad_length, bad_old_length};

#[derive(Clone, Copy)]
pub enum ReadRefusal {
    WrongLength,
    NoSuchKind,
    Own(OwnRefusal),
}

// The record that was read; beside a refusal one fixed blank record, which `Reads` promises, so that this is no Result of a record.
#[derive(Clone, Copy)]
pub struct ReadResult {
    pub answer: Result<(), ReadRefusal>,
    pub found: Record,
}

// What bytes have as a visit, not judged.
#[derive(Clone, Copy)]
pub struct VisitFields {
    // Of kind 2. A flag, since the date is that of any other kind too, as `ReadsVisit` promises.
    pub isvisit: bool,
    pub entry: VisitEntry,
    pub measured: [bool; 5],
    pub sizes: [u16; 5],
    // A status that is none.
    pub badstatus: bool,
    // A spare bit that is set.
    pub spare: bool,
}

// What is read before it is judged: a record, and what has no place in one.
#[derive(Clone, Copy)]
pub(crate) struct Raw {
    pub(crate) read: Record,
    // A status that is none. A flag, since `refusals_of_read` takes it beside the record: 3 comes before 4.
    pub(crate) badstatus: bool,
    // A spare bit that is set.
    pub(crate) spare: bool,
}

#[derive(Clone, Copy)]
pub(crate) enum Kind {
    Baseline,
    Visit,
    Therapy,
    Death,
}

pub const RECORD_LENGTH: usize = 13;

// The number in document 01; 0 where a record was read.
pub fn read_number(answer: Result<(), ReadRefusal>) -> u8
    ensures { result ≡ read_number answer }
{
    match answer {
        Ok(()) => 0,
        Err(ReadRefusal::WrongLength) => 1,
        Err(ReadRefusal::NoSuchKind) => 2,
        Err(ReadRefusal::Own(own)) => records::own_number(own),
    }
}

fn refused(refusal: ReadRefusal) -> ReadResult
    ensures { (result.answer ≡ Err refusal) × (result.found ≡ blank_record) }
{
    ReadResult {
        answer: Err(refusal),
        found: decode::blank_record(),
    }
}

// A record that was read, by the answer of its own refusals.
fn answered(answer: Result<(), OwnRefusal>, found: Record) -> ReadResult
    ensures { (w : Raw) → check_number answer ≡ first (refusals_of_raw new_unit w) → found ≡ w.read → JudgesRead w result }
{
    match answer {
        Ok(()) => ReadResult {
            answer: Ok(()),
            found,
        },
        Err(own) => refused(ReadRefusal::Own(own)),
    }
}

// The record, or the first of 3 to 5 that meets it.
fn judged(raw: Raw) -> ReadResult
    ensures { JudgesRead raw result }
{
    let answer = records::check_read(raw.read, raw.badstatus, raw.spare);
    answered(answer, raw.read)
}

pub fn read(s: &[u8]) -> ReadResult
    ensures { Reads s.now result }
{
    let Some(bytes) = s.as_array::<RECORD_LENGTH>() else {
        return refused(ReadRefusal::WrongLength);
    };
    let Some(kind) = decode::kind_in(bytes) else {
        return refused(ReadRefusal::NoSuchKind);
    };
    judged(decode::raw_in(kind, bytes))
}

fn blank_visit() -> VisitFields
    ensures { result ≡ blank_visit }
{
    let date = Date {
        year: 0,
        month: 0,
        day: 0,
    };
    let entry = VisitEntry {
        date,
        status: Status::NA,
        newlesion: false,
    };
    VisitFields {
        isvisit: false,
        entry,
        measured: [false; 5],
        sizes: [0; 5],
        badstatus: false,
        spare: false,
    }
}

// For whoever judges a visit with what is known of its subject; a blank beside any other number of bytes than a record has.
pub fn visit_fields(s: &[u8]) -> VisitFields
    ensures { ReadsVisit s.now result }
{
    let Some(bytes) = s.as_array::<RECORD_LENGTH>() else {
        return blank_visit();
    };
    decode::visit_fields_in(bytes)
}
