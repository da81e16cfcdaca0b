// Bytes to what stands in them, before it is judged, for either form; each size is in tenths of a millimetre.
ghost use Rattle.std.specs.Prelude.{◌≡◌, ◌+◌, ◌-◌, ◌*◌, ◌≤◌, ◌%◌, ◌^◌, ltb};
ghost use Rattle.codec.specs.Bytes.{bytes_number};
ghost use Rattle.codec.specs.Fields.{field_at, targets_at, target_width};
ghost use Rattle.codec.specs.RawWith.{raw_with, times, sizes_times, visit_times};
ghost use Rattle.codec.specs.Reading.{is_one, kind_in, date_in, marks_from, sizes_from, status_from, without_targets, blank_record, baseline_in, visit_fields_in, visit_in, spare_in, raw_in, number_of_kind, IsKindOf};

use super::fields::{bit_set_behind, bits_at};
use super::forms::RecordBytes;
use crate::{Kind, Raw, VisitFields};
use dates::Date;
use records::{BaselineEntry, Entry, Record, Status, VisitEntry};

// The bit at which each field starts, in both forms.
const KIND: u32 = 0;

const YEAR: u32 = 3;

const MONTH: u32 = 15;

const DAY: u32 = 19;

const ASSESSED: u32 = 24;

const NONTARGET: u32 = 25;

const COUNT: u32 = 26;

const BASELINE_TARGETS: u32 = 29;

const STATUS: u32 = 24;

const NEW_LESION: u32 = 27;

const VISIT_TARGETS: u32 = 28;

// The bytes of kind and date.
const HEAD_LENGTH: usize = 3;

fn field<R: RecordBytes>(s: &R, at: u32, width: u32) -> u16
    requires { (at + width ≤ 8 * R.form.record_length) × (width ≤ 16) }
    ensures { result ≡ field_at R.form (R.bytes s.now) at width }
{
    bits_at(s.bytes(), at, width)
}

// The bits of a target: a mark and a size.
fn target_width<R: RecordBytes>() -> u32
    ensures { result ≡ target_width R.form }
{
    1 + R::SIZE_WIDTH
}

fn date_in<R: RecordBytes>(s: &R) -> Date
    ensures { result ≡ date_in R.form (bytes_number R.form (R.bytes s.now)) }
{
    Date {
        year: field(s, YEAR, 12),
        month: field(s, MONTH, 4) as u8,
        day: field(s, DAY, 5) as u8,
    }
}

fn bit_at<R: RecordBytes>(s: &R, at: u32) -> bool
    requires { at + 1 ≤ 8 * R.form.record_length }
    ensures { result ≡ is_one (field_at R.form (R.bytes s.now) at 1) }
{
    field(s, at, 1) == 1
}

fn size_at<R: RecordBytes>(s: &R, at: u32) -> u16
    requires { at + R.form.size_width ≤ 8 * R.form.record_length }
    ensures { result ≡ R.TENTHS * field_at R.form (R.bytes s.now) at R.form.size_width }
{
    R::TENTHS * field(s, at, R::SIZE_WIDTH)
}

// Five calls, here and in `sizes_at`: with `[0, 1, 2, 3, 4].map(..)` six goals stayed open.
fn marks_at<R: RecordBytes>(s: &R, at: u32) -> [bool; 5]
    requires { at + 5 * target_width R.form ≤ 8 * R.form.record_length }
    ensures { result ≡ marks_from (targets_at R.form (R.bytes s.now) at) }
{
    let width = target_width::<R>();
    [
        bit_at(s, at),
        bit_at(s, at + width),
        bit_at(s, at + 2 * width),
        bit_at(s, at + 3 * width),
        bit_at(s, at + 4 * width),
    ]
}

fn sizes_at<R: RecordBytes>(s: &R, at: u32) -> [u16; 5]
    requires { at + 5 * target_width R.form ≤ 8 * R.form.record_length }
    ensures { result ≡ times R.TENTHS (sizes_from (targets_at R.form (R.bytes s.now) at)) }
{
    let width = target_width::<R>();
    [
        size_at(s, at + 1),
        size_at(s, at + (width + 1)),
        size_at(s, at + (2 * width + 1)),
        size_at(s, at + (3 * width + 1)),
        size_at(s, at + (4 * width + 1)),
    ]
}

// Whether a bit is set behind the five targets, which start at bit 28 or 29.
fn spare_behind_targets<R: RecordBytes>(s: &R, targets: u32) -> bool
    requires { (28 ≤ targets) × (targets ≤ 29) }
    ensures { result ≡ ltb 0 (field_at R.form (R.bytes s.now) (targets + 5 * target_width R.form) (8 * R.form.record_length - (targets + 5 * target_width R.form))) }
{
    let spare = targets + 5 * target_width::<R>();
    0 < field(s, spare, 8 * R::LENGTH - spare)
}

// NA for a number that is no status, as the definition has it, beside `badstatus`.
#[tactic(auto, unfolding(crate::specs::Reading::status_from))]
fn status_from(n: u16) -> Status
    ensures { result ≡ status_from n }
{
    match n {
        1 => Status::CR,
        2 => Status::NN,
        3 => Status::PD,
        4 => Status::NE,
        _ => Status::NA,
    }
}

#[tactic(auto, using(crate::proofs::FieldsByBits::baseline_by_bits))]
fn baseline_in<R: RecordBytes>(s: &R) -> Raw
    ensures { result ≡ raw_with (sizes_times R.TENTHS) (baseline_in R.form (bytes_number R.form (R.bytes s.now))) }
{
    let entry = Entry::Baseline(BaselineEntry {
        date: date_in(s),
        assessed: bit_at(s, ASSESSED),
        nontarget: bit_at(s, NONTARGET),
        count: field(s, COUNT, 3) as u8,
    });
    let read = Record {
        entry,
        sizes: sizes_at(s, BASELINE_TARGETS),
        marks: marks_at(s, BASELINE_TARGETS),
    };
    Raw {
        read,
        badstatus: false,
        spare: spare_behind_targets(s, BASELINE_TARGETS),
    }
}

#[tactic(auto, using(crate::proofs::FieldsByBits::visit_by_bits))]
pub(crate) fn visit_fields_in<R: RecordBytes>(s: &R) -> VisitFields
    ensures { result ≡ visit_times R.TENTHS (visit_fields_in R.form (bytes_number R.form (R.bytes s.now))) }
{
    let kind = field(s, KIND, 3);
    let number = field(s, STATUS, 3);
    let entry = VisitEntry {
        date: date_in(s),
        status: status_from(number),
        newlesion: bit_at(s, NEW_LESION),
    };
    VisitFields {
        isvisit: kind == 2,
        entry,
        measured: marks_at(s, VISIT_TARGETS),
        sizes: sizes_at(s, VISIT_TARGETS),
        badstatus: 4 < number,
        spare: spare_behind_targets(s, VISIT_TARGETS),
    }
}

#[tactic(auto, unfolding(crate::specs::Reading::visit_in, crate::specs::Reading::visit_fields_in))]
fn visit_in<R: RecordBytes>(s: &R) -> Raw
    ensures { result ≡ raw_with (sizes_times R.TENTHS) (visit_in R.form (bytes_number R.form (R.bytes s.now))) }
{
    let VisitFields {
        entry,
        measured,
        sizes,
        badstatus,
        spare,
        ..
    } = visit_fields_in(s);
    Raw {
        read: Record {
            entry: Entry::Visit(entry),
            sizes,
            marks: measured,
        },
        badstatus,
        spare,
    }
}

fn bit_set_behind_date<R: RecordBytes>(s: &R) -> bool
    ensures { result ≡ ltb 0 (bytes_number R.form (R.bytes s.now) % 2 ^ (8 * (R.form.record_length - 3))) }
{
    bit_set_behind(s.bytes(), HEAD_LENGTH)
}

fn record_without_targets(entry: Entry) -> Record
    ensures { result ≡ without_targets entry }
{
    Record {
        entry,
        sizes: [0; 5],
        marks: [false; 5],
    }
}

pub(crate) fn blank_record() -> Record
    ensures { result ≡ blank_record }
{
    record_without_targets(Entry::Therapy(Date {
        year: 0,
        month: 0,
        day: 0,
    }))
}

#[tactic(auto, using(crate::proofs::FieldsByBits::spare_by_bits))]
fn spare_in<R: RecordBytes>(s: &R, entry: Entry) -> Raw
    ensures { result ≡ raw_with (sizes_times R.TENTHS) (spare_in R.form entry (bytes_number R.form (R.bytes s.now))) }
{
    Raw {
        read: record_without_targets(entry),
        badstatus: false,
        spare: bit_set_behind_date(s),
    }
}

// None where the number is no kind.
pub(crate) fn kind_in<R: RecordBytes>(s: &R) -> Option<Kind>
    ensures { IsKindOf (kind_in R.form (bytes_number R.form (R.bytes s.now))) result }
{
    match field(s, KIND, 3) {
        1 => Some(Kind::Baseline),
        2 => Some(Kind::Visit),
        3 => Some(Kind::Therapy),
        4 => Some(Kind::Death),
        _ => None,
    }
}

#[tactic(auto, unfolding(crate::specs::Reading::raw_in))]
pub(crate) fn raw_in<R: RecordBytes>(kind: Kind, s: &R) -> Raw
    ensures { result ≡ raw_with (sizes_times R.TENTHS) (raw_in R.form (number_of_kind kind) (bytes_number R.form (R.bytes s.now))) }
{
    match kind {
        Kind::Baseline => baseline_in(s),
        Kind::Visit => visit_in(s),
        Kind::Therapy => spare_in(s, Entry::Therapy(date_in(s))),
        Kind::Death => spare_in(s, Entry::Death(date_in(s))),
    }
}
