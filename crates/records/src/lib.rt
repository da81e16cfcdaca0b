// The record value and its own refusals, 3 to 5 (document 01, "Dates and records" and "Where a call stops").
#![tactic(auto)]

ghost use Rattle.std.specs.Prelude.{◌≡◌, false, [], ◌∷◌};
ghost use Rattle.laws.specs.Choice.{either};
ghost use Rattle.laws.specs.Refusals.{◌when◌, first};
ghost use Rattle.records.specs.Entries.{date_of};
ghost use Rattle.records.specs.Refusals.{own_number, check_number, without_disease, outside_limits, not_zero, ChecksVisit, refusals_of_read, refusal_of_record};
ghost use Rattle.records.specs.declared.Entry.TheVariants.{Baseline};
ghost use Rattle.records.specs.Forms.{new_unit};

use dates::Date;

mod targets; // targets.rt: what some of the five targets breaks

// The non-target status of a visit.
#[derive(Clone, Copy)]
pub enum Status {
    // No non-target lesions at baseline.
    NA,
    CR,
    // Neither CR nor PD.
    NN,
    PD,
    // Not evaluable.
    NE,
}

#[derive(Clone, Copy)]
pub struct BaselineEntry {
    // The randomisation date.
    pub date: Date,
    // False where the baseline is missing.
    pub assessed: bool,
    // Has non-target lesions.
    pub nontarget: bool,
    // How many of the five targets there are.
    pub count: u8,
}

#[derive(Clone, Copy)]
pub struct VisitEntry {
    pub date: Date,
    pub status: Status,
    pub newlesion: bool,
}

#[derive(Clone, Copy)]
pub enum Entry {
    Baseline(BaselineEntry),
    Visit(VisitEntry),
    Therapy(Date),
    Death(Date),
}

// A record, with the five targets' sizes in tenths of a millimetre beside the entry. A mark is 'node' in a baseline and 'measured' in a visit.
// Two arrays and no array of targets, as document 01 names them.
#[derive(Clone, Copy)]
pub struct Record {
    pub entry: Entry,
    pub sizes: [u16; 5],
    pub marks: [bool; 5],
}

// A record's own refusals, 3 to 5: the answers of reading, writing, opening and adding hold it.
#[derive(Clone, Copy)]
pub enum OwnRefusal {
    NoSuchDate,
    OutsideLimits,
    NotZero,
}

pub const MOST_TARGETS: u8 = 5;

// In tenths of a millimetre.
pub const LARGEST_SIZE: u16 = 5000;

pub fn own_number(refusal: OwnRefusal) -> u8
    ensures { result ≡ own_number refusal }
{
    match refusal {
        OwnRefusal::NoSuchDate => 3,
        OwnRefusal::OutsideLimits => 4,
        OwnRefusal::NotZero => 5,
    }
}

pub fn date_of(entry: Entry) -> Date
    ensures { result ≡ date_of entry }
{
    match entry {
        Entry::Baseline(b) => b.date,
        Entry::Visit(v) => v.date,
        Entry::Therapy(d) | Entry::Death(d) => d,
    }
}

fn without_disease(b: BaselineEntry) -> bool
    ensures { result ≡ without_disease b }
{
    b.count == 0 && !b.nontarget
}

// Refusal 4 of a baseline.
fn outside_limits(b: BaselineEntry, marks: [bool; 5], sizes: [u16; 5]) -> bool
    ensures { result ≡ outside_limits new_unit (Baseline b) marks sizes }
{
    b.assessed
        && (MOST_TARGETS < b.count
            || (without_disease(b) || targets::some_size_outside_limits(b.count, marks, sizes)))
}

// Refusal 5 of a baseline.
fn not_zero(b: BaselineEntry, marks: [bool; 5], sizes: [u16; 5]) -> bool
    ensures { result ≡ not_zero (Baseline b) marks sizes }
{
    if b.assessed {
        targets::some_not_zero_beyond_count(b.count, marks, sizes)
    } else {
        b.nontarget || (0 < b.count || targets::some_not_zero_beyond_count(0, marks, sizes))
    }
}

fn first_of(outside: bool, set: bool) -> Result<(), OwnRefusal>
    ensures { check_number result ≡ first (4 when outside ∷ 5 when set ∷ []) }
{
    if outside {
        return Err(OwnRefusal::OutsideLimits);
    }
    if set {
        return Err(OwnRefusal::NotZero);
    }
    Ok(())
}

// Refusals 4 and 5 of a visit.
pub fn check_visit(
    measured: [bool; 5],
    sizes: [u16; 5],
    badstatus: bool,
    spare: bool,
) -> Result<(), OwnRefusal>
    ensures { ChecksVisit measured sizes badstatus spare result }
{
    first_of(
        badstatus | targets::some_measured_outside_limits(measured, sizes),
        spare | targets::some_not_zero_unmeasured(measured, sizes),
    )
}

// Refusals 4 and 5, with a spare bit that is set beside them.
fn check_fields(
    entry: Entry,
    marks: [bool; 5],
    sizes: [u16; 5],
    spare: bool,
) -> Result<(), OwnRefusal>
    ensures { check_number result ≡ first (4 when outside_limits new_unit entry marks sizes ∷ 5 when either spare (not_zero entry marks sizes) ∷ []) }
{
    match entry {
        Entry::Baseline(b) => {
            first_of(
                outside_limits(b, marks, sizes),
                spare | not_zero(b, marks, sizes),
            )
        }
        Entry::Visit(_) => check_visit(marks, sizes, false, spare),
        Entry::Therapy(_) | Entry::Death(_) => first_of(
            false,
            spare | targets::some_not_zero_beyond_count(0, marks, sizes),
        ),
    }
}

// The record's own refusals in the order of their numbers. What was read beside the record goes with them: a status that is none
// is outside its limits, and a spare bit that is set is not zero.
pub fn check_read(r: Record, badstatus: bool, spare: bool) -> Result<(), OwnRefusal>
    ensures { check_number result ≡ first (refusals_of_read new_unit r badstatus spare) }
{
    if !dates::date_exists(date_of(r.entry)) {
        return Err(OwnRefusal::NoSuchDate);
    }
    if badstatus {
        return Err(OwnRefusal::OutsideLimits);
    }
    check_fields(r.entry, r.marks, r.sizes, spare)
}

pub fn check(r: Record) -> Result<(), OwnRefusal>
    ensures { check_number result ≡ refusal_of_record new_unit r }
{
    check_read(r, false, false)
}
