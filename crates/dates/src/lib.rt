// Calendar dates, calendar day numbers and study days (document 01, "Dates and records").
#![tactic(auto)]

ghost use Rattle.std.specs.Prelude.{◌≡◌, false, ◌+◌, ◌-◌, ◌≤◌, ltb, leb};
ghost use Rattle.laws.specs.Choice.{both, pick};
ghost use Rattle.dates.specs.Calendar.{first_year, last_year, leap_year, days_in_month, date_exists, days_of_years, days_of_months};
ghost use Rattle.dates.specs.Answers.{day_number_values, day_number_of, study_day_values, study_day_of};
ghost use Rattle.dates.specs.declared.StudyDayRefusal.TheVariants as StudyDayRefusal;

#[derive(Clone, Copy)]
pub struct Date {
    pub year: u16,
    pub month: u8,
    pub day: u8,
}

// Calendar days counted from 1990-01-01, which is day number 1.
#[derive(Clone, Copy)]
pub struct DayNumber(pub u16);

// Days counted from randomisation, which is day 1.
#[derive(Clone, Copy)]
pub struct StudyDay(pub u32);

// A date that does not exist or is out of range.
#[derive(Clone, Copy)]
pub struct NoSuchDate;

// Why a date has no study day.
#[derive(Clone, Copy)]
pub enum StudyDayRefusal {
    BeforeRandomisation,
    NoSuchDate,
}

impl From<NoSuchDate> for StudyDayRefusal {
    ghost from_gives = { λ _ refusal. refusal ≡ StudyDayRefusal.NoSuchDate };

    fn from(_refusal: NoSuchDate) -> StudyDayRefusal {
        StudyDayRefusal::NoSuchDate
    }
}

const FIRST_YEAR: u16 = 1990;

const LAST_YEAR: u16 = 2099;

const SHORTEST_MONTH: u8 = 28;

fn leap_year(year: u16) -> bool
    ensures { result ≡ leap_year year }
{
    year % 4 == 0 && (year % 100 != 0 || year % 400 == 0)
}

// Apart from February, 31 in the odd months to July and in the even ones from August on, 30 in the others.
fn days_in_month(year: u16, month: u8) -> u8
    ensures { result ≡ days_in_month (leap_year year) month }
{
    if month < 1 {
        return 0;
    }
    if 12 < month {
        return 0;
    }
    if month == 2 {
        if leap_year(year) {
            return 29;
        }
        return SHORTEST_MONTH;
    }
    30 + (month + month / 8) % 2
}

// Every month has the days of the shortest one, which spares most dates a look at their month's days.
fn day_exists(year: u16, month: u8, day: u8) -> bool
    ensures { result ≡ both (leb 1 day) (leb day (days_in_month (leap_year year) month)) }
{
    if (1 <= day) & (day <= SHORTEST_MONTH) {
        return (1 <= month) & (month <= 12);
    }
    1 <= day && day <= days_in_month(year, month)
}

pub fn date_exists(date: Date) -> bool
    ensures { result ≡ date_exists date }
{
    FIRST_YEAR <= date.year
        && (date.year <= LAST_YEAR && day_exists(date.year, date.month, date.day))
}

// The days before a month of a common year: an even rise, two days too high from March on.
fn days_before_month(month: u8) -> u32
    requires { (1 ≤ month) × (month ≤ 12) }
    ensures { (result ≡ days_of_months false (month - 1)) × (result ≤ 334) }
{
    let even = (month as u32 * 979 - 966) / 32;
    if month <= 2 { even } else { even - 2 }
}

// The days before a year, and from March on its own leap day. Every fourth year from 1990 to 2099 is a leap year, 2000 among them.
fn days_before_year(year: u16, month: u8) -> u32
    requires { (first_year ≤ year) × (year ≤ last_year) }
    ensures { (result ≡ days_of_years (year - first_year) + pick (both (ltb 2 month) (leap_year year)) 1 0) × (result ≤ 39813) }
{
    let years = (year - FIRST_YEAR) as u32;
    if month <= 2 {
        years * 365 + (years + 1) / 4
    } else {
        years * 365 + (years + 2) / 4
    }
}

pub fn day_number(date: Date) -> Result<DayNumber, NoSuchDate>
    ensures { day_number_values result ≡ day_number_of date }
{
    if !date_exists(date) {
        return Err(NoSuchDate);
    }
    let years = days_before_year(date.year, date.month);
    let months = days_before_month(date.month);
    Ok(DayNumber((years + months + date.day as u32) as u16))
}

// The only way from calendar dates to study days.
pub fn study_day(date: Date, randomisation: Date) -> Result<StudyDay, StudyDayRefusal>
    ensures { study_day_values result ≡ study_day_of date randomisation }
{
    let day = day_number(date)?;
    let first = day_number(randomisation)?;
    if day.0 < first.0 {
        return Err(StudyDayRefusal::BeforeRandomisation);
    }
    Ok(StudyDay((day.0 - first.0) as u32 + 1))
}
