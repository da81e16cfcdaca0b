// Day numbers of calendar dates (document 02, request 2): both sides of each end of the range, both ends of February in four years, and the first day of each month
// of a common year and of a leap year. The file `stdout`, to which what is printed is held, is worked out by GNU `date`: of each date the seconds that
// `date -u -d DATE +%s` prints, less those of 1990-01-01, divided by 86,400, and 1 more; no such date where `date` refuses it, and before 1990 and after 2099.
#![tactic(auto)]

use dates::{Date, NoSuchDate};
use output::{Output, STANDARD_OUTPUT};
use std::fmt::{self, Write};

#[derive(Drop)]
struct TwoDigits(u8);

impl fmt::Display for TwoDigits {
    fn fmt<W: fmt::Write>(&self, f: &mut fmt::Formatter<W>) -> fmt::Result {
        if self.0 < 10 {
            f.write_str("0")?;
        }
        write!(f, "{}", self.0)
    }
}

fn show(year: u16, month: u8, day: u8) {
    let mut out = Output(STANDARD_OUTPUT);
    let _ = write!(out, "{year}-{}-{} ", TwoDigits(month), TwoDigits(day));
    let _ = match dates::day_number(Date { year, month, day }) {
        Ok(n) => write!(out, "{}", n.0),
        Err(NoSuchDate) => out.write_str("no such date"),
    };
    let _ = out.write_str("\n");
}

fn ends_of_range() {
    show(1989, 12, 31);
    show(1990, 1, 1);
    show(2099, 12, 31);
    show(2100, 1, 1);
}

fn ends_of_february() {
    for year in [1999, 2000, 2004, 2099] {
        for (month, day) in [(1, 31), (2, 1), (2, 28), (2, 29), (3, 1)] {
            show(year, month, day);
        }
    }
}

fn first_days(year: u16) {
    for month in 1..=12 {
        show(year, month, 1);
    }
}

fn main() {
    ends_of_range();
    ends_of_february();
    first_days(2023);
    first_days(2024);
}
