// The lines of the outcome, and the line of a refusal.
ghost use Rattle.std.specs.Prelude.{◌≡◌, ◌+◌, ◌≤◌, ◌<◌, length, [], ◌∷◌};
ghost use Rattle.laws.specs.Choice.{pick};
ghost use Rattle.outcome_rules.specs.Values.{pfs_values, best_word, duration_values, pfs_status_word};
ghost use Rattle.outcome.specs.ReadingOutcome.{outcome as Promises·outcome, outcome_values};
ghost use Rattle.outcome.specs.Laws.{DurationWithin, ReadingWithin};
ghost use Rattle.listing_text.specs.Decimal.{decimal};
ghost use Rattle.listing_text.specs.Text.{status_text, line_of_fields, pfs_text, best_text, duration_text, settled_text, outcome_text, refusal_text};
ghost use Rattle.listing.specs.Writing.{HasRoom, Puts, Wrote};

use super::page::Lines;
use super::words::{put_status, put_word};
use file::FileRefusal;
use outcome::{OutcomeResult, SettledMarks};
use outcome_rules::{BestResponse, DurationResult, PfsResult, PfsStatus};

// A status and a number, of days or of a day, behind the letter of the line.
fn put_status_line(lines: &mut Lines<'_>, letter: u8, status: PfsStatus, n: u32)
    requires { (n < 100000) × HasRoom lines.old 17 }
    ensures { (Puts lines.old (line_of_fields ((letter ∷ []) ∷ status_text (pfs_status_word status) ∷ decimal n ∷ [])) lines.new) × (lines.new.at ≤ lines.old.at + 17) }
{
    lines.put(&[letter, b' ']);
    put_status(lines, status);
    lines.put(b" ");
    lines.put_decimal(n);
    lines.put(b"\n");
}

fn put_pfs(lines: &mut Lines<'_>, pfs: PfsResult)
    requires { (pfs.day.0 < 100000) × HasRoom lines.old 17 }
    ensures { (Puts lines.old (pfs_text (pfs_values pfs)) lines.new) × (lines.new.at ≤ lines.old.at + 17) }
{
    put_status_line(lines, b'P', pfs.status, pfs.day.0);
}

fn put_best(lines: &mut Lines<'_>, best: BestResponse)
    requires { HasRoom lines.old 5 }
    ensures { (Puts lines.old (best_text (best_word best)) lines.new) × (lines.new.at ≤ lines.old.at + 5) }
{
    lines.put(b"B");
    put_word(lines, best);
    lines.put(b"\n");
}

fn put_duration(lines: &mut Lines<'_>, duration: Option<DurationResult>)
    requires { (DurationWithin (duration_values duration)) × HasRoom lines.old 17 }
    ensures { (Puts lines.old (duration_text (duration_values duration)) lines.new) × (lines.new.at ≤ lines.old.at + 17) }
{
    match duration {
        None => lines.put(b"D none\n"),
        Some(d) => put_status_line(lines, b'D', d.status, d.days as u32),
    }
}

fn mark_digit(mark: bool) -> u8
    ensures { result ≡ pick mark 49 48 }
{
    if mark { b'1' } else { b'0' }
}

fn put_settled(lines: &mut Lines<'_>, settled: SettledMarks)
    requires { HasRoom lines.old 8 }
    ensures { Puts lines.old (settled_text settled.pfs settled.best settled.duration) lines.new }
{
    let pfs = mark_digit(settled.pfs);
    let best = mark_digit(settled.best);
    let duration = mark_digit(settled.duration);
    lines.put(&[b'S', b' ', pfs, b' ', best, b' ', duration, b'\n']);
}

pub(crate) fn put_outcome(page: &mut [u8], at: usize, outcome: OutcomeResult) -> usize
    requires { (ReadingWithin (Promises·outcome (outcome_values outcome))) × (at + 47 ≤ length page.old) }
    ensures { Wrote page.old at (outcome_text (outcome_values outcome)) result page.new }
{
    let mut lines = Lines { page, at };
    put_pfs(&mut lines, outcome.pfs);
    put_best(&mut lines, outcome.best);
    put_duration(&mut lines, outcome.duration);
    put_settled(&mut lines, outcome.settled);
    lines.at
}

pub(crate) fn put_refusal(page: &mut [u8], refusal: FileRefusal) -> usize
    requires { (refusal.index < 100000) × (14 ≤ length page.old) }
    ensures { Wrote page.old 0 (refusal_text refusal.number refusal.index) result page.new }
{
    let mut lines = Lines { page, at: 0 };
    lines.put(b"R ");
    lines.put_decimal(refusal.number as u32);
    lines.put(b" ");
    lines.put_decimal(refusal.index as u32);
    lines.put(b"\n");
    lines.at
}
