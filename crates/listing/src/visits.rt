// The line of a visit.
ghost use Rattle.std.specs.Prelude.{◌≡◌, [], ◌∷◌, ◌++◌, ◌+◌, ◌≤◌, ◌<◌, length};
ghost use Rattle.response_rules.specs.Words.{target_word, status_word, overall_word};
ghost use Rattle.response_rules.specs.Change.{change_values};
ghost use Rattle.adding.specs.Responses.{response_values, add_responses};
ghost use Rattle.listing_text.specs.Decimal.{decimal};
ghost use Rattle.listing_text.specs.Text.{word_text, tenths_text, change_text, visit_text, lines_text};
ghost use Rattle.listing.specs.Writing.{HasRoom, Puts, Wrote, AllWritable, Writable};

use super::page::{Lines, digit};
use super::words::put_word;
use adding::{AddAnswer, VisitResponse};
use records::Status;
use response_rules::{Change, OverallAnswer, TargetAnswer};

// Tenths of a percent and the newline.
fn put_tenths(lines: &mut Lines<'_>, n: u32)
    requires { (n < 100000) × HasRoom lines.old 8 }
    ensures { (Puts lines.old (tenths_text n ++ (10 ∷ [])) lines.new) × (lines.new.at ≤ lines.old.at + 8) }
{
    lines.put_decimal(n / 10);
    lines.put(&[b'.', digit(n % 10), b'\n']);
}

// A space, the change and the newline.
fn put_end(lines: &mut Lines<'_>, change: Option<Change>)
    requires { ((change_values change).tenths < 100000) × HasRoom lines.old 10 }
    ensures { (Puts lines.old (32 ∷ (change_text (change_values change) ++ (10 ∷ []))) lines.new) × (lines.new.at ≤ lines.old.at + 10) }
{
    match change {
        None => lines.put(b" -\n"),
        Some(Change::Increase(n)) => {
            lines.put(b" ");
            put_tenths(lines, n as u32);
        }
        Some(Change::Decrease(n)) => {
            lines.put(b" -");
            put_tenths(lines, n as u32);
        }
    }
}

// The letter and the study day.
fn put_start(lines: &mut Lines<'_>, day: u32)
    requires { (day < 100000) × HasRoom lines.old 7 }
    ensures { (Puts lines.old (86 ∷ 32 ∷ decimal day) lines.new) × (lines.new.at ≤ lines.old.at + 7) }
{
    lines.put(b"V ");
    lines.put_decimal(day);
}

// The three words, each behind a space.
fn put_answers(lines: &mut Lines<'_>, target: TargetAnswer, status: Status, overall: OverallAnswer)
    requires { HasRoom lines.old 9 }
    ensures { Puts lines.old (32 ∷ (word_text (target_word target) ++ (32 ∷ (word_text (status_word status) ++ (32 ∷ word_text (overall_word overall)))))) lines.new }
{
    put_word(lines, target);
    put_word(lines, status);
    put_word(lines, overall);
}

fn put_visit(lines: &mut Lines<'_>, visit: VisitResponse)
    requires { (Writable (response_values visit)) × HasRoom lines.old 26 }
    ensures { Puts lines.old (visit_text (response_values visit)) lines.new }
{
    put_start(lines, visit.day.0);
    put_answers(lines, visit.target, visit.nontarget, visit.overall);
    put_end(lines, visit.change);
}

// A line for a visit, and none for any other record.
pub(crate) fn put_lines(page: &mut [u8], at: usize, answer: AddAnswer) -> usize
    requires { (AllWritable (add_responses answer)) × (at + 26 ≤ length page.old) }
    ensures { Wrote page.old at (lines_text (add_responses answer)) result page.new }
{
    match answer {
        Ok(Some(visit)) => {
            let mut lines = Lines { page, at };
            put_visit(&mut lines, visit);
            lines.at
        }
        _ => at,
    }
}
