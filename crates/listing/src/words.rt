// The words of answers into a page.
ghost use Rattle.std.specs.Prelude.{◌≡◌, ◌∷◌, ◌+◌, ◌≤◌};
ghost use Rattle.response_rules.specs.Words.{Word, target_word, status_word, overall_word};
ghost use Rattle.outcome_rules.specs.Values.{best_word, pfs_status_word};
ghost use Rattle.listing_text.specs.Text.{word_text, status_text};
ghost use Rattle.listing.specs.Writing.{HasRoom, Puts};

use super::page::Lines;
use outcome_rules::{BestResponse, PfsStatus};
use records::Status;
use response_rules::{OverallAnswer, TargetAnswer};

// An answer that a word of two letters stands for.
pub(crate) trait Letters {
    ghost word: { Self → Word };

    fn letters(self) -> [u8; 2]
        ensures { result ≡ word_text (word self) };
}

impl Letters for TargetAnswer {
    ghost word = { target_word };

    fn letters(self) -> [u8; 2] {
        match self {
            TargetAnswer::NA => *b"NA",
            TargetAnswer::CR => *b"CR",
            TargetAnswer::PD => *b"PD",
            TargetAnswer::NE => *b"NE",
            TargetAnswer::PR => *b"PR",
            TargetAnswer::SD => *b"SD",
        }
    }
}

impl Letters for Status {
    ghost word = { status_word };

    fn letters(self) -> [u8; 2] {
        match self {
            Status::NA => *b"NA",
            Status::CR => *b"CR",
            Status::NN => *b"NN",
            Status::PD => *b"PD",
            Status::NE => *b"NE",
        }
    }
}

impl Letters for OverallAnswer {
    ghost word = { overall_word };

    fn letters(self) -> [u8; 2] {
        match self {
            OverallAnswer::CR => *b"CR",
            OverallAnswer::PR => *b"PR",
            OverallAnswer::SD => *b"SD",
            OverallAnswer::PD => *b"PD",
            OverallAnswer::NE => *b"NE",
        }
    }
}

impl Letters for BestResponse {
    ghost word = { best_word };

    fn letters(self) -> [u8; 2] {
        match self {
            BestResponse::CR => *b"CR",
            BestResponse::PR => *b"PR",
            BestResponse::SD => *b"SD",
            BestResponse::PD => *b"PD",
            BestResponse::NE => *b"NE",
        }
    }
}

// The word behind a space.
pub(crate) fn put_word<L: Letters>(lines: &mut Lines<'_>, answer: L)
    requires { HasRoom lines.old 3 }
    ensures { Puts lines.old (32 ∷ word_text (L.word answer)) lines.new }
{
    lines.put(b" ");
    lines.put(&answer.letters());
}

pub(crate) fn put_status(lines: &mut Lines<'_>, status: PfsStatus)
    requires { HasRoom lines.old 8 }
    ensures { (Puts lines.old (status_text (pfs_status_word status)) lines.new) × (lines.new.at ≤ lines.old.at + 8) }
{
    match status {
        PfsStatus::Event => lines.put(b"EVENT"),
        PfsStatus::Censored => lines.put(b"CENSORED"),
    }
}
