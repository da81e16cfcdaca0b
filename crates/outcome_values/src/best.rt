// Best response.
ghost use Rattle.std.specs.Prelude.{◌≡◌};
ghost use Rattle.outcome_rules.specs.Values.{best_word};
ghost use Rattle.outcome_rules.specs.BestResponse.{best_of};

use outcome_rules::BestResponse;

// From what the counting visits show: a confirmed CR, a confirmed CR or PR, a CR, PR or SD late enough, a progression.
pub fn best_of(cr: bool, pr: bool, sd: bool, pd: bool) -> BestResponse
    ensures { best_word result ≡ best_of cr pr sd pd }
{
    if cr {
        return BestResponse::CR;
    }
    if pr {
        return BestResponse::PR;
    }
    if sd {
        return BestResponse::SD;
    }
    if pd {
        return BestResponse::PD;
    }
    BestResponse::NE
}
