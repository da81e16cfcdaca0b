// Sums of sizes, and whether every target is measured.
ghost use Rattle.std.specs.Prelude.{◌≡◌, ◌≤◌};
ghost use Rattle.laws.specs.Choice.{pick};
ghost use Rattle.response_rules.specs.SumOfDiameters.{sum_of_diameters, baseline_sum, all_measured};

#[tactic(auto, unfolding(response_rules::specs::SumOfDiameters::sum_of_diameters))]
pub(crate) fn sum_of_diameters(measured: [bool; 5], sizes: [u16; 5]) -> u32
    ensures { result ≡ sum_of_diameters measured sizes }
{
    let mut sum = 0;
    for i in 0..5 {
        if measured[i] {
            sum += sizes[i] as u32;
        }
    }
    sum
}

// Of the targets within the count.
#[tactic(auto, unfolding(response_rules::specs::SumOfDiameters::sum_of_diameters, response_rules::specs::SumOfDiameters::baseline_sum))]
pub(crate) fn baseline_sum(count: u8, sizes: [u16; 5]) -> u32
    ensures { result ≡ baseline_sum count sizes }
{
    let within = [0 < count, 1 < count, 2 < count, 3 < count, 4 < count];
    sum_of_diameters(within, sizes)
}

#[tactic(auto, unfolding(response_rules::specs::SumOfDiameters::all_measured))]
pub(crate) fn all_measured(count: u8, measured: [bool; 5]) -> bool
    ensures { result ≡ all_measured count measured }
{
    for i in 0..5 {
        if i < count as usize && !measured[i] {
            return false;
        }
    }
    true
}
