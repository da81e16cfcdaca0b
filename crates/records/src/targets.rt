// What some of the five targets breaks, by its place, its mark and its size.
ghost use Rattle.std.specs.Prelude.{◌≡◌, ℕ, Bool};
ghost use Rattle.records.specs.Refusals.{least_size, size_outside_limits, measured_outside_limits, not_zero_beyond_count, not_zero_unmeasured, some_target};
ghost use Rattle.records.specs.Forms.{new_unit};

use super::LARGEST_SIZE;

// In tenths of a millimetre.
const LEAST_NODE: u16 = 150;

const LEAST_OTHER: u16 = 100;

fn least_size(node: bool) -> u16
    ensures { result ≡ least_size new_unit node }
{
    if node { LEAST_NODE } else { LEAST_OTHER }
}

#[tactic(auto, unfolding(crate::specs::Refusals::size_outside_limits))]
fn size_outside_limits(count: u8, i: u8, node: bool, size: u16) -> bool
    ensures { result ≡ size_outside_limits new_unit count i node size }
{
    i < count && (size < least_size(node) || LARGEST_SIZE < size)
}

#[tactic(auto, unfolding(crate::specs::Refusals::measured_outside_limits))]
fn measured_outside_limits(measured: bool, size: u16) -> bool
    ensures { result ≡ measured_outside_limits new_unit measured size }
{
    measured && LARGEST_SIZE < size
}

#[tactic(auto, unfolding(crate::specs::Refusals::not_zero_beyond_count))]
fn not_zero_beyond_count(count: u8, i: u8, mark: bool, size: u16) -> bool
    ensures { result ≡ not_zero_beyond_count count i mark size }
{
    count <= i && (mark || 0 < size)
}

#[tactic(auto, unfolding(crate::specs::Refusals::not_zero_unmeasured))]
fn not_zero_unmeasured(measured: bool, size: u16) -> bool
    ensures { result ≡ not_zero_unmeasured measured size }
{
    !measured && 0 < size
}

// Whether some of the five targets passes the test of its place, its mark and its size.
fn some_target<F: Fn(u8, bool, u16) -> bool>(test: F, marks: [bool; 5], sizes: [u16; 5]) -> bool
    requires { F.IsAlwaysCallable test }
    ensures { (f : ℕ → Bool → ℕ → Bool) → ((i : ℕ) (mark : Bool) (size : ℕ) (r : Bool) → F.post test i mark size r → r ≡ f i mark size) → result ≡ some_target f marks sizes }
{
    for i in 0..5 {
        if test(i as u8, marks[i], sizes[i]) {
            return true;
        }
    }
    false
}

pub(crate) fn some_size_outside_limits(count: u8, nodes: [bool; 5], sizes: [u16; 5]) -> bool
    ensures { result ≡ some_target (size_outside_limits new_unit count) nodes sizes }
{
    some_target(
        |i, node, size| size_outside_limits(count, i, node, size),
        nodes,
        sizes,
    )
}

pub(crate) fn some_measured_outside_limits(marks: [bool; 5], sizes: [u16; 5]) -> bool
    ensures { result ≡ some_target (λ (i : ℕ). measured_outside_limits new_unit) marks sizes }
{
    some_target(
        |_, measured, size| measured_outside_limits(measured, size),
        marks,
        sizes,
    )
}

pub(crate) fn some_not_zero_beyond_count(count: u8, marks: [bool; 5], sizes: [u16; 5]) -> bool
    ensures { result ≡ some_target (not_zero_beyond_count count) marks sizes }
{
    some_target(
        |i, mark, size| not_zero_beyond_count(count, i, mark, size),
        marks,
        sizes,
    )
}

pub(crate) fn some_not_zero_unmeasured(marks: [bool; 5], sizes: [u16; 5]) -> bool
    ensures { result ≡ some_target (λ (i : ℕ). not_zero_unmeasured) marks sizes }
{
    some_target(
        |_, measured, size| not_zero_unmeasured(measured, size),
        marks,
        sizes,
    )
}
