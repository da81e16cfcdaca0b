// A record that no refusal meets to bytes, in three parts: kind and date, then the rest in halves, since no integer holds its 80 bits.
ghost use Rattle.std.specs.Prelude.{◌≡◌, true, false, ◌++◌, ℕ, ◌+◌, ◌*◌, ◌/◌, ◌%◌, ◌^◌, ◌<◌, ◌≤◌, length, get_or, take, drop};
ghost use Rattle.laws.specs.Layout.{pack, unpack, bytes};
ghost use Rattle.dates.specs.Calendar.{date_exists};
ghost use Rattle.records.specs.Entries.{date_of, kind_number, status_number};
ghost use Rattle.records.specs.Forms.{new_form, new_unit};
ghost use Rattle.records.specs.Refusals.{outside_limits, not_zero};
ghost use Rattle.codec.specs.Bytes.{record_length, head_layout, targets_layout, body_layout, head_fields, target_fields, body_fields, bit};

use records::{Entry, Status};

// What one unit of each field is worth in its part.
const KIND: u32 = 1 << 21;

const YEAR: u32 = 1 << 9;

const MONTH: u32 = 1 << 5;

const ASSESSED: u64 = 1 << 39;

const NONTARGET: u64 = 1 << 38;

const COUNT: u64 = 1 << 35;

const BASELINE_FIRST: u64 = 1 << 33;

const BASELINE_LAST: u64 = 1 << 5;

const STATUS: u64 = 1 << 37;

const NEW_LESION: u64 = 1 << 36;

const VISIT_FIRST: u64 = 1 << 34;

const VISIT_LAST: u64 = 1 << 6;

const MARK: u64 = 1 << 13;

const TARGET: u64 = 1 << 14;

// The first three targets stand above this in the high half and below it in the low one.
const BASELINE_CUT: u64 = 1 << 7;

const VISIT_CUT: u64 = 1 << 6;

fn bit_of(b: bool) -> u64
    ensures { (result ≡ bit b) × (result ≤ 1) }
{
    b as u64
}

// A `match`, since an enum whose cases carry structs has no number to cast.
fn kind_number(entry: Entry) -> u32
    ensures { (result ≡ kind_number entry) × (result ≤ 4) }
{
    match entry {
        Entry::Baseline(_) => 1,
        Entry::Visit(_) => 2,
        Entry::Therapy(_) => 3,
        Entry::Death(_) => 4,
    }
}

fn status_number(status: Status) -> u64
    ensures { (result ≡ status_number status) × (result ≤ 4) }
{
    status as u64
}

// Kind and date, 24 bits.
pub(crate) fn head_number(entry: Entry) -> u32
    requires { date_exists (date_of entry) ≡ true }
    ensures { result ≡ pack head_layout (head_fields (kind_number entry) (date_of entry)) }
{
    let kind = kind_number(entry);
    let date = records::date_of(entry);
    kind * KIND + date.year as u32 * YEAR + date.month as u32 * MONTH + date.day as u32
}

fn target_number(mark: bool, size: u16) -> u64
    requires { size < 8192 }
    ensures { (result ≡ bit mark * 8192 + size) × (result < 16384) }
{
    bit_of(mark) * MARK + size as u64
}

// The first three targets, 42 bits.
fn first_targets(marks: [bool; 5], sizes: [u16; 5]) -> u64
    requires { (k : ℕ) → k < 5 → get_or sizes k 0 < 8192 }
    ensures { (result ≡ pack (take 6 (targets_layout new_form)) (take 6 (target_fields marks sizes))) × (result < 2 ^ 42) }
{
    let a = target_number(marks[0], sizes[0]);
    let b = target_number(marks[1], sizes[1]);
    let c = target_number(marks[2], sizes[2]);
    (a * TARGET + b) * TARGET + c
}

// The last two targets, 28 bits.
fn last_targets(marks: [bool; 5], sizes: [u16; 5]) -> u64
    requires { (k : ℕ) → k < 5 → get_or sizes k 0 < 8192 }
    ensures { (result ≡ pack (drop 6 (targets_layout new_form)) (drop 6 (target_fields marks sizes))) × (result < 2 ^ 28) }
{
    let d = target_number(marks[3], sizes[3]);
    let e = target_number(marks[4], sizes[4]);
    d * TARGET + e
}

// The high half of what follows kind and date, 40 bits.
pub(crate) fn high_number(entry: Entry, marks: [bool; 5], sizes: [u16; 5]) -> u64
    requires { (outside_limits new_unit entry marks sizes ≡ false) × (not_zero entry marks sizes ≡ false) }
    ensures { result ≡ pack (body_layout new_form entry) (body_fields entry marks sizes) / 2 ^ 40 }
{
    let first = first_targets(marks, sizes);
    match entry {
        Entry::Baseline(b) => {
            bit_of(b.assessed) * ASSESSED
                + bit_of(b.nontarget) * NONTARGET
                + b.count as u64 * COUNT
                + first / BASELINE_CUT
        }
        Entry::Visit(v) => {
            status_number(v.status) * STATUS + bit_of(v.newlesion) * NEW_LESION + first / VISIT_CUT
        }
        Entry::Therapy(_) | Entry::Death(_) => 0,
    }
}

// The low half of what follows kind and date, 40 bits.
pub(crate) fn low_number(entry: Entry, marks: [bool; 5], sizes: [u16; 5]) -> u64
    requires { (outside_limits new_unit entry marks sizes ≡ false) × (not_zero entry marks sizes ≡ false) }
    ensures { result ≡ pack (body_layout new_form entry) (body_fields entry marks sizes) % 2 ^ 40 }
{
    let first = first_targets(marks, sizes);
    let last = last_targets(marks, sizes);
    match entry {
        Entry::Baseline(_) => first % BASELINE_CUT * BASELINE_FIRST + last * BASELINE_LAST,
        Entry::Visit(_) => first % VISIT_CUT * VISIT_FIRST + last * VISIT_LAST,
        Entry::Therapy(_) | Entry::Death(_) => 0,
    }
}

// The three parts to the front of the output.
pub(crate) fn store(head: u32, high: u64, low: u64, out: &mut [u8])
    requires { record_length ≤ length out.old }
    ensures { out.new ≡ (unpack (bytes 3) head ++ (unpack (bytes 5) high ++ unpack (bytes 5) low)) ++ drop record_length out.old }
{
    out[..3].copy_from_slice(&head.to_be_bytes()[1..]);
    out[3..8].copy_from_slice(&high.to_be_bytes()[3..]);
    out[8..13].copy_from_slice(&low.to_be_bytes()[3..]);
}
