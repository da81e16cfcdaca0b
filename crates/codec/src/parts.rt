// Whether the length of a file lets it be cut into the bytes of its records. How it is cut is defined in specs/, and that nothing is lost by it is proved.
ghost use Rattle.std.specs.Prelude.{◌≡◌, ◌<◌, ◌≤◌};
ghost use Rattle.codec.specs.Bytes.{record_length};
ghost use Rattle.codec.specs.Parts.{bad_length};
ghost use Rattle.records.specs.Forms.{Form, old_form, new_form};

use super::{OLD_RECORD_LENGTH, RECORD_LENGTH};

pub const MOST_RECORDS: usize = 4000;

pub const MOST_BYTES: usize = MOST_RECORDS * RECORD_LENGTH;

// Refusal 13 of the form whose records have this length.
fn bad_length_of<const LENGTH: usize>(n: usize) -> bool
    requires { (0 < LENGTH) × (LENGTH ≤ record_length) }
    ensures { (form : Form) → LENGTH ≡ form.record_length → result ≡ bad_length form n }
{
    n == 0 || n % LENGTH != 0 || MOST_RECORDS * LENGTH < n
}

// Refusal 13.
pub fn bad_length(n: usize) -> bool
    ensures { result ≡ bad_length new_form n }
{
    bad_length_of::<RECORD_LENGTH>(n)
}

// Refusal 13 of the old form.
pub fn bad_old_length(n: usize) -> bool
    ensures { result ≡ bad_length old_form n }
{
    bad_length_of::<OLD_RECORD_LENGTH>(n)
}
