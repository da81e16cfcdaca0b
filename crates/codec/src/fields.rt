// The bits of one field, from the three bytes that end where it ends. The law behind it holds for any number of bytes.
ghost use Rattle.std.specs.Prelude.{◌≡◌, ◌+◌, ◌-◌, ◌*◌, ◌/◌, ◌%◌, ◌^◌, ◌≤◌, ◌<◌, ltb, length};
ghost use Rattle.laws.specs.Layout.{before};
ghost use Rattle.records.specs.Forms.{Form};
ghost use Rattle.codec.specs.Bytes.{record_length, bytes_number};
ghost use Rattle.codec.specs.Fields.{field_at};

// Byte j before the end; 0 before the first.
fn byte_before(s: &[u8], end: usize, j: usize) -> u32
    requires { (end ≤ length s.now) × (1 ≤ j) }
    ensures { (result ≡ before s.now end j) × (result < 256) }
{
    if j <= end { s[end - j] as u32 } else { 0 }
}

// A width of bits that ends shift bits above the end of a number.
fn bits_of(number: u32, shift: u32, width: u32) -> u16
    requires { (shift < 8) × (width ≤ 16) }
    ensures { result ≡ number / 2 ^ shift % 2 ^ width }
{
    ((number >> shift) % (1 << width)) as u16
}

// The bits of a width that start at a bit, bit 0 being the most significant: the field there of each form whose length the bytes have. No form has more bytes
// than the new one, so that every place fits.
pub(crate) fn bits_at(s: &[u8], at: u32, width: u32) -> u16
    requires { (length s.now ≤ record_length) × (at + width ≤ 8 * length s.now) × (width ≤ 16) }
    ensures { (form : Form) → length s.now ≡ form.record_length → result ≡ field_at form s.now at width }
{
    let past = at + width;
    let end = (past + 7) / 8;
    let first = byte_before(s, end as usize, 3);
    let second = byte_before(s, end as usize, 2);
    let third = byte_before(s, end as usize, 1);
    bits_of(first * 65536 + second * 256 + third, end * 8 - past, width)
}

// Whether any bit is set behind the first bytes.
pub(crate) fn bit_set_behind(s: &[u8], first: usize) -> bool
    requires { first ≤ length s.now }
    ensures { (form : Form) → length s.now ≡ form.record_length → result ≡ ltb 0 (bytes_number form s.now % 2 ^ (8 * (form.record_length - first))) }
{
    s[first..].iter().any(|byte| 0 < *byte)
}
