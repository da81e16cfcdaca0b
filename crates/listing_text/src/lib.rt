// The text of a listing, byte by byte (document 01, "Change in size, file and listing"): the definitions are in specs/, and how long a listing can
// be is proved here. A page has room for the longest one; the code that writes it is the crate `listing`.
#![tactic(auto)]

ghost use Rattle.std.specs.Prelude.{◌≡◌, length, replicate};
ghost use Rattle.listing_text.specs.Text.{longest_listing};

// The longest listing there can be has this many bytes.
pub const PAGE_LENGTH: usize = 96023;

// A page of zeros to lend. Its length stands in a promise of its own, which lending it as a slice needs.
pub fn blank_page() -> [u8; PAGE_LENGTH]
    ensures value { result ≡ replicate longest_listing 0 }
    ensures longest_listing_value { longest_listing ≡ length result }
{
    [0; PAGE_LENGTH]
}
