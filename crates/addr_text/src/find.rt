//! Where a sign stands first.
ghost use Rattle.std.specs.Prelude.{◌≡◌, ◌==◌, ◌&&◌, ◌<◌, ◌≤◌, ◌+◌, length, drop, IfSome};
ghost use Rattle.std.specs.List.{position};
ghost use Rattle.addr_text.specs.Find.{gap_of};

// The place of the first byte that is the sign.
pub(crate) fn find_sign(text: &[u8], sign: u8) -> Option<usize>
    ensures place { result ≡ position (λ b. b == sign) text.now }
    ensures inside { IfSome result (λ i. i < length text.now) }
{
    text.iter().position(|byte| *byte == sign)
}

fn are_colons(first: u8, second: u8) -> bool
    ensures { result ≡ ((second == 58) && (first == 58)) }
{
    second == b':' && first == b':'
}

// The place of the first two colons.
pub(crate) fn find_gap(text: &[u8]) -> Option<usize>
    ensures place { result ≡ gap_of text.now }
    ensures inside { IfSome result (λ i. i + 1 < length text.now) }
{
    let mut place = 0;
    while place + 1 < text.len() {
        if are_colons(text[place], text[place + 1]) {
            return Some(place);
        }
        place += 1;
    }
    None
}

// What stands from the place on.
pub(crate) fn behind(text: &[u8], place: usize) -> &[u8]
    requires { place ≤ length text.now }
    ensures { result.now ≡ drop place text.now }
{
    &text[place..]
}
