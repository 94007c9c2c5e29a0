// The codes behind a backslash.
ghost use Rattle.std.specs.Prelude.{◌≡◌, ◌≤◌, length};
ghost use Rattle.unescape_codes.specs.Codes.{digit_of, digits_from, code_of, simple_of};

// The value of a hexadecimal digit of either case.
#[tactic(auto, unfolding(crate::specs::Codes::digit_of, utf8::specs::Utf8::within))]
fn digit(b: u8) -> Option<u32>
    ensures { result ≡ digit_of b }
{
    char::from(b).to_digit(16)
}

// The number that up to 8 hexadecimal digits make.
#[tactic(auto, using(crate::proofs::Digits::bad, crate::proofs::Digits::end))]
fn digits_value(h: &[u8]) -> Option<u32>
    requires { length h.now ≤ 8 }
    ensures { result ≡ digits_from 0 h.now }
{
    let mut n = 0;
    for &b in h {
        n = n * 16 + digit(b)?;
    }
    Some(n)
}

// The number that the bytes between braces name: 1 to 8 digits, so that no number wraps.
#[tactic(auto, unfolding(crate::specs::Codes::code_of, utf8::specs::Utf8::within))]
pub fn code_of(h: &[u8]) -> Option<u32>
    ensures { result ≡ code_of h.now }
{
    match h.len() {
        1..=8 => digits_value(h),
        _ => None,
    }
}

// The byte that a backslash and b stand for.
#[tactic(auto, unfolding(crate::specs::Codes::simple_of))]
pub fn simple_of(b: u8) -> Option<u8>
    ensures { result ≡ simple_of b }
{
    match b {
        b'"' => Some(b'"'),
        b'\\' => Some(b'\\'),
        b'n' => Some(b'\n'),
        b'r' => Some(b'\r'),
        b't' => Some(b'\t'),
        _ => None,
    }
}
