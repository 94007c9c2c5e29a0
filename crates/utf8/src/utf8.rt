ghost use Rattle.std.specs.Prelude.{◌≡◌, ◌≤◌, eqb, length};
ghost use Rattle.std.specs.List.{list_all};
ghost use Rattle.utf8.specs.Utf8.{within, lead_of, followed, char_len, utf8};

use text_scans::ascii_len;

// What a lead byte says (Table 3-7): how many bytes follow, and the range of the second byte.
#[derive(Clone, Copy, Debug, PartialEq, Eq)]
pub struct Lead {
    pub more: usize,
    pub low: u8,
    pub high: u8,
}

// What b leads; None where it leads no character.
#[tactic(auto, unfolding(crate::specs::Utf8::lead_of, crate::specs::Utf8::within))]
pub fn lead_of(b: u8) -> Option<Lead>
    ensures { result ≡ lead_of b }
{
    let (more, low, high) = match b {
        0x00..=0x7F => (0, 0x80, 0xBF),
        0xC2..=0xDF => (1, 0x80, 0xBF),
        0xE0 => (2, 0xA0, 0xBF),
        0xE1..=0xEC => (2, 0x80, 0xBF),
        0xED => (2, 0x80, 0x9F),
        0xEE..=0xEF => (2, 0x80, 0xBF),
        0xF0 => (3, 0x90, 0xBF),
        0xF1..=0xF3 => (3, 0x80, 0xBF),
        0xF4 => (3, 0x80, 0x8F),
        _ => return None,
    };
    Some(Lead { more, low, high })
}

impl Lead {
    // Whether s begins with the bytes that follow: the second byte has its range, the others are from 80 to BF.
    #[tactic(auto, using(crate::proofs::Leads::short, crate::proofs::Leads::whole))]
    fn is_followed(self, s: &[u8]) -> bool
        ensures { result ≡ followed self.more self.low self.high s.now }
    {
        if s.len() < self.more {
            return false;
        }
        let Some((&second, others)) = s[..self.more].split_first() else {
            return true;
        };
        is_within(self.low, self.high, second) && are_continuations(others)
    }
}

// Whether every byte of s is from 80 to BF.
fn are_continuations(s: &[u8]) -> bool
    ensures { result ≡ list_all (within 0x80 0xBF) s.now }
{
    s.iter().all(|b| is_within(0x80, 0xBF, *b))
}

// What char_len answers, by the table.
#[tactic(auto, unfolding(crate::specs::Utf8::char_len), using(crate::proofs::Chars::followed_le))]
fn char_len_by_table(s: &[u8]) -> usize
    ensures { result ≡ char_len s.now }
{
    let Some((&b, rest)) = s.split_first() else {
        return 0;
    };
    match lead_of(b) {
        Some(lead) if lead.is_followed(rest) => lead.more + 1,
        _ => 0,
    }
}

// Whether b is from low to high. Here and below `&` is no jump, which `&&` would be.
#[tactic(auto, unfolding(crate::specs::Utf8::within))]
fn is_within(low: u8, high: u8, b: u8) -> bool
    ensures { result ≡ within low high b }
{
    (low <= b) & (b <= high)
}

// Whether s begins with a character of two bytes.
#[tactic(auto, using(crate::proofs::Wide::short, crate::proofs::Wide::two))]
fn is_two(s: &[u8]) -> bool
    ensures { result ≡ eqb (char_len s.now) 2 }
{
    if s.len() < 2 {
        return false;
    }
    is_within(0xC2, 0xDF, s[0]) & is_within(0x80, 0xBF, s[1])
}

// Whether s begins with a character of three bytes. After E0 and ED fewer second bytes are allowed.
#[tactic(auto, using(crate::proofs::Wide::short))]
fn is_three(s: &[u8]) -> bool
    ensures { result ≡ eqb (char_len s.now) 3 }
{
    if s.len() < 3 {
        return false;
    }
    let low = if s[0] == 0xE0 { 0xA0 } else { 0x80 };
    let high = if s[0] == 0xED { 0x9F } else { 0xBF };
    is_within(0xE0, 0xEF, s[0]) & is_within(low, high, s[1]) & is_within(0x80, 0xBF, s[2])
}

// How many bytes the character has that s begins with; 0 where it begins with no well-formed one: a length, as the rule
// has it. Where it moves the place, an Option would be undone.
// Most letters beyond ASCII have two or three bytes, and the table's jump is slow: for these there are ways past it.
#[tactic(auto, using(crate::proofs::Chars::char_len_le))]
pub fn char_len(s: &[u8]) -> usize
    ensures value { result ≡ char_len s.now }
    ensures within { result ≤ length s.now }
{
    if is_two(s) {
        return 2;
    }
    if is_three(s) {
        return 3;
    }
    char_len_by_table(s)
}

// A byte of the table's first row is a character by itself: for these there is a short way, past the table, and a
// shorter one for eights of them in front. `split_first` tests the end and takes the byte at once; an iterator over
// characters would be a type, a `next` and a rule of its own for this one loop.
#[tactic(auto, using(crate::proofs::Chars::utf8_none, crate::proofs::Chars::no_char, crate::proofs::Unicode::utf8_ascii))]
pub fn is_utf8(s: &[u8]) -> bool
    ensures { result ≡ utf8 s.now }
{
    let mut rest = &s[ascii_len(s)..];
    while let Some((&b, tail)) = rest.split_first() {
        if b < 0x80 {
            rest = tail;
        } else {
            let n = char_len(rest);
            if n == 0 {
                return false;
            }
            rest = &rest[n..];
        }
    }
    true
}
