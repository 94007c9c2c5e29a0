ghost use Rattle.std.specs.Prelude.{◌≡◌, ◌≤◌, length};
ghost use Rattle.text.specs.Bytes.{is_blank, is_break, break_size, line_end, starts_with, is_same};

use line_scans::line_sixteens;

// A part of a text: its bytes from start to before end.
#[derive(Clone, Copy, Debug, PartialEq, Eq)]
pub struct Part {
    pub start: usize,
    pub end: usize,
}

impl Part {
    // The empty part at 0: what has no text of its own.
    pub const EMPTY: Part = Part { start: 0, end: 0 };
}

// Whether b is a blank: a space or a tab.
#[tactic(auto, unfolding(crate::specs::Bytes::is_blank))]
pub fn is_whitespace(b: u8) -> bool
    ensures { result ≡ is_blank b }
{
    b == b' ' || b == b'\t'
}

// Whether b is CR or LF.
#[tactic(auto, unfolding(crate::specs::Bytes::is_break))]
pub fn is_newline(b: u8) -> bool
    ensures { result ≡ is_break b }
{
    b == b'\r' || b == b'\n'
}

// The size of the line break that s begins with, 2 for CR LF; 0 where it begins with none: a length, as the rule has
// it. Where it moves the place, an Option would be undone.
#[tactic(auto, using(crate::proofs::Front::unbroken, crate::proofs::Front::bare, crate::proofs::Front::broken))]
pub fn newline_size(s: &[u8]) -> usize
    ensures { result ≡ break_size s.now }
{
    let Some(&b) = s.first() else {
        return 0;
    };
    if !is_newline(b) {
        return 0;
    }
    if s.starts_with(b"\r\n") { 2 } else { 1 }
}

// What line_end answers, byte by byte.
fn before_newline(s: &[u8]) -> usize
    ensures value { result ≡ line_end s.now }
    ensures within { result ≤ length s.now }
{
    s.iter().take_while(|b| !is_newline(**b)).count()
}

// How many bytes stand before the first CR or LF.
#[tactic(auto, using(crate::proofs::Skipped::line, crate::proofs::Front::from))]
pub fn line_end(s: &[u8]) -> usize
    ensures { result ≡ line_end s.now }
{
    let whole = line_sixteens(s);
    whole + before_newline(&s[whole..])
}

// Whether s begins with the bytes of p.
#[tactic(auto, unfolding(crate::specs::Bytes::starts_with))]
pub fn starts_with(s: &[u8], p: &[u8]) -> bool
    ensures { result ≡ starts_with p.now s.now }
{
    s.starts_with(p)
}

// Whether two texts have the same bytes.
#[tactic(auto, unfolding(crate::specs::Bytes::is_same))]
pub fn is_same(a: &[u8], b: &[u8]) -> bool
    ensures { result ≡ is_same a.now b.now }
{
    a == b
}
