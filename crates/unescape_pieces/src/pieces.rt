// One piece of an unescaped text at a time, given what stands at a place of the text and the bytes from there on.
ghost use Rattle.std.specs.Prelude.{◌≡◌, ◌≤◌, length};
ghost use Rattle.std.specs.List.{prefix_len};
ghost use Rattle.unescape_pieces.specs.Meaning.{scalar_in};
ghost use Rattle.unescape_pieces.specs.Pieces.{
  is_before,
  invalid,
  brace_next,
  escape_next,
  quoted_next,
  opened_by,
  line_next,
  break_next,
  next_of,
};

use crate::fault::Fault;
use text::Part;
use unescape_codes::{code_of, simple_of};

// The braces of a code.
const OPENING: u8 = b'{';

const CLOSING: u8 = b'}';

// What stands at a place: characters in quotes, a multiline value's first line, a later one, or the break after one.
#[derive(Clone, Copy)]
pub enum Spot {
    Quotes,
    FirstLine,
    LaterLine,
    Break,
}

// A piece: the bytes passed but for so many in front, or a scalar value.
#[derive(Clone, Copy)]
pub enum Piece {
    Run(usize),
    Scalar(u32),
}

// A piece, how many bytes of the text are passed with it, and what stands after them.
#[derive(Clone, Copy)]
pub struct Next {
    pub piece: Piece,
    pub pass: usize,
    pub spot: Spot,
}

// How many bytes stand before the first `"` or `stop`.
pub(crate) fn len_before(stop: u8, s: &[u8]) -> usize
    ensures value { result ≡ prefix_len (is_before stop) s.now }
    ensures within { result ≤ length s.now }
{
    s.iter()
        .take_while(|b| !(**b == b'"' || **b == stop))
        .count()
}

// An invalid escape, of which so many bytes are shown.
fn invalid(shown: usize) -> Result<Option<Next>, Fault>
    ensures { result ≡ invalid shown }
{
    Err(Fault::InvalidEscape(Part {
        start: 0,
        end: shown,
    }))
}

// The number that the bytes of a brace name, where it is a scalar value.
fn scalar_in(h: &[u8]) -> Option<u32>
    ensures { result ≡ scalar_in h.now }
{
    code_of(h).filter(|code| utf8::is_scalar(*code))
}

// An escape whose backslash and `{` stand before s.
#[tactic(auto, unfolding(crate::specs::Pieces::brace_next))]
fn brace_next(s: &[u8]) -> Result<Option<Next>, Fault>
    ensures { result ≡ brace_next s.now }
{
    let n = len_before(CLOSING, s);
    if s.get(n) != Some(&CLOSING) {
        return invalid(n + 2);
    }
    let Some(code) = scalar_in(&s[..n]) else {
        return invalid(n + 3);
    };
    Ok(Some(Next {
        piece: Piece::Scalar(code),
        pass: n + 3,
        spot: Spot::Quotes,
    }))
}

// An escape whose backslash stands before s.
#[tactic(auto, unfolding(crate::specs::Pieces::escape_next))]
fn escape_next(s: &[u8]) -> Result<Option<Next>, Fault>
    ensures { result ≡ escape_next s.now }
{
    let Some((&b, rest)) = s.split_first() else {
        return Err(Fault::EscapeAtEnd);
    };
    if b == OPENING {
        return brace_next(rest);
    }
    let Some(code) = simple_of(b) else {
        return invalid(1 + utf8::char_len(s));
    };
    Ok(Some(Next {
        piece: Piece::Scalar(u32::from(code)),
        pass: 2,
        spot: Spot::Quotes,
    }))
}

// The characters in quotes, the opening one passed.
#[tactic(auto, unfolding(crate::specs::Pieces::quoted_next, crate::specs::Meaning::is_empty))]
fn quoted_next(s: &[u8]) -> Result<Option<Next>, Fault>
    ensures { result ≡ quoted_next s.now }
{
    let Some((&b, rest)) = s.split_first() else {
        return Err(Fault::UnclosedQuotes);
    };
    if b == b'\\' {
        return escape_next(rest);
    }
    if b != b'"' {
        return Ok(Some(Next {
            piece: Piece::Run(0),
            pass: len_before(b'\\', s),
            spot: Spot::Quotes,
        }));
    }
    if rest.is_empty() {
        Ok(None)
    } else {
        Err(Fault::ExtraCharacters)
    }
}

// A line of a multiline value: without the indentation where it begins with it, else as it stands, or none of it.
#[tactic(auto, unfolding(crate::specs::Pieces::line_next))]
fn line_next(later: bool, indent: &[u8], s: &[u8]) -> Next
    ensures { result ≡ line_next later indent.now s.now }
{
    let pass = text::line_end(s);
    let other = if later { pass } else { 0 };
    let skip = if text::starts_with(&s[..pass], indent) {
        indent.len()
    } else {
        other
    };
    Next {
        piece: Piece::Run(skip),
        pass,
        spot: Spot::Break,
    }
}

// The size of the break that s begins with, where it opens a line: a final LF, or CR LF, opens none, a final CR an
// empty one.
#[tactic(auto, unfolding(crate::specs::Pieces::opened_by))]
fn opening(s: &[u8]) -> Option<usize>
    ensures { result ≡ opened_by s.now }
{
    match text::newline_size(s) {
        0 => None,
        n if n < s.len() => Some(n),
        1 if s.first() == Some(&b'\r') => Some(1),
        _ => None,
    }
}

// The LF before a later line, or the end of the lines.
#[tactic(auto, unfolding(crate::specs::Pieces::break_next))]
fn break_next(s: &[u8]) -> Option<Next>
    ensures { result ≡ break_next s.now }
{
    let pass = opening(s)?;
    Some(Next {
        piece: Piece::Scalar(u32::from(b'\n')),
        pass,
        spot: Spot::LaterLine,
    })
}

// The next piece, s being the text from its place on; None at its end. A fault's part is counted from that place.
#[tactic(auto, unfolding(crate::specs::Pieces::next_of))]
pub fn next_piece(spot: Spot, indent: &[u8], s: &[u8]) -> Result<Option<Next>, Fault>
    ensures { result ≡ next_of spot indent.now s.now }
{
    match spot {
        Spot::Quotes => quoted_next(s),
        Spot::FirstLine => Ok(Some(line_next(false, indent, s))),
        Spot::LaterLine => Ok(Some(line_next(true, indent, s))),
        Spot::Break => Ok(break_next(s)),
    }
}
