// The scans of the token readers: each takes the rest of the document from somewhere on and answers a length in it.
ghost use Rattle.std.specs.Prelude.{◌≡◌, false};
ghost use Rattle.tokenizer_scans.specs.Scans.{
  relation_of,
  stops,
  plain_end,
  closing,
  quotes_end,
  text_end,
  checked_of,
  piece_len,
  belongs_to,
  is_lf,
  ends_in_cr,
  lines_of,
  begins_hint,
  eq_size,
};

use text::{Dropped, Part, is_newline};
use text_scans::same_len;

// How an indentation lies to the innermost open one: the same bytes, longer and beginning with it, or neither.
#[derive(Clone, Copy, Debug, PartialEq, Eq)]
pub enum Relation {
    Equal,
    Deeper,
    Other,
}

// A shorter indentation is none of the two without a byte of it being read.
#[tactic(auto, using(crate::proofs::Related::shorter, crate::proofs::Related::other, crate::proofs::Related::equal, crate::proofs::Related::deeper))]
pub fn relate(inner: &[u8], indent: &[u8]) -> Relation
    ensures { result ≡ relation_of inner.now indent.now }
{
    if indent.len() < inner.len() {
        return Relation::Other;
    }
    if same_len(inner, indent) < inner.len() {
        return Relation::Other;
    }
    if indent.len() == inner.len() {
        Relation::Equal
    } else {
        Relation::Deeper
    }
}

// Whether b ends a text outside quotes: CR, LF, `;`, and for a key `=`, which is `also`; a value's `also` is `;`.
#[tactic(auto, unfolding(crate::specs::Scans::stops))]
fn stops_text(b: u8, also: u8) -> bool
    ensures { result ≡ stops also b }
{
    is_newline(b) || b == b';' || b == also
}

// How many bytes stand before CR, LF, `;` or `also`.
#[tactic(auto, unfolding(crate::specs::Scans::plain_end))]
pub fn plain_len(s: &[u8], also: u8) -> usize
    ensures { result ≡ plain_end also s.now }
{
    s.iter().take_while(|b| !stops_text(**b, also)).count()
}

// How many bytes the quotes take that s begins with, the closing one included: up to CR, LF or the end where none
// closes them; 0 where s begins with no quote.
#[tactic(auto, using(crate::proofs::Quotes::read, crate::proofs::Quotes::quotes_first, crate::proofs::Quotes::closing_le))]
fn quotes_len(s: &[u8]) -> usize
    ensures { result ≡ quotes_end s.now }
{
    if s.first() == Some(&b'"') {
        1 + closing_len(&s[1..])
    } else {
        0
    }
}

// The same of what stands behind the opening quote.
#[tactic(auto, using(crate::proofs::Quotes::at_break, crate::proofs::Quotes::close, crate::proofs::Quotes::more, crate::proofs::Quotes::end))]
fn closing_len(s: &[u8]) -> usize
    ensures { result ≡ closing false s.now }
{
    let mut escaped = false;
    for (i, &b) in s.iter().enumerate() {
        if is_newline(b) {
            return i;
        }
        if b == b'"' && !escaped {
            return i + 1;
        }
        escaped = b == b'\\' && !escaped;
    }
    s.len()
}

// The length of a key's or a value's text, blanks at its end included.
#[tactic(auto, using(crate::proofs::Quotes::quotes_le, crate::proofs::Quotes::text_le, text::proofs::Front::from), unfolding(crate::specs::Scans::text_end))]
pub fn text_len(s: &[u8], also: u8) -> usize
    ensures { result ≡ text_end also s.now }
{
    let quotes = quotes_len(s);
    quotes + plain_len(&s[quotes..], also)
}

// The trimmed part of a text that was read, or nothing where it is not UTF-8.
#[tactic(auto, unfolding(crate::specs::Scans::checked_of))]
pub fn checked(which: Dropped, s: &[u8]) -> Option<Part>
    ensures { result ≡ checked_of which s.now }
{
    utf8::is_utf8(s).then(|| text::trim(which, s))
}

// Whether s begins with three quotes.
#[tactic(auto, unfolding(crate::specs::Scans::begins_hint))]
pub fn begins_hint(s: &[u8]) -> bool
    ensures { result ≡ begins_hint s.now }
{
    text::starts_with(s, b"\"\"\"")
}

// 1 where s begins with `=`, else 0: a length, which the caller adds to a place.
#[tactic(auto, using(crate::proofs::Quotes::read, crate::proofs::Quotes::eq_first))]
pub fn eq_size(s: &[u8]) -> usize
    ensures { result ≡ eq_size s.now }
{
    if s.first() == Some(&b'=') { 1 } else { 0 }
}

// The length of the first piece: through the first CR or LF, or all.
#[tactic(auto, using(crate::proofs::Pieces::piece_break, crate::proofs::Pieces::piece_all))]
fn piece_len(s: &[u8]) -> usize
    ensures { result ≡ piece_len s.now }
{
    let n = text::line_end(s);
    if n < s.len() { n + 1 } else { n }
}

// Whether a piece belongs to the multiline value of that indentation: it begins with it, or has only blanks and breaks.
#[tactic(auto, unfolding(crate::specs::Scans::belongs_to, crate::specs::Scans::is_void))]
fn belongs(indent: &[u8], piece: &[u8]) -> bool
    ensures { result ≡ belongs_to indent.now piece.now }
{
    text::starts_with(piece, indent)
        || text::leading(Dropped::BlanksAndBreaks, piece) == piece.len()
}

// The bytes of a multiline value, and the lines that they add.
#[derive(Clone, Copy)]
pub struct Lines {
    pub len: usize,
    pub count: usize,
}

#[tactic(auto, using(crate::proofs::Pieces::lone_lf))]
fn is_lf(piece: &[u8]) -> bool
    ensures { result ≡ is_lf piece.now }
{
    piece == b"\n".as_slice()
}

#[tactic(auto, using(crate::proofs::Quotes::read, crate::proofs::Pieces::cr_last))]
fn ends_in_cr(piece: &[u8]) -> bool
    ensures { result ≡ ends_in_cr false piece.now }
{
    piece.last() == Some(&b'\r')
}

// An index: a piece ends where `line_end` says, which looks at sixteen bytes at once; `split_inclusive` would ask a
// closure at each byte.
#[tactic(auto, using(crate::proofs::Pieces::none_passed, crate::proofs::Pieces::piece_in, crate::proofs::Pieces::piece_at, text::proofs::Front::from))]
pub fn multiline_len(indent: &[u8], s: &[u8]) -> Lines
    ensures { result ≡ lines_of indent.now s.now }
{
    let mut len = 0;
    let mut count = 0;
    let mut was_cr = false;
    while len < s.len() {
        let rest = &s[len..];
        let n = piece_len(rest);
        let piece = &rest[..n];
        if !belongs(indent, piece) {
            return Lines { len, count };
        }
        if !(was_cr && is_lf(piece)) {
            count += 1;
        }
        was_cr = ends_in_cr(piece);
        len += n;
    }
    Lines { len, count }
}
