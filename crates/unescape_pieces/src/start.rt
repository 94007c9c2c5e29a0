// What a text begins with, by how it is read.
ghost use Rattle.std.specs.Prelude.{◌≡◌};
ghost use Rattle.text.specs.Bytes.{part};
ghost use Rattle.unescape_pieces.specs.declared.start.Start.TheVariants.{Plain};
ghost use Rattle.unescape_pieces.specs.Pieces.{entry_start, block_start, start_of, Lies};

use crate::pieces::{Spot, len_before};
use text::Part;

// How a text is read: as it stands, as a key or a value, or as a multiline value.
#[derive(Clone, Copy)]
pub enum Style {
    AsIs,
    Entry,
    Block,
}

// What becomes of a text: a part of it is plain, or it is written piece by piece from a place on. A Cursor in place of
// the place would bring the lent bytes into the rule, which goes by bytes alone.
#[derive(Clone, Copy)]
pub enum Start {
    Plain(Part),
    Pieces(usize, Spot),
}

// The part from start to before end is plain.
fn plain(start: usize, end: usize) -> Start
    ensures { result ≡ Plain (part start end) }
{
    Start::Plain(Part { start, end })
}

// A key or a value: plain without quotes, or with quotes at both ends and nothing between that has to be unescaped.
#[tactic(auto, unfolding(crate::specs::Pieces::entry_start))]
fn entry_start(s: &[u8]) -> Start
    ensures value { result ≡ entry_start s.now }
    ensures within { Lies result s.now }
{
    let Some((&b, rest)) = s.split_first() else {
        return plain(0, 0);
    };
    if b != b'"' {
        return plain(0, s.len());
    }
    let end = 1 + len_before(b'\\', rest);
    if end + 1 != s.len() {
        return Start::Pieces(1, Spot::Quotes);
    }
    if s[end] == b'"' {
        plain(1, end)
    } else {
        Start::Pieces(1, Spot::Quotes)
    }
}

// A multiline value: plain without CR or LF.
#[tactic(auto, unfolding(crate::specs::Pieces::block_start))]
fn block_start(s: &[u8]) -> Start
    ensures value { result ≡ block_start s.now }
    ensures within { Lies result s.now }
{
    if text::line_end(s) == s.len() {
        plain(0, s.len())
    } else {
        Start::Pieces(0, Spot::FirstLine)
    }
}

// What becomes of a text, by how it is read.
#[tactic(auto, unfolding(crate::specs::Pieces::start_of))]
pub fn start_of(style: Style, s: &[u8]) -> Start
    ensures value { result ≡ start_of style s.now }
    ensures within { Lies result s.now }
{
    match style {
        Style::AsIs => plain(0, s.len()),
        Style::Entry => entry_start(s),
        Style::Block => block_start(s),
    }
}
