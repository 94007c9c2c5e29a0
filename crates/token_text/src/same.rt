// A token's text compared with wanted bytes, piece by piece.
ghost use Rattle.std.specs.Prelude.{◌≡◌};
ghost use Rattle.unescape_pieces.specs.Meaning.{meaning};
ghost use Rattle.unescape_pieces.specs.Cursor.{meaning_of};
ghost use Rattle.token_text.specs.Text.{is_text, text_by, text_in};
ghost use Rattle.token_text.specs.Written.{is_written};

use tokenizer::{Token, part_fits};
use unescape_pieces::{Cursor, Start, Style, start_of};
use unescape_source::{source_in, source_of};

// Whether what is written from a cursor on is the wanted bytes. The first piece that differs decides.
fn is_written(cursor: Cursor, wanted: &[u8]) -> bool
    ensures { result ≡ is_written (meaning_of cursor.entry) wanted.now }
{
    let mut left = wanted;
    for piece in cursor {
        let Ok(found) = piece else {
            return false;
        };
        let bytes = found.as_slice();
        if !text::starts_with(left, bytes) {
            return false;
        }
        left = &left[bytes.len()..];
    }
    left.is_empty()
}

// Whether a text, as it is read, comes to the wanted bytes.
#[tactic(auto, using(unescape_pieces::proofs::Starts::begun_law))]
fn is_meant(style: Style, text: &[u8], indent: &[u8], wanted: &[u8]) -> bool
    ensures { result ≡ is_text (text_by (meaning style text.now indent.now) 0 text.now) wanted.now }
{
    match start_of(style, text) {
        Start::Plain(p) => text::is_same(&text[p.start..p.end], wanted),
        Start::Pieces(at, spot) => {
            let cursor = Cursor {
                text,
                indent,
                at,
                spot,
            };
            is_written(cursor, wanted)
        }
    }
}

// Whether a token's text comes to the wanted bytes; one that is refused comes to none. Most texts differ, and then
// nothing else is asked of them: what 12 and 13 ask is tested last.
pub fn is_text(t: Token, doc: &[u8], wanted: &[u8]) -> bool
    ensures { result ≡ is_text (text_in doc.now t) wanted.now }
{
    let w = source_of(t);
    if !(part_fits(w.text, doc.len()) & part_fits(w.indent, doc.len())) {
        return false;
    }
    let text = &doc[w.text.start..w.text.end];
    let indent = &doc[w.indent.start..w.indent.end];
    if !is_meant(w.style, text, indent, wanted) {
        return false;
    }
    source_in(t, doc).is_ok()
}
