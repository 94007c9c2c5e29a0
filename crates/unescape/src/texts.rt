// Unescaping given bytes: for a caller that has a text of its own and knows how it is read.
ghost use Rattle.std.specs.Prelude.{◌≡◌};
ghost use Rattle.unescape.specs.Texts.{style_of, unescape_text_of};

use crate::answer::{Answer, Error};
use crate::tokens::deliver;
use tokenizer::{kind, within_limit};
use unescape_pieces::Style;

// How the text of a token of a kind is read: a key or a value, a multiline value, and any other. The kind is a number,
// as a row from C has it.
#[tactic(auto, unfolding(crate::specs::Texts::style_of))]
pub fn style_of(kind: usize) -> Style
    ensures { result ≡ style_of kind }
{
    match kind {
        kind::MAP_KEY | kind::VALUE => Style::Entry,
        kind::MULTILINE_VALUE => Style::Block,
        _ => Style::AsIs,
    }
}

// The text, places counted from its start: 12 on line 0 where it or the indentation is over a document's limit; then
// 8 to 11, then 14, on the given line. The buffer keeps every byte but those of a text that is written. Nothing is
// tested for UTF-8: what is answered is UTF-8 where the text and the indentation are.
#[tactic(auto, unfolding(crate::specs::Texts::unescape_text_of))]
pub fn unescape_text(
    style: Style,
    text: &[u8],
    indent: &[u8],
    line: usize,
    out: &mut [u8],
) -> Result<Answer, Error>
    ensures value { result ≡ (unescape_text_of style text.now indent.now line out.old).answer }
    ensures out_after { out.new ≡ (unescape_text_of style text.now indent.now line out.old).buffer }
{
    within_limit(text)?;
    within_limit(indent)?;
    deliver(style, text, indent, 0, line, out)
}
