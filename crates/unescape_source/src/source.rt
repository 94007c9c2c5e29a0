// A token's text, how it is read, and whether it may be read.
ghost use Rattle.std.specs.Prelude.{◌≡◌, ◌≤◌, IsTrue, IfOk, length};
ghost use Rattle.tokenizer.specs.Step.{no_part};
ghost use Rattle.unescape_pieces.specs.declared.start.Style.TheVariants.{AsIs};
ghost use Rattle.unescape_source.specs.Source.{source_at as worded_as, source_of, sound, source_in, Lies};

use text::{Part, Refusal, SyntaxError};
use tokenizer::{Token, part_fits, within_limit};
use unescape_pieces::Style;

// A token's text and a multiline value's indentation. Where there is none, the empty part at 0, which is tested and
// read as any other.
#[derive(Clone, Copy)]
pub struct Source {
    pub style: Style,
    pub text: Part,
    pub indent: Part,
}

// A text with no indentation.
fn source_at(style: Style, text: Part) -> Source
    ensures { result ≡ worded_as style text }
{
    Source {
        style,
        text,
        indent: Part::EMPTY,
    }
}

// A token without a text.
fn no_source() -> Source
    ensures { result ≡ worded_as AsIs no_part }
{
    source_at(Style::AsIs, Part::EMPTY)
}

// The text of a token, and how it is read.
#[tactic(auto, unfolding(crate::specs::Source::source_of))]
pub fn source_of(t: Token) -> Source
    ensures { result ≡ source_of t }
{
    match t {
        Token::Comment(_, p) | Token::MultilineHint(_, p) => source_at(Style::AsIs, p),
        Token::MapKey(_, p) | Token::Value(_, p) => source_at(Style::Entry, p),
        Token::MultilineValue(_, indent, p) => Source {
            style: Style::Block,
            text: p,
            indent,
        },
        Token::Newline(_)
        | Token::Indent(_)
        | Token::Outdent(_, _)
        | Token::ListItem(_)
        | Token::NoValue(_) => no_source(),
    }
}

// Whether p is a part of the document, and UTF-8.
#[tactic(auto, unfolding(crate::specs::Source::sound))]
fn is_sound(doc: &[u8], p: Part) -> bool
    ensures value { result ≡ sound doc.now p }
    ensures within { IsTrue result → (p.start ≤ p.end) × (p.end ≤ length doc.now) }
{
    part_fits(p, doc.len()) && utf8::is_utf8(&doc[p.start..p.end])
}

// The source of a token: 12 over the document's limit, 13 where a part of it is none of the document's, or not UTF-8.
#[tactic(auto, unfolding(crate::specs::Source::source_in))]
pub fn source_in(t: Token, doc: &[u8]) -> Result<Source, SyntaxError>
    ensures value { result ≡ source_in doc.now t }
    ensures within { IfOk result (Lies (length doc.now)) }
{
    within_limit(doc)?;
    let w = source_of(t);
    if is_sound(doc, w.text) & is_sound(doc, w.indent) {
        return Ok(w);
    }
    Err(SyntaxError {
        refusal: Refusal::UnfitToken,
        line: t.line_number(),
    })
}
