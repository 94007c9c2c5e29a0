// Unescaping a token of a document.
ghost use Rattle.std.specs.Prelude.{◌≡◌, ◌+◌, ◌-◌, ◌≤◌, length};
ghost use Rattle.text.specs.Numbers.{max_document};
ghost use Rattle.text.specs.Bytes.{shifted_by};
ghost use Rattle.unescape_pieces.specs.Meaning.{meaning};
ghost use Rattle.unescape_pieces.specs.Pieces.{start_of};
ghost use Rattle.unescape_pieces.specs.Cursor.{Shows, meaning_of};
ghost use Rattle.unescape.specs.Unescape.{delivered, unescape_of, plain_of};
ghost use Rattle.unescape.specs.Walk.{plain_by, faulty};

use crate::answer::{Answer, Error};
use crate::walk::{measure, write};
use text::{Part, Refusal, SyntaxError};
use tokenizer::Token;
use unescape_pieces::{Cursor, Fault, Start, Style, start_of};
use unescape_source::source_in;

// A part of a text that starts at `from`, as a part of the document. A public one, which unescape_pieces' `placed`
// could call too, would ask its callers for these bounds.
fn shifted(p: Part, from: usize) -> Part
    requires start { p.start ≤ 18446744073709551615 - from }
    requires end { p.end ≤ 18446744073709551615 - from }
    ensures { result ≡ shifted_by from p }
{
    Part {
        start: from + p.start,
        end: from + p.end,
    }
}

// The refusal of a text that starts at `from` and means nothing.
fn refused(fault: Fault, from: usize, line: usize) -> Error
    requires { Shows (18446744073709551615 - from) fault }
    ensures { result ≡ faulty fault from line }
{
    let error = SyntaxError {
        refusal: Refusal::from(fault),
        line,
    };
    match fault {
        Fault::InvalidEscape(p) => Error {
            error,
            shown: shifted(p, from),
        },
        _ => Error::from(error),
    }
}

// The pieces of a text that starts at `from`, from a cursor on. They are measured before they are written, so that a
// refusal leaves the buffer alone. `deliver` is in line in two places, so this stays a call, out of the compiled way of
// a plain text, which most are.
fn rewrite(cursor: Cursor, from: usize, line: usize, out: &mut [u8]) -> Result<Answer, Error>
    requires { from + length cursor.text.now ≤ max_document }
    ensures value { result ≡ (delivered (meaning_of cursor.entry) from line out.old).answer }
    ensures out_after { out.new ≡ (delivered (meaning_of cursor.entry) from line out.old).buffer }
{
    // By `map_err` a closure would have to repeat the bound that `refused` asks.
    let n = match measure(cursor) {
        Ok(n) => n,
        Err(fault) => return Err(refused(fault, from, line)),
    };
    if out.len() < n {
        return Err(Error::from(SyntaxError {
            refusal: Refusal::ShortBuffer,
            line,
        }));
    }
    write(cursor, out);
    Ok(Answer::Written(n))
}

// A text that starts at `from`, as it is read. In line in both callers: a call would cost a plain text a quarter more.
#[inline(always)]
#[tactic(auto, unfolding(crate::specs::Unescape::delivered), using(unescape_pieces::proofs::Starts::begun_law))]
pub(crate) fn deliver(
    style: Style,
    text: &[u8],
    indent: &[u8],
    from: usize,
    line: usize,
    out: &mut [u8],
) -> Result<Answer, Error>
    requires { from + length text.now ≤ max_document }
    ensures value { result ≡ (delivered (meaning style text.now indent.now) from line out.old).answer }
    ensures out_after { out.new ≡ (delivered (meaning style text.now indent.now) from line out.old).buffer }
{
    match start_of(style, text) {
        Start::Plain(p) => Ok(Answer::Plain(shifted(p, from))),
        Start::Pieces(at, spot) => {
            let cursor = Cursor {
                text,
                indent,
                at,
                spot,
            };
            rewrite(cursor, from, line, out)
        }
    }
}

// The token's text: 12 over the document's limit, 13 where a part of it is none of the document's, or not UTF-8; then
// 8 to 11, then 14. The buffer keeps every byte but those of a text that is written.
#[tactic(auto, unfolding(crate::specs::Unescape::unescape_of))]
pub fn unescape(t: Token, doc: &[u8], out: &mut [u8]) -> Result<Answer, Error>
    ensures value { result ≡ (unescape_of doc.now t out.old).answer }
    ensures out_after { out.new ≡ (unescape_of doc.now t out.old).buffer }
{
    let w = source_in(t, doc)?;
    deliver(
        w.style,
        &doc[w.text.start..w.text.end],
        &doc[w.indent.start..w.indent.end],
        w.text.start,
        t.line_number(),
        out,
    )
}

// The part of a text that is plain, else the empty one.
fn plain_part<'a>(style: Style, s: &'a [u8]) -> &'a [u8]
    ensures { result.now ≡ plain_by (start_of style s.now) s.now }
{
    match start_of(style, s) {
        Start::Plain(p) => &s[p.start..p.end],
        Start::Pieces(_, _) => &s[..0],
    }
}

// The part of the document that unescaping answers for a token that is not rewritten, else an empty one.
#[tactic(auto, unfolding(crate::specs::Unescape::plain_of, crate::specs::Unescape::unescape_of))]
pub fn plain<'a>(t: Token, doc: &'a [u8]) -> &'a [u8]
    ensures { result.now ≡ plain_of doc.now t }
{
    let Ok(w) = source_in(t, doc) else {
        return &doc[..0];
    };
    plain_part(w.style, &doc[w.text.start..w.text.end])
}
