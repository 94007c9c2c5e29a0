// UTF-8, trimming, names and unescaping.
use crate::lines::{Numbers, named_part};
use text::{Dropped, Part};
use tokenizer::Token;
use tokenizer_rows::{token_in, token_row};

// One number: 1 where the text is UTF-8.
pub fn utf8_agrees(s: &[u8], mut numbers: Numbers<'_>) -> bool {
    let said = numbers.next() == 1;
    numbers.rest.is_empty() && said == utf8::is_utf8(s)
}

pub fn trimming_agrees(s: &[u8], numbers: Numbers<'_>, which: Dropped) -> bool {
    let p = text::trim(which, s);
    numbers.are_all(&[p.start, p.end])
}

// The text is the name of a token whose kind is the number. A name has zeros behind it.
pub fn name_agrees(s: &[u8], mut numbers: Numbers<'_>) -> bool {
    let kind = numbers.next();
    let name = token_in(&[kind, 1, 0, 0, 0, 0]).name();
    let bytes = name.bytes;
    let Some((front, behind)) = bytes.split_at_checked(name.len) else {
        return false;
    };
    numbers.rest.is_empty() && front == s && behind.iter().all(|b| *b == 0)
}

// Whether the numbers are the answer for the token and, where its text is written, the bytes of this, which is no
// longer than the token's.
fn unescaping_agrees(s: &[u8], mut numbers: Numbers<'_>, t: Token) -> bool {
    let mut out = [0u8; 256];
    let mut answer = [0usize; 5];
    if !answer_words::unescape(s, &token_row(t), &mut out, &mut answer) {
        return false;
    }
    let plain = named_part(s, answer, answer_words::PLAIN);
    let written = named_part(&out, answer, answer_words::WRITTEN);
    numbers.are(&answer)
        && written.is_some_and(|bytes| numbers.are_all(bytes))
        && plain == Some(unescape::plain(t, s))
}

// The text is a value on line 1.
pub fn value_agrees(s: &[u8], numbers: Numbers<'_>) -> bool {
    let whole = Part {
        start: 0,
        end: s.len(),
    };
    unescaping_agrees(s, numbers, Token::Value(1, whole))
}

// The text is a multiline value on line 1 behind its indentation, whose length is the first number.
pub fn multiline_agrees(s: &[u8], mut numbers: Numbers<'_>) -> bool {
    let len = numbers.next();
    let indent = Part { start: 0, end: len };
    let text = Part {
        start: len,
        end: s.len(),
    };
    unescaping_agrees(s, numbers, Token::MultilineValue(1, indent, text))
}
