// Each stored answer against the library's.
use crate::lines::{Numbers, text_in};
use crate::look_ups::look_up_agrees;
use crate::readers::{next_agrees, reader_agrees};
use crate::readings::{parsing_agrees, tokens_agree};
use crate::texts::{multiline_agrees, name_agrees, trimming_agrees, utf8_agrees, value_agrees};
use std::fmt;
use text::Dropped;

// What a line's answer is of.
#[derive(Clone, Copy)]
pub enum Kind {
    Utf8,
    Trimming,
    Name,
    Tokens,
    Parsing,
    Unescaping,
    LookUp,
}

impl Kind {
    pub const ALL: [Kind; 7] = [
        Kind::Utf8,
        Kind::Trimming,
        Kind::Name,
        Kind::Tokens,
        Kind::Parsing,
        Kind::Unescaping,
        Kind::LookUp,
    ];
}

impl fmt::Display for Kind {
    fn fmt<W: fmt::Write>(&self, f: &mut fmt::Formatter<W>) -> fmt::Result {
        f.write_str(match self {
            Kind::Utf8 => "UTF-8",
            Kind::Trimming => "trimming",
            Kind::Name => "names",
            Kind::Tokens => "tokens, in a batch and by the reader",
            Kind::Parsing => "parsing, in a batch and by next over a lent state",
            Kind::Unescaping => "unescaping, and plain parts",
            Kind::LookUp => "look-ups, and entries",
        })
    }
}

// How many lines of each kind were checked, how many can't be read, how many of all these differ, and the first of
// them.
#[derive(Clone, Copy)]
pub struct Tally {
    counts: [usize; 7],
    pub unreadable: usize,
    pub differences: usize,
    pub first: Option<usize>,
}

// One more, up to a million.
fn up(n: usize) -> usize {
    n.saturating_add(1).min(1_000_000)
}

impl Tally {
    pub fn of(&self, kind: Kind) -> usize {
        self.counts[kind as usize]
    }

    // One line more, by its number: its kind, and whether it agrees; a line that can't be read doesn't.
    fn count(&mut self, line: usize, checked: Option<(Kind, bool)>) {
        match checked {
            Some((kind, _)) => {
                let n = &mut self.counts[kind as usize];
                *n = up(*n);
            }
            None => self.unreadable = up(self.unreadable),
        }
        if !checked.is_some_and(|c| c.1) {
            self.differences = up(self.differences);
            self.first = self.first.or(Some(line));
        }
    }
}

// The kind of a line, and whether it agrees; none where it can't be read.
fn check_line(line: &[u8]) -> Option<(Kind, bool)> {
    let (&[tag, _, _], behind) = line.split_first_chunk::<3>()?;
    let len = behind.iter().take_while(|b| **b != b' ').count();
    let (hex, rest) = behind.split_at_checked(len)?;
    let mut room = [0u8; 256];
    let s = text_in(hex, &mut room)?;
    let numbers = Numbers { line, rest };
    Some(match tag {
        b'u' => (Kind::Utf8, utf8_agrees(s, numbers)),
        b'b' => (Kind::Trimming, trimming_agrees(s, numbers, Dropped::Blanks)),
        b's' => (
            Kind::Trimming,
            trimming_agrees(s, numbers, Dropped::BlanksAndBreaks),
        ),
        b'n' => (Kind::Name, name_agrees(s, numbers)),
        b't' => (
            Kind::Tokens,
            tokens_agree(s, numbers) && reader_agrees(s, numbers),
        ),
        b'p' => (
            Kind::Parsing,
            parsing_agrees(s, numbers) && next_agrees(s, numbers),
        ),
        b'v' => (Kind::Unescaping, value_agrees(s, numbers)),
        b'm' => (Kind::Unescaping, multiline_agrees(s, numbers)),
        b'e' => (Kind::LookUp, look_up_agrees(s, numbers)),
        _ => return None,
    })
}

pub fn all(s: &[u8]) -> Tally {
    let mut tally = Tally {
        counts: [0; 7],
        unreadable: 0,
        differences: 0,
        first: None,
    };
    for (i, line) in s.split_inclusive(|b| text::is_newline(*b)).enumerate() {
        let text = line.get(..text::line_end(line));
        tally.count(up(i), text.and_then(|text| check_line(text)));
    }
    tally
}
