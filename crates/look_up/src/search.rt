// The look-up: one pass over the parser's answers, a row each, its state in words of its own.
ghost use Rattle.std.specs.Prelude.{◌≡◌, Ok};
ghost use Rattle.look_up.specs.Entries.{look_up, entry_of};
ghost use Rattle.look_up.specs.Search.{HasRoom, found_at, on_key, on_token, on_row};

use batches::next;
use parser_words::fresh_parser;
use std::ops::ControlFlow;
use text::{Part, SyntaxError};
use token_text::is_text;
use tokenizer::{Token, within_limit};
use tokenizer_rows::said_in;

// What the look-up finds: the key's line, and the entry's part of the document.
#[derive(Clone, Copy)]
pub struct Found {
    pub line: usize,
    pub part: Part,
}

// What is found, if anything, or why the document is refused.
pub type Outcome = Result<Option<Found>, SyntaxError>;

// The key that was wanted, once it is met: its line and its first byte's place.
#[derive(Clone, Copy)]
pub(crate) struct Hit {
    pub(crate) line: usize,
    pub(crate) start: usize,
}

impl Hit {
    // Its entry, where that ends at `end`.
    fn up_to(self, end: usize) -> Found
        ensures { result ≡ found_at self end }
    {
        Found {
            line: self.line,
            part: Part {
                start: self.start,
                end,
            },
        }
    }
}

// Where the look-up stands: how many Indents and Outdents came, and the hit.
#[derive(Clone, Copy)]
pub(crate) struct Search {
    pub(crate) indents: usize,
    pub(crate) outdents: usize,
    pub(crate) hit: Option<Hit>,
}

// An answer ends the look-up, or it goes on.
type Turn = ControlFlow<Outcome, Search>;

impl Search {
    // A top-level key ends the entry that was hit, else it may be the one that is wanted.
    #[tactic(auto, unfolding(crate::specs::Search::on_key, crate::specs::Search::on_top_key))]
    fn on_key(self, line: usize, text: Part, doc: &[u8], wanted: &[u8]) -> Turn
        ensures { result ≡ on_key doc.now wanted.now self line text }
    {
        if self.indents != self.outdents {
            return ControlFlow::Continue(self);
        }
        let start = text.start;
        if let Some(hit) = self.hit {
            return ControlFlow::Break(Ok(Some(hit.up_to(start))));
        }
        if is_text(Token::MapKey(line, text), doc, wanted) {
            return ControlFlow::Continue(Search {
                hit: Some(Hit { line, start }),
                ..self
            });
        }
        ControlFlow::Continue(self)
    }

    // Indents and Outdents are counted, keys are compared.
    #[tactic(auto, unfolding(crate::specs::Search::on_token))]
    fn on_token(self, t: Token, doc: &[u8], wanted: &[u8]) -> Turn
        requires { HasRoom self }
        ensures { result ≡ on_token doc.now wanted.now self t }
    {
        match t {
            Token::Indent(_) => ControlFlow::Continue(Search {
                indents: self.indents + 1,
                ..self
            }),
            Token::Outdent(_, _) => ControlFlow::Continue(Search {
                outdents: self.outdents + 1,
                ..self
            }),
            Token::MapKey(line, text) => self.on_key(line, text, doc, wanted),
            _ => ControlFlow::Continue(self),
        }
    }

    // The answer of a row: End and a refusal end the search.
    #[tactic(auto, unfolding(crate::specs::Search::on_answer))]
    fn on_row(self, row: &[usize; 7], doc: &[u8], wanted: &[u8]) -> Turn
        requires { HasRoom self }
        ensures { result ≡ on_row doc.now wanted.now self row.now }
    {
        match said_in(row).answer() {
            None => {
                let end = doc.len();
                ControlFlow::Break(Ok(self.hit.map(|hit| hit.up_to(end))))
            }
            Some(Ok(t)) => self.on_token(t, doc, wanted),
            Some(Err(e)) => ControlFlow::Break(Err(e)),
        }
    }
}

// The first top-level key whose text, unescaped, is `wanted`: its line, and the part from its first byte, which may be
// a quote, to the next top-level key's, or to the document's end. A key that unescaping refuses has no name, and is
// passed over. The parser's refusal, met before the entry's end, is the answer; 12 over the limit. A loop, since each
// step writes its row and the state into lent words: an iterator would have to hold both.
#[tactic(auto, using(crate::proofs::Searched::limit_over))]
pub fn look_up(doc: &[u8], wanted: &[u8]) -> Outcome
    ensures { result ≡ look_up doc.now wanted.now }
{
    within_limit(doc)?;
    let mut words = [0usize; 278];
    fresh_parser(&mut words);
    let mut row = [0usize; 7];
    let mut search = Search {
        indents: 0,
        outdents: 0,
        hit: None,
    };
    loop {
        next(doc, &mut words, &mut row);
        match search.on_row(&row, doc, wanted) {
            ControlFlow::Break(found) => return found,
            ControlFlow::Continue(s) => search = s,
        }
    }
}

// The part of the document that the look-up finds, else an empty one.
#[tactic(auto, using(crate::proofs::Parts::part_within, crate::proofs::Parts::part_found, crate::proofs::Parts::none_found), unfolding(crate::specs::Entries::entry_of))]
pub fn entry<'a>(doc: &'a [u8], wanted: &[u8]) -> &'a [u8]
    ensures { result.now ≡ entry_of doc.now wanted.now }
{
    let Ok(Some(found)) = look_up(doc, wanted) else {
        return &doc[..0];
    };
    let start = found.part.start;
    let end = found.part.end;
    &doc[start..end]
}
