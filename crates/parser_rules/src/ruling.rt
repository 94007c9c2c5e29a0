// What the parser makes of one answer of the tokenizer: the ruling knows neither the document nor the record of
// sections. It is judged by numbers; here the judgement becomes the ruling.
ghost use Rattle.std.specs.Prelude.{◌≡◌};
ghost use Rattle.tokenizer.specs.declared.token.Token.TheVariants.{Outdent};
ghost use Rattle.parser_rules.specs.declared.ruling.Awaited.TheVariants.{Nothing};
ghost use Rattle.parser_rules.specs.declared.ruling.Change.TheVariants.{Close};
ghost use Rattle.parser_rules.specs.Ruling.{gives, refuses, no_value, ruling_of};
ghost use Rattle.parser_rules.specs.Judging.{sort_number, opened_line, made_by};

use crate::judging::{Judged, judge};
use crate::sort;
use text::{Refusal, SyntaxError};
use tokenizer::{Answer, Said, Token};

// The sort of a section: whether it holds keys or items.
#[derive(Clone, Copy)]
pub enum Sort {
    Map,
    List,
}

// What must or may come next, with the line of the key or item that asks for it: the Rust's needs_value and
// multiline_hint. Two arms have a line, so that no Option would be plainer.
#[derive(Clone, Copy)]
pub enum Awaited {
    Nothing,
    Value(usize),
    Multiline(usize),
}

// What came and was kept for the next call, behind a NoValue: the Rust's peek. In an Option of an Option, which this is
// in the Rust, nothing would say which of the two is End.
#[derive(Clone, Copy)]
pub enum Kept {
    Nothing,
    End,
    Token(Token),
}

// An open section: its sort, which its first key or item fixes, and the line of the key or item that opened it. The
// top level has line 0.
#[derive(Clone, Copy)]
pub struct Section {
    pub sort: Option<Sort>,
    pub line: usize,
}

// What becomes of the record of sections: nothing, the innermost one's sort is fixed, one opens for the key or item of
// that line, the innermost closes.
#[derive(Clone, Copy)]
pub enum Change {
    Keep,
    Fix(Sort),
    Open(usize),
    Close,
}

// What is said, and what it leaves.
#[derive(Clone, Copy)]
pub struct Verdict {
    pub answer: Result<Token, SyntaxError>,
    pub awaited: Awaited,
    pub change: Change,
    pub kept: Kept,
}

// End and an unfit state, 15, change nothing: they leave no verdict. As a Result of an Option this would need an error
// type of one value.
#[derive(Clone, Copy)]
pub enum Ruling {
    Says(Verdict),
    End,
    Unfit,
}

// The token is given on.
fn gives(t: Token, awaited: Awaited, change: Change) -> Ruling
    ensures { result ≡ gives t awaited change }
{
    Ruling::Says(Verdict {
        answer: Ok(t),
        awaited,
        change,
        kept: Kept::Nothing,
    })
}

// An Outdent is given on, with the line of the key or item that opened the section.
fn close(line: usize, opened: usize) -> Ruling
    ensures { result ≡ gives (Outdent line opened) Nothing Close }
{
    gives(
        Token::Outdent(line, opened),
        Awaited::Nothing,
        Change::Close,
    )
}

// A refusal: later calls give End.
fn refuse(refusal: Refusal, line: usize, awaited: Awaited) -> Ruling
    ensures { result ≡ refuses refusal line awaited }
{
    Ruling::Says(Verdict {
        answer: Err(SyntaxError { refusal, line }),
        awaited,
        change: Change::Keep,
        kept: Kept::Nothing,
    })
}

// NoValue; what came is kept.
fn no_value(line: usize, kept: Kept) -> Ruling
    ensures { result ≡ no_value line kept }
{
    Ruling::Says(Verdict {
        answer: Ok(Token::NoValue(line)),
        awaited: Awaited::Nothing,
        change: Change::Keep,
        kept,
    })
}

fn sort_number(innermost: Option<Section>) -> usize
    ensures { result ≡ sort_number innermost }
{
    innermost.map_or(sort::MISSING, |section| section.sort_number())
}

fn opened_line(innermost: Option<Section>) -> usize
    ensures { result ≡ opened_line innermost }
{
    innermost.map_or(0, |section| section.line)
}

// The ruling on a token, and on what would be kept of it; opened is the innermost section's line.
#[tactic(auto, unfolding(crate::specs::Judging::made_by))]
fn made(v: Judged, awaited: Awaited, opened: usize, t: Token, kept: Kept) -> Ruling
    ensures { result ≡ made_by v awaited opened t kept }
{
    let line = t.line_number();
    let entry = awaited.line();
    match v {
        Judged::GivesOn => gives(t, awaited, Change::Keep),
        Judged::NoValue => no_value(entry, kept),
        Judged::Opens => gives(t, Awaited::Nothing, Change::Open(entry)),
        Judged::Closes => close(line, opened),
        Judged::Map => gives(t, Awaited::Value(line), Change::Fix(Sort::Map)),
        Judged::List => gives(t, Awaited::Value(line), Change::Fix(Sort::List)),
        Judged::Hint => gives(t, Awaited::Multiline(entry), Change::Keep),
        Judged::Value => gives(t, Awaited::Nothing, Change::Keep),
        Judged::Passes => Ruling::End,
        Judged::Refuses(n) => refuse(n, line, Awaited::Nothing),
        Judged::RefusesEntry => refuse(Refusal::MissingMultiline, entry, Awaited::Nothing),
        Judged::End => Ruling::End,
        Judged::Unfit => Ruling::Unfit,
    }
}

// What is made of an answer of the tokenizer: full says that the record has no room for one more section.
pub fn rule(awaited: Awaited, innermost: Option<Section>, full: bool, came: Answer) -> Ruling
    ensures { result ≡ ruling_of awaited innermost full came }
{
    let a = awaited.number();
    let s = sort_number(innermost);
    let opened = opened_line(innermost);
    let Some(answer) = came else {
        let v = judge(Said::END, a, s, full);
        return made(v, awaited, opened, Token::NoValue(0), Kept::End);
    };
    match answer {
        Ok(t) => {
            let v = judge(Said::from(t).number, a, s, full);
            made(v, awaited, opened, t, Kept::Token(t))
        }
        Err(e) => refuse(e.refusal, e.line, awaited),
    }
}
