// What a judgement of the parser's leaves, and its words.
ghost use Rattle.std.specs.Prelude.{◌≡◌, ◌≤◌, get_or};
ghost use Rattle.parser.specs.Step.{ChangeFits};
ghost use Rattle.step_words.specs.Stepping.{innermost_in, sort_at, opened_at};
ghost use Rattle.step_words.specs.Outcomes.{carrying, given, kept_by, outcome_by, outcome_in};

use parser_rules::{Change, Judged, Sort, awaited, sort};
use parser_words::{KEPT_END, middle_by};
use text::Refusal;
use tokenizer::{Said, kind};
use tokenizer_words::paste;

// The answer, what is awaited with its line, what is kept, and what becomes of the sections.
#[derive(Clone, Copy)]
pub(crate) struct Outcome {
    pub(crate) answer: Said,
    pub(crate) awaited: usize,
    pub(crate) line: usize,
    pub(crate) kept: Said,
    pub(crate) change: Change,
}

// What is said, with the line that it carries.
fn carry(opened: usize, s: Said) -> Said
    ensures { result ≡ carrying opened s }
{
    Said { opened, ..s }
}

fn gives(answer: Said, awaited: usize, line: usize, change: Change) -> Outcome
    ensures { result ≡ given answer awaited line change }
{
    Outcome {
        answer,
        awaited,
        line,
        kept: Said::bare(Said::END, 0),
        change,
    }
}

// What is kept of what came.
fn keep(s: Said) -> Said
    ensures { result ≡ kept_by s }
{
    if s.number == Said::END {
        return Said::bare(KEPT_END, 0);
    }
    s
}

// The two words of an open section: its sort and its line.
#[derive(Clone, Copy)]
pub(crate) struct SectionWords {
    pub(crate) sort: usize,
    pub(crate) line: usize,
}

// Those of the innermost section; a record that counts over 65 has none that can be used.
fn innermost_in(count: usize, w: &[usize; 278]) -> Option<SectionWords>
    ensures { result ≡ innermost_in count w.now }
{
    if count == 0 {
        return None;
    }
    if 65 < count {
        return None;
    }
    Some(SectionWords {
        sort: w[146 + 2 * count],
        line: w[147 + 2 * count],
    })
}

pub(crate) fn sort_at(count: usize, w: &[usize; 278]) -> usize
    ensures { result ≡ sort_at count w.now }
{
    innermost_in(count, w).map_or(sort::MISSING, |section| section.sort)
}

fn opened_at(count: usize, w: &[usize; 278]) -> usize
    ensures { result ≡ opened_at count w.now }
{
    innermost_in(count, w).map_or(0, |section| section.line)
}

// What a judgement leaves, s having come to the words' state. The innermost section's line is read only where it
// closes.
#[tactic(auto, unfolding(crate::specs::Outcomes::outcome_by))]
pub(crate) fn outcome_of(v: Judged, s: Said, w: &[usize; 278]) -> Outcome
    ensures { result ≡ outcome_by v s (get_or w.now 138 0) (get_or w.now 139 0) (opened_at (get_or w.now 147 0) w.now) }
{
    let awaits = w[138];
    let line = w[139];
    match v {
        Judged::GivesOn => gives(s, awaits, line, Change::Keep),
        Judged::NoValue => {
            let answer = Said::bare(kind::NO_VALUE, line);
            Outcome {
                kept: keep(s),
                ..gives(answer, awaited::NOTHING, 0, Change::Keep)
            }
        }
        Judged::Opens => gives(s, awaited::NOTHING, 0, Change::Open(line)),
        Judged::Closes => {
            let opened = opened_at(w[147], w);
            gives(carry(opened, s), awaited::NOTHING, 0, Change::Close)
        }
        Judged::Map => gives(s, awaited::VALUE, s.line, Change::Fix(Sort::Map)),
        Judged::List => gives(s, awaited::VALUE, s.line, Change::Fix(Sort::List)),
        Judged::Hint => gives(s, awaited::MULTILINE, line, Change::Keep),
        Judged::Value => gives(s, awaited::NOTHING, 0, Change::Keep),
        Judged::Passes => gives(s, awaits, line, Change::Keep),
        Judged::Refuses(r) => {
            let refusal = Said::refused(r, s.line);
            gives(refusal, awaited::NOTHING, 0, Change::Keep)
        }
        Judged::RefusesEntry => {
            let refusal = Said::refused(Refusal::MissingMultiline, line);
            gives(refusal, awaited::NOTHING, 0, Change::Keep)
        }
        Judged::End => gives(Said::bare(Said::END, 0), awaited::NOTHING, 0, Change::Keep),
        Judged::Unfit => {
            let refusal = Said::refused(Refusal::UnfitState, 0);
            gives(refusal, awaited::NOTHING, 0, Change::Keep)
        }
    }
}

// Writes what a judgement leaves, count being the number of open sections. What the change asks of it is a clause: a
// struct of the two, which come from different places, would be made for this call alone.
pub(crate) fn put_outcome(o: Outcome, count: usize, w: &mut [usize; 278])
    requires { ChangeFits o.change count }
    ensures { w.new ≡ outcome_in o count w.old }
{
    let after = match o.change {
        Change::Keep => count,
        Change::Fix(sort) => {
            w[146 + 2 * count] = usize::from(sort);
            count
        }
        Change::Open(line) => {
            w[148 + 2 * count] = sort::UNSET;
            w[149 + 2 * count] = line;
            count + 1
        }
        Change::Close => count - 1,
    };
    let refused = Said::REFUSED <= o.answer.number;
    let middle = middle_by(refused, o.awaited, o.line, o.kept, after);
    paste(&middle, 137, w);
}
