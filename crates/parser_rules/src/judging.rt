// What the parser makes of an answer of the tokenizer, by the answer's number alone: the one place that decides.
// Numbers, as rows and words have them: with enums for the kind, for what is awaited and for the sort, tried, a parsing
// takes 18 to 29% longer.
ghost use Rattle.std.specs.Prelude.{◌≡◌};
ghost use Rattle.parser_rules.specs.Judging.{settled_by, after_entry_by, after_hint_by, judged_by};

use crate::{awaited, sort};
use text::Refusal;
use tokenizer::{Said, kind};

// What is made of an answer: it is given on; NoValue, and it is kept; a section opens or closes; it fixes a map or a
// list; it is a hint; it is the value; it is a refusal and given on, which only the step in words asks; it is refused,
// on its own line or, by MissingMultiline, on the entry's; End; unfit.
#[derive(Clone, Copy)]
pub enum Judged {
    GivesOn,
    NoValue,
    Opens,
    Closes,
    Map,
    List,
    Hint,
    Value,
    Passes,
    Refuses(Refusal),
    RefusesEntry,
    End,
    Unfit,
}

// Nothing is awaited: `innermost` is the sort of the innermost section.
#[tactic(auto, unfolding(crate::specs::Judging::settled_by, crate::specs::Judging::outdent_by, crate::specs::Judging::item_by, crate::specs::Judging::key_by))]
fn settle(number: usize, innermost: usize) -> Judged
    ensures { result ≡ settled_by number innermost }
{
    match number {
        Said::END => Judged::End,
        kind::NEWLINE | kind::COMMENT => Judged::GivesOn,
        kind::INDENT => Judged::Refuses(Refusal::UnexpectedIndent),
        kind::OUTDENT => {
            match innermost {
                sort::MISSING => Judged::Unfit,
                _ => Judged::Closes,
            }
        }
        kind::LIST_ITEM => {
            match innermost {
                sort::MAP => Judged::Refuses(Refusal::UnexpectedItem),
                sort::MISSING => Judged::Unfit,
                _ => Judged::List,
            }
        }
        kind::MAP_KEY => {
            match innermost {
                sort::LIST => Judged::Refuses(Refusal::UnexpectedKey),
                sort::MISSING => Judged::Unfit,
                _ => Judged::Map,
            }
        }
        _ => Judged::Unfit,
    }
}

// After a key or item: full says that there is no room for one more section.
#[tactic(auto, unfolding(crate::specs::Judging::after_entry_by))]
fn after_entry(number: usize, full: bool) -> Judged
    ensures { result ≡ after_entry_by number full }
{
    match number {
        kind::NEWLINE | kind::COMMENT => Judged::GivesOn,
        kind::INDENT => { if full { Judged::Unfit } else { Judged::Opens } }
        kind::VALUE => Judged::Value,
        kind::MULTILINE_HINT => Judged::Hint,
        _ => Judged::NoValue,
    }
}

// After a hint.
#[tactic(auto, unfolding(crate::specs::Judging::after_hint_by))]
fn after_hint(number: usize) -> Judged
    ensures { result ≡ after_hint_by number }
{
    match number {
        kind::NEWLINE | kind::COMMENT => Judged::GivesOn,
        kind::MULTILINE_VALUE => Judged::Value,
        _ => Judged::RefusesEntry,
    }
}

// What is made of an answer of that number, by the numbers of what is awaited and of the innermost section's sort.
#[tactic(auto, unfolding(crate::specs::Judging::judged_by))]
pub fn judge(number: usize, awaits: usize, innermost: usize, full: bool) -> Judged
    ensures { result ≡ judged_by number awaits innermost full }
{
    if Said::REFUSED <= number {
        return Judged::Passes;
    }
    match awaits {
        awaited::VALUE => after_entry(number, full),
        awaited::MULTILINE => after_hint(number),
        _ => settle(number, innermost),
    }
}
