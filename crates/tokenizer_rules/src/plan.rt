// What one step does, counted from its place: the plan knows neither places nor lines.
ghost use Rattle.std.specs.Prelude.{◌≡◌, true, false, ◌<◌, ◌≤◌, cond, length, drop};
ghost use Rattle.tokenizer_rules.specs.Cursor.{text_of};
ghost use Rattle.tokenizer_scans.specs.Scans.{relation_of};
ghost use Rattle.tokenizer_scans.specs.declared.readers.Relation.TheVariants.{Equal};
ghost use Rattle.tokenizer_rules.specs.Plan.{keeps, plan_end, plan_newline, begins_comment, plan_comment, plan_key, plan_hint, plan_value, plan_entry, plan_multiline, plan_open, cleared, plan_outdent, plan_indented, plan_at};

use crate::cursor::Cursor;
use text::{Dropped, Part, Refusal, line_end, newline_size};
use tokenizer_scans::{
    Relation, begins_hint, checked, eq_size, multiline_len, plain_len, relate, text_len,
};

// The most sections that are open at once, the top level apart: tokenizer::State has it as its own.
pub const MAX_OPEN: usize = 64;

// The three marks, the Rust's expect_indent, expect_value and expect_multiline.
#[derive(Clone, Copy, Debug, PartialEq, Eq)]
pub struct Marks {
    pub indent: bool,
    pub value: bool,
    pub multiline: bool,
}

impl Marks {
    // The indentation mark and the multiline mark are cleared.
    fn cleared(self) -> Marks
        ensures { result ≡ cleared self }
    {
        Marks {
            indent: false,
            multiline: false,
            ..self
        }
    }

    // The multiline mark is cleared, and the next step looks at the indentation.
    fn expecting_indent(self) -> Marks
        ensures { result ≡ record { indent = true; value = self.value; multiline = false } }
    {
        Marks {
            indent: true,
            ..self.cleared()
        }
    }
}

// What a step says; the parts of texts are counted from the step's place. A refusal has no line yet, and is one of the
// things that a step says: no Result.
#[derive(Clone, Copy)]
pub enum Says {
    End,
    Newline,
    Comment(Part),
    Indent,
    Outdent,
    ListItem,
    MapKey(Part),
    Value(Part),
    MultilineHint(Part),
    MultilineValue(Part),
    Refused(Refusal),
}

// What becomes of the open sections: nothing, this indentation is opened, the innermost is closed, or it is closed and
// this indentation held for the next step.
#[derive(Clone, Copy, Debug, PartialEq, Eq)]
pub enum Change {
    Keep,
    Open,
    Close,
    Hold,
}

// What a step says, how many bytes it passes and lines it adds, the marks after it, and what becomes of the sections.
#[derive(Clone, Copy)]
pub struct Plan {
    pub says: Says,
    pub pass: usize,
    pub lines: usize,
    pub marks: Marks,
    pub change: Change,
}

// A plan that adds no line and leaves the sections as they are.
fn kept(says: Says, pass: usize, marks: Marks) -> Plan
    ensures { result ≡ keeps says pass marks }
{
    Plan {
        says,
        pass,
        lines: 0,
        marks,
        change: Change::Keep,
    }
}

// What a step says of a text that is not UTF-8.
const UNREADABLE: Says = Says::Refused(Refusal::InvalidUtf8);

// Rule 2. Here and below, s stands behind the indentation; here a line break stands there.
#[tactic(auto, using(crate::proofs::Plans::break_le), unfolding(crate::specs::Plan::plan_newline))]
fn consume_newline(m: Marks, s: &Cursor) -> Plan
    ensures { result ≡ plan_newline m s.now.at (text_of s.now) }
{
    let marks = Marks {
        indent: true,
        value: false,
        ..m
    };
    Plan {
        lines: 1,
        ..kept(Says::Newline, s.at + newline_size(s.text()), marks)
    }
}

// Rule 3.
#[tactic(auto, using(std::proofs::lemmas::Bool::Decides::nat_tests), unfolding(crate::specs::Plan::plan_end))]
fn end(m: Marks, depth: usize) -> Plan
    ensures { result ≡ plan_end m depth }
{
    if 0 < depth {
        Plan {
            change: Change::Close,
            ..kept(Says::Outdent, 0, m)
        }
    } else {
        kept(Says::End, 0, m)
    }
}

// The test of rule 4: `;`, unless the indentation and multiline marks are both set.
#[tactic(auto, unfolding(crate::specs::Plan::begins_comment))]
fn is_comment(m: Marks, b: u8) -> bool
    ensures { result ≡ begins_comment m b }
{
    b == b';' && !(m.indent && m.multiline)
}

// Rule 4. The comment's text stands behind the `;`.
#[tactic(auto, using(crate::proofs::Plans::line_in))]
fn consume_comment(m: Marks, s: &Cursor) -> Plan
    requires { 0 < length (text_of s.now) }
    ensures { result ≡ plan_comment m s.now.at (drop 1 (text_of s.now)) }
{
    let r = s.after(1);
    let n = line_end(r.text());
    kept(r.read(n).map_or(UNREADABLE, Says::Comment), r.at + n, m)
}

#[tactic(auto, using(crate::proofs::Plans::text_in, crate::proofs::Plans::told, crate::proofs::Plans::eq_in), unfolding(crate::specs::Plan::plan_key))]
fn consume_key(m: Marks, s: &Cursor) -> Plan
    ensures { result ≡ plan_key m s.now.at (text_of s.now) }
{
    let n = text_len(s.text(), b'=');
    let r = s.after(n);
    let pass = r.at + eq_size(r.text());
    kept(
        s.read(n).map_or(UNREADABLE, Says::MapKey),
        pass,
        Marks { value: true, ..m },
    )
}

// A value that begins with three quotes is a hint. The value mark is cleared already.
#[tactic(auto, using(crate::proofs::Plans::text_in, tokenizer_scans::proofs::Quotes::hint_le, crate::proofs::Plans::told), unfolding(crate::specs::Plan::plan_value, crate::specs::Plan::plan_plain))]
fn consume_value(m: Marks, s: &Cursor) -> Plan
    ensures { result ≡ plan_value m s.now.at (text_of s.now) }
{
    if begins_hint(s.text()) {
        return consume_multiline_hint(m, s);
    }
    let n = text_len(s.text(), b';');
    kept(s.read(n).map_or(UNREADABLE, Says::Value), s.at + n, m)
}

// The hint's text stands behind three quotes. A fourth quote is refused where the step began.
#[tactic(auto, using(crate::proofs::Plans::plain_in))]
fn consume_multiline_hint(m: Marks, s: &Cursor) -> Plan
    requires { 3 ≤ length (text_of s.now) }
    ensures { result ≡ plan_hint m s.now.at (drop 3 (text_of s.now)) }
{
    let r = s.after(3);
    if text::starts_with(r.text(), b"\"") {
        return kept(Says::Refused(Refusal::CharactersAfterQuotes), 0, m);
    }
    let n = plain_len(r.text(), b';');
    let Some(p) = r.read(n) else {
        return kept(UNREADABLE, r.at + n, m);
    };
    let marks = Marks {
        multiline: true,
        ..m
    };
    kept(Says::MultilineHint(p), r.at + n, marks)
}

// The multiline value of that indentation that rest begins with.
#[tactic(auto, using(crate::proofs::Plans::lines_in), unfolding(crate::specs::Plan::plan_multiline))]
fn consume_multiline(m: Marks, indent: &[u8], rest: &[u8]) -> Plan
    ensures { result ≡ plan_multiline m indent.now rest.now }
{
    let v = multiline_len(indent, rest);
    let n = v.len;
    let text = checked(Dropped::BlanksAndBreaks, &rest[..n]);
    Plan {
        lines: v.count,
        ..kept(
            text.map_or(UNREADABLE, Says::MultilineValue),
            n,
            m.expecting_indent(),
        )
    }
}

// Rule 5, deeper: a section opens, or is refused where MAX_OPEN are open.
#[tactic(auto, using(std::proofs::lemmas::Bool::Decides::nat_tests, crate::proofs::Plans::line_in), unfolding(crate::specs::Plan::plan_open))]
fn open(m: Marks, depth: usize, s: &Cursor) -> Plan
    ensures { result ≡ plan_open m depth s.now.at (text_of s.now) }
{
    if depth < MAX_OPEN {
        Plan {
            change: Change::Open,
            ..kept(Says::Indent, s.at, m)
        }
    } else {
        kept(
            Says::Refused(Refusal::TooManyOpen),
            s.at + line_end(s.text()),
            m,
        )
    }
}

// Rule 5, neither equal nor deeper: the innermost section closes.
#[tactic(auto, unfolding(crate::specs::Plan::plan_outdent))]
fn outdent(m: Marks, k: usize) -> Plan
    ensures { result ≡ plan_outdent m k }
{
    Plan {
        change: Change::Hold,
        ..kept(Says::Outdent, k, m.expecting_indent())
    }
}

// Rule 6. The first byte is b.
#[tactic(auto, using(std::proofs::lemmas::Bool::Decides::nat_tests), unfolding(crate::specs::Plan::plan_entry, crate::specs::Plan::plan_item))]
fn entry(m: Marks, b: u8, s: &Cursor) -> Plan
    requires { 0 < length (text_of s.now) }
    ensures { result ≡ plan_entry m s.now.at b (text_of s.now) }
{
    if m.value {
        return consume_value(Marks { value: false, ..m }, s);
    }
    if b == b'=' {
        return kept(Says::ListItem, s.at + 1, Marks { value: true, ..m });
    }
    consume_key(m, s)
}

// How the indentation lies, where its mark is set; else as if it were equal.
fn lies(m: Marks, inner: &[u8], indent: &[u8]) -> Relation
    ensures { result ≡ cond m.indent (relation_of inner.now indent.now) Equal }
{
    if m.indent {
        relate(inner, indent)
    } else {
        Relation::Equal
    }
}

// The marks with which an entry is read: with the indentation mark, it and the multiline mark are cleared.
fn entry_marks(m: Marks) -> Marks
    ensures { result ≡ cond m.indent (cleared m) m }
{
    if m.indent { m.cleared() } else { m }
}

// Rule 5, deeper: a multiline value, or a section.
fn deeper(m: Marks, depth: usize, indent: &[u8], s: &Cursor) -> Plan
    ensures { result ≡ cond m.multiline (plan_multiline (cleared m) indent.now s.now.rest.now) (plan_open (cleared m) depth s.now.at (text_of s.now)) }
{
    if m.multiline {
        consume_multiline(m.cleared(), indent, s.rest)
    } else {
        open(m.cleared(), depth, s)
    }
}

// Rules 5 and 6. An entry is read from one place, so that its code is made once; each plan is named before it is
// returned, so that a call which stays a call does not keep the others in memory.
#[tactic(auto, using(crate::proofs::Contents::on_equal, crate::proofs::Contents::on_deeper, crate::proofs::Contents::on_other))]
fn content(m: Marks, depth: usize, inner: &[u8], indent: &[u8], b: u8, s: &Cursor) -> Plan
    requires { 0 < length (text_of s.now) }
    ensures { result ≡ cond m.indent (plan_indented m depth inner.now indent.now s.now.rest.now s.now.at b (text_of s.now)) (plan_entry m s.now.at b (text_of s.now)) }
{
    match lies(m, inner, indent) {
        Relation::Equal => {
            let p = entry(entry_marks(m), b, s);
            p
        }
        Relation::Deeper => {
            let p = deeper(m, depth, indent, s);
            p
        }
        Relation::Other => outdent(m, s.at),
    }
}

// The plan of a step: depth sections are open, inner is the innermost one's indentation and indent this step's, rest
// the document from the place on, and k how many bytes of it the indentation takes (0 where it was held).
#[tactic(auto, using(crate::proofs::Plans::at_end, crate::proofs::Plans::at_break), unfolding(crate::specs::Plan::plan_at))]
pub fn plan_at(m: Marks, depth: usize, inner: &[u8], indent: &[u8], rest: &[u8], k: usize) -> Plan
    ensures { result ≡ plan_at m depth inner.now indent.now rest.now k }
{
    if rest.len() < k {
        return end(m, depth);
    }
    let s = Cursor { rest, at: k };
    if 0 < newline_size(s.text()) {
        return consume_newline(m, &s);
    }
    let Some(&b) = s.text().first() else {
        return end(m, depth);
    };
    if is_comment(m, b) {
        return consume_comment(m, &s);
    }
    content(m, depth, inner, indent, b, &s)
}
