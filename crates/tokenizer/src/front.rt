// A step without the record of the open indentations: it is told the innermost one, and says what becomes of the
// record.
ghost use Rattle.std.specs.Prelude.{◌≡◌, true, ◌+◌, ◌-◌, ◌<◌, ◌≤◌, ◌^◌, length, drop};
ghost use Rattle.text.specs.Bytes.{shifted_by};
ghost use Rattle.text.specs.Numbers.{max_open};
ghost use Rattle.tokenizer_rules.specs.Plan.{plan_at};
ghost use Rattle.tokenizer.specs.Step.{
  indent_of,
  size_of,
  answer_of,
  reach,
  bytes_of,
  depth_after,
  held_after,
  fit_part,
  fit_held,
};
ghost use Rattle.tokenizer.specs.Token.{values_of};
ghost use Rattle.tokenizer.specs.Said.{said_by};
ghost use Rattle.tokenizer.specs.Front.{front_fit, advanced_by, near, unmoved, staying, advanced_of};

use crate::kind;
use crate::said::Said;
use crate::state::State;
use text::{Dropped, Part, Refusal};
use tokenizer_rules::{Change, Marks, Plan, Says, plan_at};

// A state but for the open indentations.
#[derive(Clone, Copy)]
pub struct Front {
    pub place: usize,
    pub line: usize,
    pub marks: Marks,
    pub held: Option<Part>,
    pub depth: usize,
}

// What a step says, the front after it, and what becomes of the open indentations: where one opens, it is `indent`.
#[derive(Clone, Copy)]
pub struct Advanced {
    pub said: Said,
    pub front: Front,
    pub change: Change,
    pub indent: Part,
}

impl Advanced {
    // What is said, with nothing changed.
    pub fn unmoved(said: Said, front: Front) -> Advanced
        ensures { result ≡ unmoved said front }
    {
        Advanced {
            said,
            front,
            change: Change::Keep,
            indent: Part::EMPTY,
        }
    }
}

// Whether p neither ends before it starts nor ends past n bytes.
pub fn part_fits(p: Part, n: usize) -> bool
    ensures { result ≡ fit_part n p }
{
    p.start <= p.end && p.end <= n
}

// The same of what is held, if anything.
pub fn held_fits(held: Option<Part>, n: usize) -> bool
    ensures { result ≡ fit_held n held }
{
    held.is_none_or(|p| part_fits(p, n))
}

impl Front {
    // Whether it can be one of a document of n bytes. `&` is no jump, which `&&` would be.
    #[tactic(auto, using(crate::proofs::Fitness::front_tests))]
    pub fn fits(self, n: usize) -> bool
        ensures { result ≡ front_fit n self }
    {
        (self.place <= n)
            & (0 < self.line)
            & (self.line.saturating_sub(1) <= self.place)
            & held_fits(self.held, n)
            & (self.depth <= State::MAX_OPEN)
    }
}

// Rule 1: the indentation of a step, and how many bytes of it stand at the place.
#[derive(Clone, Copy)]
struct Indentation {
    part: Part,
    size: usize,
}

fn indent_at(held: Option<Part>, place: usize, rest: &[u8]) -> Indentation
    requires { place + length rest.now < 2 ^ 64 }
    ensures part_value { result.part ≡ indent_of held place rest.now }
    ensures size_value { result.size ≡ size_of held rest.now }
{
    match held {
        Some(p) => Indentation { part: p, size: 0 },
        None => {
            let size = text::leading(Dropped::Blanks, rest);
            Indentation {
                part: Part {
                    start: place,
                    end: place + size,
                },
                size,
            }
        }
    }
}

// A part counted from the place, counted from the document's start.
fn shifted(place: usize, p: Part) -> Part
    requires start_bound { place + p.start < 2 ^ 64 }
    requires end_bound { place + p.end < 2 ^ 64 }
    ensures { result ≡ shifted_by place p }
{
    Part {
        start: place + p.start,
        end: place + p.end,
    }
}

// What a plan says, in numbers, with its line and its places.
#[tactic(auto, unfolding(crate::specs::Token::values_of, crate::specs::Token::token_values))]
fn numbered(says: Says, line: usize, place: usize, indent: Part) -> Said
    requires { place + reach says < 2 ^ 64 }
    ensures { result ≡ said_by (values_of (answer_of says line place indent)) }
{
    match says {
        Says::End => Said::bare(Said::END, 0),
        Says::Newline => Said::bare(kind::NEWLINE, line),
        Says::Comment(p) => Said::with_text(kind::COMMENT, line, shifted(place, p)),
        Says::Indent => Said::bare(kind::INDENT, line),
        Says::Outdent => Said::bare(kind::OUTDENT, line),
        Says::ListItem => Said::bare(kind::LIST_ITEM, line),
        Says::MapKey(p) => Said::with_text(kind::MAP_KEY, line, shifted(place, p)),
        Says::Value(p) => Said::with_text(kind::VALUE, line, shifted(place, p)),
        Says::MultilineHint(p) => Said::with_text(kind::MULTILINE_HINT, line, shifted(place, p)),
        Says::MultilineValue(p) => Said {
            from: indent.start,
            to: indent.end,
            ..Said::with_text(kind::MULTILINE_VALUE, line, shifted(place, p))
        },
        Says::Refused(r) => Said::refused(r, line),
    }
}

fn held_after(change: Change, indent: Part) -> Option<Part>
    ensures { result ≡ held_after change indent }
{
    match change {
        Change::Keep | Change::Open | Change::Close => None,
        Change::Hold => Some(indent),
    }
}

fn depth_after(change: Change, depth: usize) -> usize
    requires { depth ≤ max_open }
    ensures { result ≡ depth_after change depth }
{
    match change {
        Change::Keep => depth,
        Change::Open => depth + 1,
        Change::Close | Change::Hold => depth.saturating_sub(1),
    }
}

// The plan of a step: inner is the innermost open indentation, and i this step's.
fn planned(doc: &[u8], f: Front, inner: Part, i: Indentation) -> Plan
    requires place_in_bounds { f.place ≤ length doc.now }
    requires inner_fits { fit_part (length doc.now) inner ≡ true }
    requires indent_fits { fit_part (length doc.now) i.part ≡ true }
    ensures { result ≡ plan_at f.marks f.depth (bytes_of doc.now inner) (bytes_of doc.now i.part) (drop f.place doc.now) i.size }
{
    let marks = f.marks;
    let part = i.part;
    plan_at(
        marks,
        f.depth,
        &doc[inner.start..inner.end],
        &doc[part.start..part.end],
        &doc[f.place..],
        i.size,
    )
}

// A refusal that changes nothing.
#[tactic(auto, unfolding(crate::specs::Token::values_of))]
fn stays(f: Front, refusal: Refusal) -> Advanced
    ensures { result ≡ staying f refusal }
{
    Advanced::unmoved(Said::refused(refusal, 0), f)
}

// Whether what a step uses of a state is fit: all but the open indentations below the innermost.
#[tactic(auto, unfolding(crate::specs::Front::near))]
fn is_near(f: Front, inner: Part, n: usize) -> bool
    ensures { result ≡ near n f inner }
{
    f.fits(n) & part_fits(inner, n)
}

// What becomes of a plan, indent being the step's indentation.
fn carried_out(f: Front, indent: Part, p: Plan) -> Advanced
    requires depth_le_max_open { f.depth ≤ max_open }
    requires pass_bound { f.place + p.pass < 2 ^ 64 }
    requires lines_bound { f.line + p.lines < 2 ^ 64 }
    requires says_bound { f.place + reach p.says < 2 ^ 64 }
    ensures { result ≡ advanced_by f indent p }
{
    let says = p.says;
    let change = p.change;
    let marks = p.marks;
    let said = numbered(says, f.line, f.place, indent);
    let held = held_after(change, indent);
    let front = Front {
        place: f.place + p.pass,
        line: f.line + p.lines,
        marks,
        held,
        depth: depth_after(change, f.depth),
    };
    Advanced {
        said,
        front,
        change,
        indent,
    }
}

// One step of a front, inner being the innermost open indentation.
pub fn advance(doc: &[u8], f: Front, inner: Part) -> Advanced
    ensures { result ≡ advanced_of doc.now f inner }
{
    if State::MAX_DOCUMENT < doc.len() {
        return stays(f, Refusal::TooLong);
    }
    if !is_near(f, inner, doc.len()) {
        return stays(f, Refusal::UnfitState);
    }
    let held = f.held;
    let i = indent_at(held, f.place, &doc[f.place..]);
    let p = planned(doc, f, inner, i);
    carried_out(f, i.part, p)
}
