// The functions that C and Rust call: a slice is a pointer and a length. include/conl.h and rust/conl declare them;
// tests/c/run compares the declarations of conl.h with these.
#![tactic(auto)]

ghost use Rattle.std.specs.Prelude.{◌≡◌, leb, length};
ghost use Rattle.utf8.specs.Utf8.{utf8};
ghost use Rattle.text.specs.Trimming.{dropped, trimmed};
ghost use Rattle.tokenizer_words.specs.Words.{tokenizer_size, fresh_in};
ghost use Rattle.batches.specs.Batch.{batch_of, parse_batch_of};
ghost use Rattle.parser_words.specs.ParserWords.{parser_size, fresh_parser_in};
ghost use Rattle.answer_words.specs.Texts.{text_of};
ghost use Rattle.answer_words.specs.Given.{given_text_of};
ghost use Rattle.found_words.specs.Found.{found_in};
ghost use Rattle.abi.specs.Lent.{which_of, part_in};
ghost use Rattle.abi.specs.Version.{version};

use text::Dropped;

const VERSION: usize = 2;

// The version of the words that cross: of rows, states and answers. CONL_VERSION of conl.h is the same.
#[unsafe(no_mangle)]
pub extern "C" fn conl_version() -> usize
    ensures { result ≡ version }
{
    VERSION
}

// Whether s is well-formed UTF-8.
#[unsafe(no_mangle)]
pub extern "C" fn conl_is_utf8(s: &[u8]) -> bool
    ensures { result ≡ utf8 s.now }
{
    utf8::is_utf8(s)
}

fn which(breaks: bool) -> Dropped
    ensures { result ≡ which_of breaks }
{
    if breaks {
        Dropped::BlanksAndBreaks
    } else {
        Dropped::Blanks
    }
}

// Trims s of blanks, or of blanks and breaks: true, with start and end in part's first two words; or false, with part
// unchanged, where it has fewer than two.
#[unsafe(no_mangle)]
pub extern "C" fn conl_trim(s: &[u8], breaks: bool, part: &mut [usize]) -> bool
    ensures value { result ≡ leb 2 (length part.old) }
    ensures part_after { part.new ≡ part_in (trimmed (dropped (which_of breaks)) s.now) part.old }
{
    if part.len() < 2 {
        return false;
    }
    let p = text::trim(which(breaks), s);
    part[0] = p.start;
    part[1] = p.end;
    true
}

// Writes the tokenizer's fresh state at the front of the words: true; or false, with state unchanged, where there are
// fewer than 137.
#[unsafe(no_mangle)]
pub extern "C" fn conl_fresh_tokenizer(state: &mut [usize]) -> bool
    ensures value { result ≡ leb tokenizer_size (length state.old) }
    ensures state_after { state.new ≡ fresh_in state.old }
{
    tokenizer_words::fresh(state)
}

// Takes as many answers as rows has room for, a row of seven words each, up to End, and leaves the state after them:
// how many rows; or 2^63 and a refusal's number, 12 or 15, with nothing written.
#[unsafe(no_mangle)]
pub extern "C" fn conl_tokenize(doc: &[u8], state: &mut [usize], rows: &mut [usize]) -> usize
    ensures value { result ≡ (batch_of doc.now state.old rows.old).result }
    ensures state_after { state.new ≡ (batch_of doc.now state.old rows.old).words }
    ensures rows_after { rows.new ≡ (batch_of doc.now state.old rows.old).rows }
{
    batches::tokenize(doc, state, rows)
}

// Writes the parser's fresh state at the front of the words: true; or false, with state unchanged, where there are
// fewer than 278.
#[unsafe(no_mangle)]
pub extern "C" fn conl_fresh_parser(state: &mut [usize]) -> bool
    ensures value { result ≡ leb parser_size (length state.old) }
    ensures state_after { state.new ≡ fresh_parser_in state.old }
{
    parser_words::fresh_parser(state)
}

// The same as conl_tokenize with the parser's answers and state. It stops before a step that answers 15 too; the next
// call then returns that 15.
#[unsafe(no_mangle)]
pub extern "C" fn conl_parse(doc: &[u8], state: &mut [usize], rows: &mut [usize]) -> usize
    ensures value { result ≡ (parse_batch_of doc.now state.old rows.old).result }
    ensures state_after { state.new ≡ (parse_batch_of doc.now state.old rows.old).words }
    ensures rows_after { rows.new ≡ (parse_batch_of doc.now state.old rows.old).rows }
{
    batches::parse(doc, state, rows)
}

// Unescapes the token of a row, and writes the answer at the front of its words: 0, 0, 0, start and end of a plain
// part; 1, 0, 0, 0 and the length of the text that out now begins with; 2, a refusal's number, its line, start and end
// of the part that it shows. False, with nothing written, where there are fewer than five words for the answer, or,
// within the limit, the row has fewer than six words or its number is not a kind's, 1 to 10.
#[unsafe(no_mangle)]
pub extern "C" fn conl_unescape(
    doc: &[u8],
    row: &[usize],
    out: &mut [u8],
    answer: &mut [usize],
) -> bool
    ensures value { result ≡ (text_of doc.now row.now out.old answer.old).result }
    ensures out_after { out.new ≡ (text_of doc.now row.now out.old answer.old).buffer }
    ensures answer_after { answer.new ≡ (text_of doc.now row.now out.old answer.old).words }
{
    answer_words::unescape(doc, row, out, answer)
}

// Unescapes the text of a token, given the token's kind, line and indentation, and writes the answer at the front of
// its words as conl_unescape does, with places counted from the text's start. False, with nothing written, where kind
// is not 1 to 10 or there are fewer than five words for the answer.
#[unsafe(no_mangle)]
pub extern "C" fn conl_unescape_text(
    kind: usize,
    line: usize,
    text: &[u8],
    indent: &[u8],
    out: &mut [u8],
    answer: &mut [usize],
) -> bool
    ensures value { result ≡ (given_text_of kind line text.now indent.now out.old answer.old).result }
    ensures out_after { out.new ≡ (given_text_of kind line text.now indent.now out.old answer.old).buffer }
    ensures answer_after { answer.new ≡ (given_text_of kind line text.now indent.now out.old answer.old).words }
{
    answer_words::unescape_text(kind, line, text, indent, out, answer)
}

// Looks up the first top-level key whose text, unescaped, is wanted, and writes the answer at the front of its words:
// 0, 0, 0, 0, 0 for nothing; 1, 0, the key's line, start and end of its entry; 2, a refusal's number, its line, 0, 0.
// False, with nothing written, where there are fewer than five words for the answer.
#[unsafe(no_mangle)]
pub extern "C" fn conl_look_up(doc: &[u8], wanted: &[u8], answer: &mut [usize]) -> bool
    ensures value { result ≡ leb 5 (length answer.old) }
    ensures answer_after { answer.new ≡ found_in doc.now wanted.now answer.old }
{
    found_words::look_up(doc, wanted, answer)
}
