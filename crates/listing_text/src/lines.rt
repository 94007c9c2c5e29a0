// The listing's rows, and the listing.
ghost use Rattle.std.specs.Prelude.{◌≡◌, ◌+◌, ◌≤◌, ◌<◌, ◌^◌, length};
ghost use Rattle.listing_text.specs.Text.{placed, filled};
ghost use Rattle.listing_text.specs.Listing.{kind_in, line_text, listing_of};

use crate::writing::Text;
use batches::next;
use parser_words::fresh_parser;
use text::Refusal;
use tokenizer::Said;
use tokenizer_rows::said_row;

// How many bytes a document may have.
const MAX_LISTED: usize = 65536;

impl Text<'_> {
    // A kind is a number; a refusal's has an R before it, where its row has Said::REFUSED more.
    #[tactic(auto, using(crate::proofs::Placing::placed_cons, std::proofs::lemmas::Bool::Decides::nat_tests), unfolding(crate::specs::Listing::kind_in, crate::specs::Listing::kind_text))]
    fn put_kind(&mut self, number: usize)
        requires { self.old.len + 21 < 2 ^ 64 }
        ensures same_reference { self.new.out.ghost_name ≡ self.old.out.ghost_name }
        ensures len { self.new.len ≡ self.old.len + length (kind_in number) }
        ensures upper_bound { self.new.len ≤ self.old.len + 21 }
        ensures out { self.new.out.now ≡ placed (kind_in number) self.old.len self.old.out.now }
    {
        if Said::REFUSED <= number {
            self.put(b"R");
            self.put_number(number - Said::REFUSED);
            return;
        }
        self.put_number(number);
    }

    // The line of an answer's row: line, kind, start and end.
    fn put_row(&mut self, row: &[usize; 7])
        requires { self.old.len + 85 < 2 ^ 64 }
        ensures same_reference { self.new.out.ghost_name ≡ self.old.out.ghost_name }
        ensures len { self.new.len ≡ self.old.len + length (line_text row.now) }
        ensures upper_bound { self.new.len ≤ self.old.len + 85 }
        ensures out { self.new.out.now ≡ placed (line_text row.now) self.old.len self.old.out.now }
    {
        let [number, line, start, end, ..] = *row;
        self.put_number(line);
        self.put(b" ");
        self.put_kind(number);
        self.put(b" ");
        self.put_number(start);
        self.put(b" ");
        self.put_number(end);
        self.put(b"\n");
    }
}

// Writes the listing into out, as far as it goes, and answers how many bytes the listing has. A loop, since each step
// writes its row and the state into lent words: an iterator would have to hold both.
pub fn listing(doc: &[u8], out: &mut [u8]) -> usize
    ensures value { result ≡ length (listing_of doc.now) }
    ensures out_after { out.new ≡ filled (listing_of doc.now) out.old }
{
    let mut text = Text { out, len: 0 };
    text.put(b"line kind start end\n");
    if MAX_LISTED < doc.len() {
        text.put_row(&said_row(Said::refused(Refusal::TooLong, 0)));
        return text.len;
    }
    let mut words = [0usize; 278];
    fresh_parser(&mut words);
    let mut row = [0usize; 7];
    loop {
        next(doc, &mut words, &mut row);
        if row[0] == Said::END {
            return text.len;
        }
        text.put_row(&row);
    }
}
