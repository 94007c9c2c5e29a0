// Why a text means nothing.
ghost use Rattle.std.specs.Prelude.{◌≡◌};
ghost use Rattle.unescape_pieces.specs.Meaning.{refusal_of};

use text::{Part, Refusal};

// An invalid escape code, with the part that its message shows, or what is wrong at the end of a text in quotes.
#[derive(Clone, Copy)]
pub enum Fault {
    InvalidEscape(Part),
    EscapeAtEnd,
    ExtraCharacters,
    UnclosedQuotes,
}

impl From<Fault> for Refusal {
    ghost from_gives = { λ f r. r ≡ refusal_of f };

    fn from(fault: Fault) -> Refusal {
        match fault {
            Fault::InvalidEscape(_) => Refusal::InvalidEscape,
            Fault::EscapeAtEnd => Refusal::EscapeAtEnd,
            Fault::ExtraCharacters => Refusal::ExtraCharacters,
            Fault::UnclosedQuotes => Refusal::UnclosedQuotes,
        }
    }
}
