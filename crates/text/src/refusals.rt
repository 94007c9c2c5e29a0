// Why a document, a token's text or a call is refused.
ghost use Rattle.std.specs.Prelude.{◌≡◌};
ghost use Rattle.text.specs.Numbers.{number_of};
ghost use Rattle.text.specs.Refusals.{refusal_of};

// In the order of their numbers, 1 to 15.
#[derive(Clone, Copy, Debug, PartialEq, Eq)]
pub enum Refusal {
    InvalidUtf8,
    CharactersAfterQuotes,
    TooManyOpen,
    MissingMultiline,
    UnexpectedKey,
    UnexpectedItem,
    UnexpectedIndent,
    InvalidEscape,
    EscapeAtEnd,
    ExtraCharacters,
    UnclosedQuotes,
    TooLong,
    UnfitToken,
    ShortBuffer,
    UnfitState,
}

// A number that is no refusal's.
#[derive(Clone, Copy, Debug, PartialEq, Eq)]
pub struct NoRefusal {
    pub number: usize,
}

// A refusal and the line that it is told of.
#[derive(Clone, Copy, Debug, PartialEq, Eq)]
pub struct SyntaxError {
    pub refusal: Refusal,
    pub line: usize,
}

impl From<Refusal> for usize {
    ghost from_gives = { λ r n. n ≡ number_of r };

    fn from(refusal: Refusal) -> usize {
        match refusal {
            Refusal::InvalidUtf8 => 1,
            Refusal::CharactersAfterQuotes => 2,
            Refusal::TooManyOpen => 3,
            Refusal::MissingMultiline => 4,
            Refusal::UnexpectedKey => 5,
            Refusal::UnexpectedItem => 6,
            Refusal::UnexpectedIndent => 7,
            Refusal::InvalidEscape => 8,
            Refusal::EscapeAtEnd => 9,
            Refusal::ExtraCharacters => 10,
            Refusal::UnclosedQuotes => 11,
            Refusal::TooLong => 12,
            Refusal::UnfitToken => 13,
            Refusal::ShortBuffer => 14,
            Refusal::UnfitState => 15,
        }
    }
}

impl TryFrom<usize> for Refusal {
    type Error = NoRefusal;

    ghost try_from_gives = { λ n r. r ≡ refusal_of n };

    fn try_from(number: usize) -> Result<Refusal, NoRefusal> {
        match number {
            1 => Ok(Refusal::InvalidUtf8),
            2 => Ok(Refusal::CharactersAfterQuotes),
            3 => Ok(Refusal::TooManyOpen),
            4 => Ok(Refusal::MissingMultiline),
            5 => Ok(Refusal::UnexpectedKey),
            6 => Ok(Refusal::UnexpectedItem),
            7 => Ok(Refusal::UnexpectedIndent),
            8 => Ok(Refusal::InvalidEscape),
            9 => Ok(Refusal::EscapeAtEnd),
            10 => Ok(Refusal::ExtraCharacters),
            11 => Ok(Refusal::UnclosedQuotes),
            12 => Ok(Refusal::TooLong),
            13 => Ok(Refusal::UnfitToken),
            14 => Ok(Refusal::ShortBuffer),
            15 => Ok(Refusal::UnfitState),
            _ => Err(NoRefusal { number }),
        }
    }
}
