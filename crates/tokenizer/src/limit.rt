// The limit of a document's length.
ghost use Rattle.std.specs.Prelude.{◌≡◌, ◌≤◌, length, IfOk};
ghost use Rattle.text.specs.Numbers.{max_document};
ghost use Rattle.tokenizer.specs.Limit.{within_limit};

use crate::state::State;
use text::{Refusal, SyntaxError};

// 12 on line 0 where the bytes are more than a document has.
pub fn within_limit(s: &[u8]) -> Result<(), SyntaxError>
    ensures value { result ≡ within_limit s.now }
    ensures within { IfOk result (λ _. length s.now ≤ max_document) }
{
    if State::MAX_DOCUMENT < s.len() {
        return Err(SyntaxError {
            refusal: Refusal::TooLong,
            line: 0,
        });
    }
    Ok(())
}
