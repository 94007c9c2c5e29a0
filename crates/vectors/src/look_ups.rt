// The look-up: its answer, and the entry that it finds.
use crate::lines::{Numbers, named_part};

// The text is a document; the numbers are the wanted key's length and bytes, and the answer.
pub fn look_up_agrees(s: &[u8], mut numbers: Numbers<'_>) -> bool {
    let mut room = [0u8; 256];
    let wanted = numbers.bytes(&mut room);
    let mut answer = [0usize; 5];
    if !found_words::look_up(s, wanted, &mut answer) {
        return false;
    }
    let entry = named_part(s, answer, found_words::AT);
    numbers.are_all(&answer) && entry == Some(look_up::entry(s, wanted))
}
