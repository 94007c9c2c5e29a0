// Scans by eights. Eight tests joined by `&` compile to one load of eight bytes and one test of them; from the first eight
// that does not pass whole, or the last, the places are tested one by one.
#![tactic(auto)]

mod scans;

pub use scans::{ascii_len, same_len};
