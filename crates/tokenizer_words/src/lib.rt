// A tokenizer's state in lent words, for callers in C and Rust.
#![tactic(auto)]

mod words;

pub use words::{
    flag_of, fresh, front_in, front_words, held_by, held_words, is_fit, is_readable, paste,
    restore, store,
};
