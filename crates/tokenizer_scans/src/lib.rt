// The scans of document 01's token readers.
#![tactic(auto)]

mod readers;

pub use readers::{
    Lines, Relation, begins_hint, checked, eq_size, multiline_len, plain_len, relate, text_len,
};
