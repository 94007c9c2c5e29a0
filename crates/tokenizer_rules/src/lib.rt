// What one step of document 01's tokenizer does, counted from its place.
#![tactic(auto)]

mod cursor;
mod plan;

pub use plan::{Change, MAX_OPEN, Marks, Plan, Says, plan_at};
