//! Lists of numbers, and lists of lists as a relation: a step leads from x to each number of list x.
//! Open specs/Lists.antt, then specs/Gathered.antt and specs/Pairs.antt. The crate knows nothing of walks, cells or parts.
#![tactic(auto)]

mod lists;
mod making;

pub use lists::{
    all_ordered, first_out_of_range, gathered, ordered, place_of, put_under, stands_in,
};
pub use making::{all_numbers, empty_lists, put_at};
