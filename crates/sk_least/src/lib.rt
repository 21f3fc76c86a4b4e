//! Abstract results are the least that cover: each operation of the two domains, and each filter over every domain whose
//! operations are so.
#![tactic(auto)]

mod laws;

pub use laws::{
    filters_are_least, interval_filters_are_least, intervals_are_least, sign_filters_are_least,
    signs_are_least, spans_are_least,
};
