// The literals of a question's body: found by a scan, or noted once in the work words, where each stands, and for each word its literals in order.
#![tactic(auto)]

pub mod entries;
pub mod links;
pub mod notes;
pub mod places;
pub mod scanning;
