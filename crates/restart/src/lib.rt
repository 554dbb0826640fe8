// Rules read one way (document 02, order 11): the search and the checker where leaves are restarted, and the status that this reading adds.
#![tactic(auto)]

pub mod calls;
pub mod conclusions;
