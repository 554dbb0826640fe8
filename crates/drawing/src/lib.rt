// A proof shown to people: the closed tableau as Graphviz text.
#![tactic(auto)]

pub mod graph;
