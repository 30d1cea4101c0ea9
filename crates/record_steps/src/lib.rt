// Specifications only: what every message and timer call does and answers, over the records of the state.
#![tactic(auto)]
