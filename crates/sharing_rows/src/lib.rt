//! How much a buffer holds after each event of small inputs, and how the edges of one node are told apart: each clause says what the definitions of
//! `sharing_laws` and `match_labels` tell, and the check finds it by computation alone.
//! No function here does anything when it runs. A size is the number of events, of nodes and of edges.
#![tactic(auto, unfolding(sharing_rows::specs::Sizes::computing_sizes))]

pub mod runs_of_three;
pub mod trades;
