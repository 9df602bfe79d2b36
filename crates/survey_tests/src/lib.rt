// Pictures of memories, and what a survey marks in them.
#![tactic(auto)]

#[cfg(test)]
mod edges;
#[cfg(test)]
mod pictures;
