// Tables of examples for the three kinds of memory.
#![tactic(auto)]

#[cfg(test)]
mod packs;
#[cfg(test)]
mod piles;
#[cfg(test)]
mod probe;
#[cfg(test)]
mod tables;
