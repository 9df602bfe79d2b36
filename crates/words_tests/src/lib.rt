// Tables of examples for words, groups, hands and sheets.
#![tactic(auto)]

#[cfg(test)]
mod making;
#[cfg(test)]
mod packing;
#[cfg(test)]
mod sheets;
