// Tables of examples for the machine.
#![tactic(auto)]

#[cfg(test)]
mod faults;
#[cfg(test)]
mod table;
