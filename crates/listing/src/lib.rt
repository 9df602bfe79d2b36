// Listings of sheets.
#![tactic(auto)]
