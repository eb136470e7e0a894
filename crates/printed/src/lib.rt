// The printed text of a tariff file: what holds of every file.

#![tactic(auto)]
