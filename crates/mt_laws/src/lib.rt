//! Lemmas on what holds of the machine over every list of enabled events. The crates that run the machine cite them, and
//! `mt_machine_laws` has the laws.
#![tactic(auto)]
