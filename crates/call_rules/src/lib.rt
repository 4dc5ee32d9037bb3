//! A thread's calls as contracts see them, and what holds of them whatever their engine's code is.
#![tactic(auto)]
