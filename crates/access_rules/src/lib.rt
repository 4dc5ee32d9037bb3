//! The pieces of an access, and the rows and the log that have them, whatever the engine's code is.
#![tactic(auto)]
