//! What one event keeps of a world, whatever its engines' code is.
#![tactic(auto)]
