//! What holds of a player's run whatever its engine's code is: its calls and tries, by the plain machine.
#![tactic(auto)]
