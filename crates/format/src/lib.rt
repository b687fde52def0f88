//! The packet format: definitions of what is read and written, and theorems about them. It holds no code.

#![tactic(auto)]
