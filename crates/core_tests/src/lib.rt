//! What no clause says of `route_core`, of the crates that it stands on, and of `message_text` and `route_layouts`:
//! tests, and nothing else. They stand in a crate of their own, since a crate with tests is proved twice.
#![tactic(auto)]

#[cfg(test)]
mod tests;
