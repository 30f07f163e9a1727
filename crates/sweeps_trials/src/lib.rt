// Small networks, solved. Their tests stand apart from the solve, so that it is not proved again with them.
#![tactic(auto)]

#[cfg(test)]
mod tests;
