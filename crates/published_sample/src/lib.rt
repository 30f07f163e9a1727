// The sample network that was printed with the method, solved and traced against the printed results.
#![tactic(auto)]

#[cfg(test)]
mod tests;
