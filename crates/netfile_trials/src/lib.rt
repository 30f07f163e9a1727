// Files that are refused, and where.
#![tactic(auto)]

#[cfg(test)]
mod tests;
