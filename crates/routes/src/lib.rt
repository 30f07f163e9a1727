// Routes of several legs: how long each is, and which comes first.
#![tactic(auto)]

mod lines;
mod ranking;
mod reading;
#[cfg(test)]
mod tests;
mod total;

pub use columns::Kind;
pub use lines::{equal_line, place_line, route_line};
pub use ranking::{Route, equally_long, rank};
pub use reading::read_leg;
pub use total::route_length;
