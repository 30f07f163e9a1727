// Making orders.
ghost use Rattle.sweeps.specs.Orders.{OrderMade};

use super::Refusal;
use super::order::Order;

// The most lengths that a row keeps.
pub const WIDEST: usize = 20;

// The most nodes of a network.
pub const MOST_NODES: usize = 1000;

impl Order {
    // Rows of at most k lengths, of walks from the source.
    pub fn new(k: usize, source: usize) -> Result<Order, Refusal>
        ensures { OrderMade k source result }
    {
        if k == 0 || k > WIDEST {
            return Err(Refusal::RowWidth);
        }
        if source == 0 || source > MOST_NODES {
            return Err(Refusal::NoSuchNode);
        }
        Ok(Order { k, source })
    }
}
