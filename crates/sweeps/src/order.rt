ghost use Rattle.std.specs.Prelude.{◌≤◌};

// How many lengths each row keeps at most, and the node that walks start from.
#[derive(Clone, Copy)]
pub struct Order {
    pub k: usize,
    pub source: usize,
    ghost ok: { (1 ≤ k) × (k ≤ 20) × (1 ≤ source) × (source ≤ 1000) },
}
