use session::{Draft, Settled, Trace};

// A session in any stage.
#[derive(Drop)]
pub enum Stage {
    Drafting(Draft),
    Resting(Settled),
    Tracing(Trace),
}
