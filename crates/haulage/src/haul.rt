ghost use Rattle.std.specs.Prelude.{◌+◌, ◌*◌, ◌^◌, ◌≤◌};

// What a haul takes: litres of fuel, at a weight of 3, and minutes, at a weight of 2. Together they weigh at most 2^62.
#[derive(Clone, Copy, PartialEq, Eq, Debug)]
pub struct Haul {
    pub fuel: u64,
    pub minutes: u64,
    ghost ok: { 3 * fuel + 2 * minutes ≤ 2 ^ 62 },
}
