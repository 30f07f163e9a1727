// Numbers that look random, the same in every run. The crate timing has another generator; what each prints is pinned.
ghost use Rattle.std.specs.Prelude.{◌≡◌, ◌≤◌, pos, ◌+ℤ◌, ◌≤ℤ◌};

#[derive(Drop)]
pub struct Numbers {
    state: u64,
}

impl Numbers {
    pub fn seeded(seed: u64) -> Numbers
        ensures { result.state ≡ seed }
    {
        Numbers { state: seed }
    }

    fn draw(&mut self) -> u64 {
        self.state = self.state.wrapping_add(0x9e37_79b9_7f4a_7c15);
        let once = (self.state ^ (self.state >> 30)).wrapping_mul(0xbf58_476d_1ce4_e5b9);
        let twice = (once ^ (once >> 27)).wrapping_mul(0x94d0_49bb_1331_11eb);
        twice ^ (twice >> 31)
    }

    // From 0 to `most`.
    pub fn up_to(&mut self, most: u32) -> u32
        ensures { result ≤ most }
    {
        (self.draw() % (most as u64 + 1)) as u32
    }

    // From `low` on, over `span` numbers more.
    pub fn within(&mut self, low: i8, span: u8) -> i64
        ensures low { low ≤ℤ result }
        ensures high { result ≤ℤ (low +ℤ pos span) }
    {
        low as i64 + self.up_to(span as u32) as i64
    }

    // From 1 to `most`; 1 where `most` is 0.
    pub fn one_to(&mut self, most: usize) -> usize
        ensures low { 1 ≤ result }
        ensures high { 1 ≤ most → result ≤ most }
    {
        if most == 0 {
            return 1;
        }
        (self.draw() % most as u64) as usize + 1
    }
}
