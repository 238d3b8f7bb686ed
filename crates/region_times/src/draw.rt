//! Numbers that look random, and are the same in each run.

ghost use Rattle.std.specs.Prelude.{◌<◌};

/// A generator of numbers.
#[derive(Clone, Copy)]
pub struct Draw {
    state: u64,
}

impl Draw {
    pub fn new() -> Draw {
        Draw {
            state: 0x9E37_79B9_7F4A_7C16,
        }
    }

    /// The next number, below n.
    pub fn below(&mut self, n: u32) -> u32
        requires { 0 < n }
        ensures { result < n }
    {
        self.state = self.state.wrapping_add(0x9E37_79B9_7F4A_7C15);
        (mixed(self.state) % n as u64) as u32
    }
}

fn mixed(state: u64) -> u64 {
    let once = (state ^ (state >> 30)).wrapping_mul(0xBF58_476D_1CE4_E5B9);
    let twice = (once ^ (once >> 27)).wrapping_mul(0x94D0_49BB_1331_11EB);
    twice ^ (twice >> 31)
}
