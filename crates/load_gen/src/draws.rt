//! A generator of numbers: a linear congruence modulo 2^64, of which each step gives its upper 32 bits.

ghost use Rattle.std.specs.Prelude.{◌≡◌, ◌<◌};
ghost use Rattle.load_gen.specs.Drawing.{draw, step};

/// What the state is multiplied by at each step.
const MULTIPLIER: u64 = 6_364_136_223_846_793_005;

/// What is added at each step.
const INCREMENT: u64 = 1_442_695_040_888_963_407;

/// The state after one step.
fn step(state: u64) -> u64
    ensures { result ≡ step state }
{
    state.wrapping_mul(MULTIPLIER).wrapping_add(INCREMENT)
}

/// Draws one after another.
#[derive(Clone, Copy)]
pub struct Draws {
    pub state: u64,
}

impl Draws {
    /// Makes a step, and answers its draw: a number below a bound.
    pub fn draw(&mut self, bound: u32) -> u32
        requires { 0 < bound }
        ensures drawn { result ≡ draw self.old.state 1 bound }
        ensures moved { self.new.state ≡ step self.old.state }
    {
        self.state = step(self.state);
        ((self.state >> 32) % u64::from(bound)) as u32
    }
}
