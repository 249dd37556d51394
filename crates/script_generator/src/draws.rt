//! Numbers that are drawn one after another.
ghost use Rattle.std.specs.Prelude.{◌≡◌, ◌<◌, ◌%◌};
ghost use Rattle.script_generator.specs.Draws.{next, draw};

use std::marker::Model;

const MODULUS: u64 = 65_537;

// A linear congruential generator. It is seen as its state.
#[derive(Drop)]
pub(crate) struct Draws {
    state: u64,
}

impl Model for Draws {
    ghost use Rattle.std.specs.Prelude.{ℕ, ◌<◌};

    ghost Value = { ℕ };

    ghost view = { λ d. d.state };

    ghost invariant = { λ d. d.state < 65537 };
}

impl Draws {
    pub(crate) fn new(number: u64) -> Draws
        ensures { result ≡ number % 65537 }
    {
        Draws {
            state: number % MODULUS,
        }
    }

    // The next number below `count`.
    pub(crate) fn draw(&mut self, count: u64) -> u64
        requires { 0 < count }
        ensures value { result ≡ draw count self.old }
        ensures below { result < count }
        ensures state { self.new ≡ next self.old }
    {
        self.state = (75 * self.state + 74) % MODULUS;
        self.state % count
    }
}
