//! A count of steps.
ghost use Rattle.std.specs.Prelude.{◌≡◌, ◌+◌, ◌<◌, ◌^◌, ℕ};

use std::marker::Model;

/// How many steps were taken. It starts at 0, and goes up to `u128::MAX`.
#[derive(Drop, Debug)]
pub struct Steps {
    count: u128,
}

impl Model for Steps {
    ghost Value = { ℕ };

    ghost view = { λ s. s.count };
}

impl Default for Steps {
    ghost is_default = { λ steps. steps ≡ 0 };

    fn default() -> Steps {
        Steps::new()
    }
}

impl Steps {
    /// No steps yet.
    pub fn new() -> Steps
        ensures { result ≡ 0 }
    {
        Steps { count: 0 }
    }

    /// Counts one more step.
    pub fn tick(&mut self)
        requires { self.old + 1 < 2 ^ 128 }
        ensures { self.new ≡ self.old + 1 }
    {
        self.count += 1;
    }

    /// How many steps were counted.
    pub fn count(&self) -> u128
        ensures { result ≡ self.now }
    {
        self.count
    }
}
