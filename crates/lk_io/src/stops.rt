ghost use Rattle.std.specs.Prelude.{◌≡◌, ℕ};
ghost use Rattle.lk_io.specs.Stop.{Polls};

/// What tells a long work that it is not wanted any more, by a number that has risen above its own.
pub trait Stop {
    ghost told: { Self → ℕ };

    fn poll(&mut self) -> u64
        ensures { Polls (told self.old) (told self.new) result };
}

/// Never stops a work: it polls 0 each time.
#[derive(Clone, Copy, Debug, Drop)]
pub struct NeverStop;

impl Stop for NeverStop {
    ghost told = { λ s. 0 };

    fn poll(&mut self) -> u64
        ensures polls { Polls 0 0 result }
        ensures zero { result ≡ 0 }
    {
        0
    }
}
