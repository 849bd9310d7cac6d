ghost use Rattle.std.specs.Prelude.{◌<◌, length};
ghost use Rattle.lk_io.specs.Run.{run};
ghost use Rattle.lk_io.specs.Source.{SourceState, Takes};

/// A call of a source failed.
#[derive(Debug, Drop, PartialEq, Eq)]
pub struct Failed;

/// Where bytes come from.
pub trait Source {
    ghost state: { Self → SourceState };

    /// Moves the next bytes into the front of the buffer and answers how many: 0 at the end alone. A call that fails
    /// takes nothing.
    fn take(&mut self, buf: &mut [u8]) -> Result<usize, Failed>
        requires { 0 < length buf.old }
        ensures { Takes (run (state self.old) (state self.new)) buf.new result };
}
