//! Which call of an outside in memory is to fail.

ghost use Rattle.std.specs.Prelude.{◌≡◌, ◌+◌, ◌↔◌, Some, None, IsTrue};
ghost use Rattle.owl_port.specs.Outside.{raised};

/// How many calls were made, and the number of the one that is to fail.
///
/// Calls are counted from 1. The count stays at 2^64 - 1 once it is there, so
/// the calls after number 2^64 - 1 have no number.
#[derive(Debug, Drop)]
pub struct Turns {
    pub made: u64,
    pub failing: Option<u64>,
}

impl Turns {
    /// No call yet, and none that is to fail.
    pub fn new() -> Turns
        ensures { result ≡ record { made = 0; failing = None } }
    {
        Turns {
            made: 0,
            failing: None,
        }
    }

    /// Whether the next call is the one that is to fail.
    fn is_next(&self) -> bool
        ensures { IsTrue result ↔ (self.now.failing ≡ Some (self.now.made + 1)) }
    {
        match self.failing {
            Some(call) => call.checked_sub(1) == Some(self.made),
            None => false,
        }
    }

    /// Counts a call, and says whether it is the one that is to fail.
    pub fn next(&mut self) -> bool
        ensures fails { IsTrue result ↔ (self.old.failing ≡ Some (self.old.made + 1)) }
        ensures counted { self.new ≡ record self.old { made = raised self.old.made } }
    {
        let fails = self.is_next();
        self.made = self.made.saturating_add(1);
        fails
    }
}
