//! How many rows there were.

ghost use Rattle.std.specs.Prelude.{◌≡◌, ◌+◌, ◌↔◌, IsTrue, min};
ghost use Rattle.std.specs.Bool.{OnTrue, OnFalse};

use std::fmt;

/// How many rows there were, and how many of them were not as expected.
#[derive(Clone, Copy, Debug, Default, PartialEq, Eq)]
pub struct Tally {
    pub rows: u64,
    pub wrong: u64,
}

impl Tally {
    /// Counts a row, or what can't be read as one.
    pub fn count(&mut self, is_right: bool)
        ensures rows { self.new.rows ≡ min (self.old.rows + 1) u64.MAX }
        ensures right { OnTrue is_right (self.new.wrong ≡ self.old.wrong) }
        ensures wrong { OnFalse is_right (self.new.wrong ≡ min (self.old.wrong + 1) u64.MAX) }
    {
        self.rows = self.rows.saturating_add(1);
        if !is_right {
            self.wrong = self.wrong.saturating_add(1);
        }
    }

    /// Whether no row is wrong.
    pub fn is_right(self) -> bool
        ensures { IsTrue result ↔ (self.wrong ≡ 0) }
    {
        self.wrong == 0
    }
}

impl fmt::Display for Tally {
    fn fmt<W: fmt::Write>(&self, f: &mut fmt::Formatter<W>) -> fmt::Result {
        write!(f, "rows {}, wrong {}", self.rows, self.wrong)
    }
}
