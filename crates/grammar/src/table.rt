//! Tables of grammars.

ghost use Rattle.std.specs.Prelude.{◌≡◌, ◌↔◌, true, IsTrue, IsNone, IfSome, List};
ghost use Rattle.grammar.specs.ClassSets.{Has};
ghost use Rattle.grammar.specs.Grammars.{Entry, entry};
ghost use Rattle.grammar.specs.Predicting.{is_predictive, is_productive};
ghost use Rattle.grammar.specs.Tables.{IsTaken, NoneIsTaken, rows_seen};

use crate::symbol::Symbol;

/// What counts as the class of the end of the tokens. A class below 128 has a
/// bit in a mask, and one that is no token's leaves that bit to the end.
pub const END: u8 = 127;

/// An alternative of a rule, and the classes at which it is taken, as bits.
#[derive(Clone, Copy, Debug)]
pub struct Row {
    pub mask: u128,
    pub symbols: &'static [Symbol],
}

/// A grammar as a table, which the first token, or the end, leads through.
pub trait Table {
    ghost grammar: { List Entry };

    /// The alternatives of a rule, none where the grammar doesn't have it.
    fn rows(rule: u16) -> &'static [Row]
        ensures { rows_seen result.now ≡ (entry grammar rule).rows };

    ghost predictive: { is_predictive grammar ≡ true };

    ghost productive: { is_productive grammar ≡ true };
}

/// Whether a mask has the bit of a class.
fn has_class(mask: u128, class: u8) -> bool
    ensures { IsTrue result ↔ Has mask class }
{
    class < 128 && (mask >> class) & 1 == 1
}

/// The symbols of the alternative that is taken at a class, if one is.
pub fn row_at(rows: &'static [Row], class: u8) -> Option<&'static [Symbol]>
    ensures found { IfSome result (λ symbols. IsTaken (rows_seen rows.now) class symbols.now) }
    ensures none { IsNone result → NoneIsTaken (rows_seen rows.now) class }
{
    for row in rows {
        if has_class(row.mask, class) {
            return Some(row.symbols);
        }
    }
    None
}
