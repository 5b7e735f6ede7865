//! The table of a grammar, made by `tools/make_grammar.py`.

ghost use Rattle.std.specs.Prelude.{◌≡◌};
ghost use Rattle.grammar.specs.Grammars.{entry};
ghost use Rattle.grammar.specs.Tables.{rows_seen};
ghost use Rattle.grammar_tests.specs.ItemsTable.{items};

use grammar::Row;
use grammar::Symbol::{Act, Need, Rule};

/// The alternatives of each rule.
#[rattlefmt::skip]
#[tactic(auto, unfolding(crate::specs::ItemsTable::items, crate::specs::ItemsTable::items_item, crate::specs::ItemsTable::items_weight, crate::specs::ItemsTable::items_items, crate::specs::ItemsTable::items_more))]
pub fn rows(rule: u16) -> &'static [Row]
    ensures { rows_seen result.now ≡ (entry items rule).rows }
{
    match rule {
        // item ::= @word Word weight | @begin Open items @end Close
        0 => &[
            Row { mask: 0x1, symbols: &[Act(0), Need(0), Rule(1)] },
            Row { mask: 0x8, symbols: &[Act(2), Need(3), Rule(2), Act(3), Need(4)] },
        ],
        // weight ::= % | Colon @weight Word
        1 => &[
            Row { mask: 0x80000000000000000000000000000014, symbols: &[] },
            Row { mask: 0x2, symbols: &[Need(1), Act(1), Need(0)] },
        ],
        // items ::= % | item more
        2 => &[
            Row { mask: 0x80000000000000000000000000000010, symbols: &[] },
            Row { mask: 0x9, symbols: &[Rule(0), Rule(3)] },
        ],
        // more ::= % | Comma item more
        3 => &[
            Row { mask: 0x80000000000000000000000000000010, symbols: &[] },
            Row { mask: 0x4, symbols: &[Need(2), Rule(0), Rule(3)] },
        ],
        _ => &[],
    }
}
