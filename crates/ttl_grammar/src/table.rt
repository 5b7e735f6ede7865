//! The table of a grammar, made by `tools/make_grammar.py`.

ghost use Rattle.std.specs.Prelude.{◌≡◌};
ghost use Rattle.grammar.specs.Grammars.{entry};
ghost use Rattle.grammar.specs.Tables.{rows_seen};
ghost use Rattle.ttl_grammar.specs.Table.{turtle};

use grammar::Row;
use grammar::Symbol::{Act, Need, Rule};

/// The alternatives of each rule.
#[rattlefmt::skip]
#[tactic(auto, unfolding(crate::specs::Table::turtle, crate::specs::Table::turtle_document, crate::specs::Table::turtle_statement, crate::specs::Table::turtle_triples, crate::specs::Table::turtle_bracketed_subject, crate::specs::Table::turtle_more_predicates, crate::specs::Table::turtle_subject, crate::specs::Table::turtle_predicates, crate::specs::Table::turtle_other_verbs, crate::specs::Table::turtle_next_verb, crate::specs::Table::turtle_verb, crate::specs::Table::turtle_objects, crate::specs::Table::turtle_other_objects, crate::specs::Table::turtle_object, crate::specs::Table::turtle_collection, crate::specs::Table::turtle_items, crate::specs::Table::turtle_literal, crate::specs::Table::turtle_suffix, crate::specs::Table::turtle_tag, crate::specs::Table::turtle_shorthand, crate::specs::Table::turtle_iri, crate::specs::Table::turtle_iri_name))]
pub fn rows(rule: u16) -> &'static [Row]
    ensures { rows_seen result.now ≡ (entry turtle rule).rows }
{
    match rule {
        // document ::= % | statement document
        0 => &[
            Row { mask: 0x80000000000000000000000000000000, symbols: &[] },
            Row { mask: 0x28c0cf, symbols: &[Rule(1), Rule(0)] },
        ],
        // statement ::= AtPrefix @NamePrefix Namespace @DeclarePrefix IriRef @EndStatement Dot
        //     | AtBase @DeclareBase IriRef @EndStatement Dot
        //     | WordPrefix @NamePrefix Namespace @DeclarePrefix @EndStatement IriRef
        //     | WordBase @DeclareBase @EndStatement IriRef
        //     | triples @EndStatement Dot
        1 => &[
            Row { mask: 0x40, symbols: &[Need(6), Act(17), Need(2), Act(18), Need(0), Act(20), Need(16)] },
            Row { mask: 0x80, symbols: &[Need(7), Act(19), Need(0), Act(20), Need(16)] },
            Row { mask: 0x4000, symbols: &[Need(14), Act(17), Need(2), Act(18), Act(20), Need(0)] },
            Row { mask: 0x8000, symbols: &[Need(15), Act(19), Act(20), Need(0)] },
            Row { mask: 0x28000f, symbols: &[Rule(2), Act(20), Need(16)] },
        ],
        // triples ::= subject @Subject predicates | @OpenBracket OpenBracket bracketed_subject
        2 => &[
            Row { mask: 0x20000f, symbols: &[Rule(5), Act(3), Rule(6)] },
            Row { mask: 0x80000, symbols: &[Act(6), Need(19), Rule(3)] },
        ],
        // bracketed_subject ::= @CloseBracket CloseBracket @Subject predicates
        //     | predicates @CloseBracket CloseBracket @Subject more_predicates
        3 => &[
            Row { mask: 0x100000, symbols: &[Act(7), Need(20), Act(3), Rule(6)] },
            Row { mask: 0x807, symbols: &[Rule(6), Act(7), Need(20), Act(3), Rule(4)] },
        ],
        // more_predicates ::= % | predicates
        4 => &[
            Row { mask: 0x80000000000000000000000000110000, symbols: &[] },
            Row { mask: 0x807, symbols: &[Rule(6)] },
        ],
        // subject ::= iri | @Label Label | collection
        5 => &[
            Row { mask: 0x7, symbols: &[Rule(19)] },
            Row { mask: 0x8, symbols: &[Act(1), Need(3)] },
            Row { mask: 0x200000, symbols: &[Rule(13)] },
        ],
        // predicates ::= verb @Predicate objects other_verbs
        6 => &[
            Row { mask: 0x807, symbols: &[Rule(9), Act(4), Rule(10), Rule(7)] },
        ],
        // other_verbs ::= % | Semicolon next_verb
        7 => &[
            Row { mask: 0x80000000000000000000000000110000, symbols: &[] },
            Row { mask: 0x20000, symbols: &[Need(17), Rule(8)] },
        ],
        // next_verb ::= predicates | other_verbs
        8 => &[
            Row { mask: 0x807, symbols: &[Rule(6)] },
            Row { mask: 0x80000000000000000000000000130000, symbols: &[Rule(7)] },
        ],
        // verb ::= @RdfType WordA | iri
        9 => &[
            Row { mask: 0x800, symbols: &[Act(2), Need(11)] },
            Row { mask: 0x7, symbols: &[Rule(19)] },
        ],
        // objects ::= object @Object other_objects
        10 => &[
            Row { mask: 0x28371f, symbols: &[Rule(12), Act(5), Rule(11)] },
        ],
        // other_objects ::= % | Comma objects
        11 => &[
            Row { mask: 0x80000000000000000000000000130000, symbols: &[] },
            Row { mask: 0x40000, symbols: &[Need(18), Rule(10)] },
        ],
        // object ::= iri
        //     | @Label Label
        //     | collection
        //     | literal
        //     | @OpenBracket OpenBracket more_predicates @CloseBracket CloseBracket
        12 => &[
            Row { mask: 0x7, symbols: &[Rule(19)] },
            Row { mask: 0x8, symbols: &[Act(1), Need(3)] },
            Row { mask: 0x200000, symbols: &[Rule(13)] },
            Row { mask: 0x3710, symbols: &[Rule(15)] },
            Row { mask: 0x80000, symbols: &[Act(6), Need(19), Rule(4), Act(7), Need(20)] },
        ],
        // collection ::= @OpenCollection OpenParenthesis items @CloseCollection CloseParenthesis
        13 => &[
            Row { mask: 0x200000, symbols: &[Act(8), Need(21), Rule(14), Act(11), Need(22)] },
        ],
        // items ::= % | @Item object @Element items
        14 => &[
            Row { mask: 0x80000000000000000000000000400000, symbols: &[] },
            Row { mask: 0x28371f, symbols: &[Act(9), Rule(12), Act(10), Rule(14)] },
        ],
        // literal ::= @Text Text suffix | @Shorthand shorthand
        15 => &[
            Row { mask: 0x10, symbols: &[Act(12), Need(4), Rule(16)] },
            Row { mask: 0x3700, symbols: &[Act(16), Rule(18)] },
        ],
        // suffix ::= @Plain | @Tagged tag | Carets @Typed iri_name
        16 => &[
            Row { mask: 0x800000000000000000000000007f371f, symbols: &[Act(13)] },
            Row { mask: 0xe0, symbols: &[Act(14), Rule(17)] },
            Row { mask: 0x800000, symbols: &[Need(23), Act(15), Rule(20)] },
        ],
        // tag ::= Language | AtPrefix | AtBase
        17 => &[
            Row { mask: 0x20, symbols: &[Need(5)] },
            Row { mask: 0x40, symbols: &[Need(6)] },
            Row { mask: 0x80, symbols: &[Need(7)] },
        ],
        // shorthand ::= Integer | Decimal | Double | WordTrue | WordFalse
        18 => &[
            Row { mask: 0x100, symbols: &[Need(8)] },
            Row { mask: 0x200, symbols: &[Need(9)] },
            Row { mask: 0x400, symbols: &[Need(10)] },
            Row { mask: 0x1000, symbols: &[Need(12)] },
            Row { mask: 0x2000, symbols: &[Need(13)] },
        ],
        // iri ::= @Iri iri_name
        19 => &[
            Row { mask: 0x7, symbols: &[Act(0), Rule(20)] },
        ],
        // iri_name ::= IriRef | Prefixed | Namespace
        20 => &[
            Row { mask: 0x1, symbols: &[Need(0)] },
            Row { mask: 0x2, symbols: &[Need(1)] },
            Row { mask: 0x4, symbols: &[Need(2)] },
        ],
        _ => &[],
    }
}
