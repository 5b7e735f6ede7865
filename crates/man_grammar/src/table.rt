//! The table of a grammar, made by `tools/make_grammar.py`.

ghost use Rattle.std.specs.Prelude.{◌≡◌};
ghost use Rattle.grammar.specs.Grammars.{entry};
ghost use Rattle.grammar.specs.Tables.{rows_seen};
ghost use Rattle.man_grammar.specs.Table.{manchester};

use grammar::Row;
use grammar::Symbol::{Act, Need, Rule};

/// The alternatives of each rule.
#[rattlefmt::skip]
#[tactic(auto, unfolding(crate::specs::Table::manchester, crate::specs::Table1::manchester_document, crate::specs::Table1::manchester_prefixes, crate::specs::Table1::manchester_header, crate::specs::Table1::manchester_version, crate::specs::Table1::manchester_imports, crate::specs::Table1::manchester_head_notes, crate::specs::Table1::manchester_items, crate::specs::Table1::manchester_item, crate::specs::Table1::manchester_class_sections, crate::specs::Table1::manchester_class_section, crate::specs::Table1::manchester_datatype_sections, crate::specs::Table1::manchester_note_sections, crate::specs::Table1::manchester_object_sections, crate::specs::Table1::manchester_object_section, crate::specs::Table1::manchester_data_sections, crate::specs::Table1::manchester_data_section, crate::specs::Table1::manchester_annotation_sections, crate::specs::Table1::manchester_annotation_section, crate::specs::Table1::manchester_individual_sections, crate::specs::Table1::manchester_individual_section, crate::specs::Table1::manchester_note_section, crate::specs::Table1::manchester_note_parts, crate::specs::Table1::manchester_other_note_parts, crate::specs::Table1::manchester_expression_parts, crate::specs::Table1::manchester_other_expression_parts, crate::specs::Table1::manchester_property_parts, crate::specs::Table1::manchester_other_property_parts, crate::specs::Table1::manchester_name_parts, crate::specs::Table1::manchester_other_name_parts, crate::specs::Table1::manchester_individual_parts, crate::specs::Table1::manchester_other_individual_parts, crate::specs::Table1::manchester_word_parts, crate::specs::Table1::manchester_other_word_parts, crate::specs::Table1::manchester_one_characteristic, crate::specs::Table1::manchester_fact_parts, crate::specs::Table1::manchester_other_fact_parts, crate::specs::Table1::manchester_fact, crate::specs::Table1::manchester_opt_notes, crate::specs::Table1::manchester_notes, crate::specs::Table1::manchester_note_list, crate::specs::Table1::manchester_other_notes, crate::specs::Table1::manchester_expressions, crate::specs::Table1::manchester_other_expressions, crate::specs::Table1::manchester_properties, crate::specs::Table1::manchester_other_properties, crate::specs::Table1::manchester_individuals, crate::specs::Table1::manchester_other_individuals, crate::specs::Table1::manchester_other_keys, crate::specs::Table1::manchester_other_links, crate::specs::Table1::manchester_expression, crate::specs::Table2::manchester_other_operands, crate::specs::Table2::manchester_conjunction, crate::specs::Table2::manchester_behind_first_name, crate::specs::Table2::manchester_other_conjuncts, crate::specs::Table2::manchester_that_part, crate::specs::Table2::manchester_other_that_parts, crate::specs::Table2::manchester_primary, crate::specs::Table2::manchester_unnamed, crate::specs::Table2::manchester_positive, crate::specs::Table2::manchester_grouped, crate::specs::Table2::manchester_behind_name, crate::specs::Table2::manchester_restriction, crate::specs::Table2::manchester_restricted, crate::specs::Table2::manchester_filler, crate::specs::Table2::manchester_property, crate::specs::Table2::manchester_inverse, crate::specs::Table2::manchester_inverse_name, crate::specs::Table2::manchester_members, crate::specs::Table2::manchester_other_member_individuals, crate::specs::Table2::manchester_other_member_literals, crate::specs::Table2::manchester_facets, crate::specs::Table2::manchester_other_facets, crate::specs::Table2::manchester_one_facet, crate::specs::Table2::manchester_value, crate::specs::Table2::manchester_individual, crate::specs::Table2::manchester_name, crate::specs::Table2::manchester_name_word, crate::specs::Table2::manchester_type_word, crate::specs::Table2::manchester_iri, crate::specs::Table2::manchester_literal, crate::specs::Table2::manchester_suffix, crate::specs::Table2::manchester_shorthand))]
pub fn rows(rule: u16) -> &'static [Row]
    ensures { rows_seen result.now ≡ (entry manchester rule).rows }
{
    match rule {
        // document ::= prefixes Ontology header imports head_notes items
        0 => &[
            Row { mask: 0x3, symbols: &[Rule(1), Need(1), Rule(2), Rule(4), Rule(5), Rule(6)] },
        ],
        // prefixes ::= % | Prefix @NamePrefix Namespace @DeclarePrefix IriRef prefixes
        1 => &[
            Row { mask: 0x80000000000000000000000000000002, symbols: &[] },
            Row { mask: 0x1, symbols: &[Need(0), Act(0), Need(65), Act(1), Need(63), Rule(1)] },
        ],
        // header ::= % | @OntologyIri iri version
        2 => &[
            Row { mask: 0x8000000000000000000000000000fffc, symbols: &[] },
            Row { mask: 0x38000000000000000, symbols: &[Act(2), Rule(78), Rule(3)] },
        ],
        // version ::= % | @VersionIri iri
        3 => &[
            Row { mask: 0x8000000000000000000000000000fffc, symbols: &[] },
            Row { mask: 0x38000000000000000, symbols: &[Act(3), Rule(78)] },
        ],
        // imports ::= % | Import @ImportIri iri imports
        4 => &[
            Row { mask: 0x8000000000000000000000000000fff8, symbols: &[] },
            Row { mask: 0x4, symbols: &[Need(2), Act(4), Rule(78), Rule(4)] },
        ],
        // head_notes ::= % | @Open notes @HeadNotes head_notes
        5 => &[
            Row { mask: 0x8000000000000000000000000000fff0, symbols: &[] },
            Row { mask: 0x8, symbols: &[Act(6), Rule(38), Act(5), Rule(5)] },
        ],
        // items ::= % | item items
        6 => &[
            Row { mask: 0x80000000000000000000000000000000, symbols: &[] },
            Row { mask: 0xfff0, symbols: &[Rule(7), Rule(6)] },
        ],
        // item ::= @ItemClass Class @Open name @Subject class_sections
        //     | @ItemDatatype Datatype @Open name @Subject datatype_sections
        //     | @ItemObjectProperty ObjectProperty @Open name @Subject object_sections
        //     | @ItemDataProperty DataProperty @Open name @Subject data_sections
        //     | @ItemAnnotationProperty AnnotationProperty @Open name @Subject annotation_sections
        //     | @ItemIndividual Individual @Open individual @Subject individual_sections
        //     | @ItemEquivalentClasses EquivalentClasses @Open opt_notes expressions @Part
        //     | @ItemDisjointClasses DisjointClasses @Open opt_notes expressions @Part
        //     | @ItemEquivalentProperties EquivalentProperties @Open opt_notes properties @Part
        //     | @ItemDisjointProperties DisjointProperties @Open opt_notes properties @Part
        //     | @ItemSameIndividual SameIndividual @Open opt_notes individuals @Part
        //     | @ItemDifferentIndividuals DifferentIndividuals @Open opt_notes individuals @Part
        7 => &[
            Row { mask: 0x10, symbols: &[Act(22), Need(4), Act(6), Rule(75), Act(7), Rule(8)] },
            Row { mask: 0x20, symbols: &[Act(23), Need(5), Act(6), Rule(75), Act(7), Rule(10)] },
            Row { mask: 0x40, symbols: &[Act(24), Need(6), Act(6), Rule(75), Act(7), Rule(12)] },
            Row { mask: 0x80, symbols: &[Act(25), Need(7), Act(6), Rule(75), Act(7), Rule(14)] },
            Row { mask: 0x100, symbols: &[Act(26), Need(8), Act(6), Rule(75), Act(7), Rule(16)] },
            Row { mask: 0x200, symbols: &[Act(27), Need(9), Act(6), Rule(74), Act(7), Rule(18)] },
            Row { mask: 0x400, symbols: &[Act(28), Need(10), Act(6), Rule(37), Rule(41), Act(8)] },
            Row { mask: 0x800, symbols: &[Act(29), Need(11), Act(6), Rule(37), Rule(41), Act(8)] },
            Row { mask: 0x1000, symbols: &[Act(30), Need(12), Act(6), Rule(37), Rule(43), Act(8)] },
            Row { mask: 0x2000, symbols: &[Act(31), Need(13), Act(6), Rule(37), Rule(43), Act(8)] },
            Row { mask: 0x4000, symbols: &[Act(32), Need(14), Act(6), Rule(37), Rule(45), Act(8)] },
            Row { mask: 0x8000, symbols: &[Act(33), Need(15), Act(6), Rule(37), Rule(45), Act(8)] },
        ],
        // class_sections ::= % | class_section class_sections
        8 => &[
            Row { mask: 0x8000000000000000000000000000fff0, symbols: &[] },
            Row { mask: 0x1f0008, symbols: &[Rule(9), Rule(8)] },
        ],
        // class_section ::= note_section
        //     | @SectionSubClassOf SubClassOf expression_parts
        //     | @SectionEquivalentTo EquivalentTo expression_parts
        //     | @SectionDisjointWith DisjointWith expression_parts
        //     | @SectionDisjointUnionOf DisjointUnionOf @Open opt_notes expressions @Part
        //     | @SectionHasKey HasKey @Open opt_notes @Open property other_keys @Part
        9 => &[
            Row { mask: 0x8, symbols: &[Rule(20)] },
            Row { mask: 0x10000, symbols: &[Act(35), Need(16), Rule(23)] },
            Row { mask: 0x20000, symbols: &[Act(36), Need(17), Rule(23)] },
            Row { mask: 0x40000, symbols: &[Act(37), Need(18), Rule(23)] },
            Row { mask: 0x80000, symbols: &[Act(38), Need(19), Act(6), Rule(37), Rule(41), Act(8)] },
            Row { mask: 0x100000, symbols: &[Act(39), Need(20), Act(6), Rule(37), Act(6), Rule(64), Rule(47), Act(8)] },
        ],
        // datatype_sections ::= %
        //     | note_section datatype_sections
        //     | @SectionEquivalentTo EquivalentTo @Open opt_notes expression @Part note_sections
        10 => &[
            Row { mask: 0x8000000000000000000000000000fff0, symbols: &[] },
            Row { mask: 0x8, symbols: &[Rule(20), Rule(10)] },
            Row { mask: 0x20000, symbols: &[Act(36), Need(17), Act(6), Rule(37), Rule(49), Act(8), Rule(11)] },
        ],
        // note_sections ::= % | note_section note_sections
        11 => &[
            Row { mask: 0x8000000000000000000000000000fff0, symbols: &[] },
            Row { mask: 0x8, symbols: &[Rule(20), Rule(11)] },
        ],
        // object_sections ::= % | object_section object_sections
        12 => &[
            Row { mask: 0x8000000000000000000000000000fff0, symbols: &[] },
            Row { mask: 0x7e60008, symbols: &[Rule(13), Rule(12)] },
        ],
        // object_section ::= note_section
        //     | @SectionDomain Domain expression_parts
        //     | @SectionRange Range expression_parts
        //     | @SectionCharacteristics Characteristics word_parts
        //     | @SectionSubPropertyOf SubPropertyOf property_parts
        //     | @SectionEquivalentTo EquivalentTo property_parts
        //     | @SectionDisjointWith DisjointWith property_parts
        //     | @SectionInverseOf InverseOf property_parts
        //     | @SectionSubPropertyChain SubPropertyChain @Open opt_notes @Open property Composed property other_links @Part
        13 => &[
            Row { mask: 0x8, symbols: &[Rule(20)] },
            Row { mask: 0x200000, symbols: &[Act(40), Need(21), Rule(23)] },
            Row { mask: 0x400000, symbols: &[Act(41), Need(22), Rule(23)] },
            Row { mask: 0x800000, symbols: &[Act(42), Need(23), Rule(31)] },
            Row { mask: 0x1000000, symbols: &[Act(43), Need(24), Rule(25)] },
            Row { mask: 0x20000, symbols: &[Act(36), Need(17), Rule(25)] },
            Row { mask: 0x40000, symbols: &[Act(37), Need(18), Rule(25)] },
            Row { mask: 0x2000000, symbols: &[Act(44), Need(25), Rule(25)] },
            Row { mask: 0x4000000, symbols: &[Act(45), Need(26), Act(6), Rule(37), Act(6), Rule(64), Need(43), Rule(64), Rule(48), Act(8)] },
        ],
        // data_sections ::= % | data_section data_sections
        14 => &[
            Row { mask: 0x8000000000000000000000000000fff0, symbols: &[] },
            Row { mask: 0x1e60008, symbols: &[Rule(15), Rule(14)] },
        ],
        // data_section ::= note_section
        //     | @SectionDomain Domain expression_parts
        //     | @SectionRange Range expression_parts
        //     | @SectionCharacteristics Characteristics @Open opt_notes @WordFunctional Functional @Part
        //     | @SectionSubPropertyOf SubPropertyOf name_parts
        //     | @SectionEquivalentTo EquivalentTo name_parts
        //     | @SectionDisjointWith DisjointWith name_parts
        15 => &[
            Row { mask: 0x8, symbols: &[Rule(20)] },
            Row { mask: 0x200000, symbols: &[Act(40), Need(21), Rule(23)] },
            Row { mask: 0x400000, symbols: &[Act(41), Need(22), Rule(23)] },
            Row { mask: 0x800000, symbols: &[Act(42), Need(23), Act(6), Rule(37), Act(51), Need(55), Act(8)] },
            Row { mask: 0x1000000, symbols: &[Act(43), Need(24), Rule(27)] },
            Row { mask: 0x20000, symbols: &[Act(36), Need(17), Rule(27)] },
            Row { mask: 0x40000, symbols: &[Act(37), Need(18), Rule(27)] },
        ],
        // annotation_sections ::= % | annotation_section annotation_sections
        16 => &[
            Row { mask: 0x8000000000000000000000000000fff0, symbols: &[] },
            Row { mask: 0x1600008, symbols: &[Rule(17), Rule(16)] },
        ],
        // annotation_section ::= note_section
        //     | @SectionDomain Domain name_parts
        //     | @SectionRange Range name_parts
        //     | @SectionSubPropertyOf SubPropertyOf name_parts
        17 => &[
            Row { mask: 0x8, symbols: &[Rule(20)] },
            Row { mask: 0x200000, symbols: &[Act(40), Need(21), Rule(27)] },
            Row { mask: 0x400000, symbols: &[Act(41), Need(22), Rule(27)] },
            Row { mask: 0x1000000, symbols: &[Act(43), Need(24), Rule(27)] },
        ],
        // individual_sections ::= % | individual_section individual_sections
        18 => &[
            Row { mask: 0x8000000000000000000000000000fff0, symbols: &[] },
            Row { mask: 0x78000008, symbols: &[Rule(19), Rule(18)] },
        ],
        // individual_section ::= note_section
        //     | @SectionTypes Types expression_parts
        //     | @SectionFacts Facts fact_parts
        //     | @SectionSameAs SameAs individual_parts
        //     | @SectionDifferentFrom DifferentFrom individual_parts
        19 => &[
            Row { mask: 0x8, symbols: &[Rule(20)] },
            Row { mask: 0x8000000, symbols: &[Act(46), Need(27), Rule(23)] },
            Row { mask: 0x10000000, symbols: &[Act(47), Need(28), Rule(34)] },
            Row { mask: 0x20000000, symbols: &[Act(48), Need(29), Rule(29)] },
            Row { mask: 0x40000000, symbols: &[Act(49), Need(30), Rule(29)] },
        ],
        // note_section ::= @SectionAnnotations @Nest Annotations note_parts @Unnest
        20 => &[
            Row { mask: 0x8, symbols: &[Act(34), Act(9), Need(3), Rule(21), Act(10)] },
        ],
        // note_parts ::= @Open opt_notes @Open name value @ShutAssertion @Part other_note_parts
        21 => &[
            Row { mask: 0x3c01e000000000008, symbols: &[Act(6), Rule(37), Act(6), Rule(75), Rule(73), Act(86), Act(8), Rule(22)] },
        ],
        // other_note_parts ::= % | Comma note_parts
        22 => &[
            Row { mask: 0x8000000000000000000000007ffffff8, symbols: &[] },
            Row { mask: 0x40000000000000000000, symbols: &[Need(78), Rule(21)] },
        ],
        // expression_parts ::= @Open opt_notes expression @Part other_expression_parts
        23 => &[
            Row { mask: 0x503c01e040200000008, symbols: &[Act(6), Rule(37), Rule(49), Act(8), Rule(24)] },
        ],
        // other_expression_parts ::= % | Comma expression_parts
        24 => &[
            Row { mask: 0x8000000000000000000000007ffffff8, symbols: &[] },
            Row { mask: 0x40000000000000000000, symbols: &[Need(78), Rule(23)] },
        ],
        // property_parts ::= @Open opt_notes property @Part other_property_parts
        25 => &[
            Row { mask: 0x3c01e040000000008, symbols: &[Act(6), Rule(37), Rule(64), Act(8), Rule(26)] },
        ],
        // other_property_parts ::= % | Comma property_parts
        26 => &[
            Row { mask: 0x80000000000000000000000007e6fff8, symbols: &[] },
            Row { mask: 0x40000000000000000000, symbols: &[Need(78), Rule(25)] },
        ],
        // name_parts ::= @Open opt_notes name @Part other_name_parts
        27 => &[
            Row { mask: 0x3c01e000000000008, symbols: &[Act(6), Rule(37), Rule(75), Act(8), Rule(28)] },
        ],
        // other_name_parts ::= % | Comma name_parts
        28 => &[
            Row { mask: 0x80000000000000000000000001e6fff8, symbols: &[] },
            Row { mask: 0x40000000000000000000, symbols: &[Need(78), Rule(27)] },
        ],
        // individual_parts ::= @Open opt_notes individual @Part other_individual_parts
        29 => &[
            Row { mask: 0x7c01e000000000008, symbols: &[Act(6), Rule(37), Rule(74), Act(8), Rule(30)] },
        ],
        // other_individual_parts ::= % | Comma individual_parts
        30 => &[
            Row { mask: 0x8000000000000000000000007800fff8, symbols: &[] },
            Row { mask: 0x40000000000000000000, symbols: &[Need(78), Rule(29)] },
        ],
        // word_parts ::= @Open opt_notes one_characteristic @Part other_word_parts
        31 => &[
            Row { mask: 0x3f80000000000008, symbols: &[Act(6), Rule(37), Rule(33), Act(8), Rule(32)] },
        ],
        // other_word_parts ::= % | Comma word_parts
        32 => &[
            Row { mask: 0x80000000000000000000000007e6fff8, symbols: &[] },
            Row { mask: 0x40000000000000000000, symbols: &[Need(78), Rule(31)] },
        ],
        // one_characteristic ::= @WordFunctional Functional
        //     | @WordInverseFunctional InverseFunctional
        //     | @WordReflexive Reflexive
        //     | @WordIrreflexive Irreflexive
        //     | @WordSymmetric Symmetric
        //     | @WordAsymmetric Asymmetric
        //     | @WordTransitive Transitive
        33 => &[
            Row { mask: 0x80000000000000, symbols: &[Act(51), Need(55)] },
            Row { mask: 0x100000000000000, symbols: &[Act(52), Need(56)] },
            Row { mask: 0x200000000000000, symbols: &[Act(53), Need(57)] },
            Row { mask: 0x400000000000000, symbols: &[Act(54), Need(58)] },
            Row { mask: 0x800000000000000, symbols: &[Act(55), Need(59)] },
            Row { mask: 0x1000000000000000, symbols: &[Act(56), Need(60)] },
            Row { mask: 0x2000000000000000, symbols: &[Act(57), Need(61)] },
        ],
        // fact_parts ::= @Open opt_notes fact @Part other_fact_parts
        34 => &[
            Row { mask: 0x3c01e000200000008, symbols: &[Act(6), Rule(37), Rule(36), Act(8), Rule(35)] },
        ],
        // other_fact_parts ::= % | Comma fact_parts
        35 => &[
            Row { mask: 0x8000000000000000000000007800fff8, symbols: &[] },
            Row { mask: 0x40000000000000000000, symbols: &[Need(78), Rule(34)] },
        ],
        // fact ::= @Open name value @ShutFact | @Open @Nest Not name value @Unnest @ShutNegativeFact
        36 => &[
            Row { mask: 0x3c01e000000000000, symbols: &[Act(6), Rule(75), Rule(73), Act(87)] },
            Row { mask: 0x200000000, symbols: &[Act(6), Act(9), Need(33), Rule(75), Rule(73), Act(10), Act(88)] },
        ],
        // opt_notes ::= @NoNotes | notes
        37 => &[
            Row { mask: 0x8000000000000507ff9e040200000000, symbols: &[Act(11)] },
            Row { mask: 0x8, symbols: &[Rule(38)] },
        ],
        // notes ::= @Open @Nest Annotations note_list @Unnest @ShutNotes
        38 => &[
            Row { mask: 0x8, symbols: &[Act(6), Act(9), Need(3), Rule(39), Act(10), Act(67)] },
        ],
        // note_list ::= @Open opt_notes name value @ShutNote other_notes
        39 => &[
            Row { mask: 0x3c01e000000000008, symbols: &[Act(6), Rule(37), Rule(75), Rule(73), Act(68), Rule(40)] },
        ],
        // other_notes ::= % | Comma note_list
        40 => &[
            Row { mask: 0x8000000000000507ff9e04020000fff8, symbols: &[] },
            Row { mask: 0x40000000000000000000, symbols: &[Need(78), Rule(39)] },
        ],
        // expressions ::= @Open expression Comma expression other_expressions
        41 => &[
            Row { mask: 0x503c01e040200000000, symbols: &[Act(6), Rule(49), Need(78), Rule(49), Rule(42)] },
        ],
        // other_expressions ::= @ShutList | Comma expression other_expressions
        42 => &[
            Row { mask: 0x800000000000000000000000001ffff8, symbols: &[Act(89)] },
            Row { mask: 0x40000000000000000000, symbols: &[Need(78), Rule(49), Rule(42)] },
        ],
        // properties ::= @Open property Comma property other_properties
        43 => &[
            Row { mask: 0x3c01e040000000000, symbols: &[Act(6), Rule(64), Need(78), Rule(64), Rule(44)] },
        ],
        // other_properties ::= @ShutList | Comma property other_properties
        44 => &[
            Row { mask: 0x8000000000000000000000000000fff0, symbols: &[Act(89)] },
            Row { mask: 0x40000000000000000000, symbols: &[Need(78), Rule(64), Rule(44)] },
        ],
        // individuals ::= @Open individual Comma individual other_individuals
        45 => &[
            Row { mask: 0x7c01e000000000000, symbols: &[Act(6), Rule(74), Need(78), Rule(74), Rule(46)] },
        ],
        // other_individuals ::= @ShutList | Comma individual other_individuals
        46 => &[
            Row { mask: 0x8000000000000000000000000000fff0, symbols: &[Act(89)] },
            Row { mask: 0x40000000000000000000, symbols: &[Need(78), Rule(74), Rule(46)] },
        ],
        // other_keys ::= @ShutList | property other_keys
        47 => &[
            Row { mask: 0x800000000000000000000000001ffff8, symbols: &[Act(89)] },
            Row { mask: 0x3c01e040000000000, symbols: &[Rule(64), Rule(47)] },
        ],
        // other_links ::= @ShutList | Composed property other_links
        48 => &[
            Row { mask: 0x80000000000000000000000007e6fff8, symbols: &[Act(89)] },
            Row { mask: 0x80000000000, symbols: &[Need(43), Rule(64), Rule(48)] },
        ],
        // expression ::= @Open conjunction other_operands
        49 => &[
            Row { mask: 0x503c01e040200000000, symbols: &[Act(6), Rule(51), Rule(50)] },
        ],
        // other_operands ::= @ShutOr | Or conjunction other_operands
        50 => &[
            Row { mask: 0x8000000000004200000000007ffffff8, symbols: &[Act(70)] },
            Row { mask: 0x100000000, symbols: &[Need(32), Rule(51), Rule(50)] },
        ],
        // conjunction ::= @Open name behind_first_name | @Open unnamed other_conjuncts
        51 => &[
            Row { mask: 0x3c01e000000000000, symbols: &[Act(6), Rule(75), Rule(52)] },
            Row { mask: 0x5000000040200000000, symbols: &[Act(6), Rule(57), Rule(53)] },
        ],
        // behind_first_name ::= That that_part other_that_parts | behind_name other_conjuncts
        52 => &[
            Row { mask: 0x400000000, symbols: &[Need(34), Rule(54), Rule(55)] },
            Row { mask: 0x8000000000005200000003f9fffffff8, symbols: &[Rule(60), Rule(53)] },
        ],
        // other_conjuncts ::= @ShutAnd | And primary other_conjuncts
        53 => &[
            Row { mask: 0x8000000000004200000000017ffffff8, symbols: &[Act(71)] },
            Row { mask: 0x80000000, symbols: &[Need(31), Rule(56), Rule(53)] },
        ],
        // that_part ::= restriction | @Open @Nest Not restriction @Unnest @ShutNot
        54 => &[
            Row { mask: 0x3c01e040000000000, symbols: &[Rule(61)] },
            Row { mask: 0x200000000, symbols: &[Act(6), Act(9), Need(33), Rule(61), Act(10), Act(73)] },
        ],
        // other_that_parts ::= @ShutThat | And that_part other_that_parts
        55 => &[
            Row { mask: 0x8000000000004200000000017ffffff8, symbols: &[Act(72)] },
            Row { mask: 0x80000000, symbols: &[Need(31), Rule(54), Rule(55)] },
        ],
        // primary ::= name behind_name | unnamed
        56 => &[
            Row { mask: 0x3c01e000000000000, symbols: &[Rule(75), Rule(60)] },
            Row { mask: 0x5000000040200000000, symbols: &[Rule(57)] },
        ],
        // unnamed ::= grouped | @Open @Nest Not positive @Unnest @ShutNot
        57 => &[
            Row { mask: 0x5000000040000000000, symbols: &[Rule(59)] },
            Row { mask: 0x200000000, symbols: &[Act(6), Act(9), Need(33), Rule(58), Act(10), Act(73)] },
        ],
        // positive ::= name behind_name | grouped
        58 => &[
            Row { mask: 0x3c01e000000000000, symbols: &[Rule(75), Rule(60)] },
            Row { mask: 0x5000000040000000000, symbols: &[Rule(59)] },
        ],
        // grouped ::= inverse restricted
        //     | @Open @Nest OpenBrace members
        //     | @Open @Nest OpenParenthesis expression @ShutBracket @Unnest CloseParenthesis
        59 => &[
            Row { mask: 0x40000000000, symbols: &[Rule(65), Rule(62)] },
            Row { mask: 0x4000000000000000000, symbols: &[Act(6), Act(9), Need(74), Rule(67)] },
            Row { mask: 0x1000000000000000000, symbols: &[Act(6), Act(9), Need(72), Rule(49), Act(85), Act(10), Need(73)] },
        ],
        // behind_name ::= % | restricted | @Wrap @Nest OpenBracket facets @ShutRestricted @Unnest CloseBracket
        60 => &[
            Row { mask: 0x800000000000420000000001fffffff8, symbols: &[] },
            Row { mask: 0x3f800000000, symbols: &[Rule(62)] },
            Row { mask: 0x10000000000000000000, symbols: &[Act(12), Act(9), Need(76), Rule(70), Act(81), Act(10), Need(77)] },
        ],
        // restriction ::= property restricted
        61 => &[
            Row { mask: 0x3c01e040000000000, symbols: &[Rule(64), Rule(62)] },
        ],
        // restricted ::= @Wrap @Nest Some primary @Unnest @ShutSomeOf
        //     | @Wrap @Nest Only primary @Unnest @ShutOnlyOf
        //     | @Wrap Value value @ShutHasValue
        //     | @Wrap SelfWord @ShutHasSelf
        //     | @Wrap @Nest Min @Number Digits filler @Unnest @ShutMin
        //     | @Wrap @Nest Max @Number Digits filler @Unnest @ShutMax
        //     | @Wrap @Nest Exactly @Number Digits filler @Unnest @ShutExactly
        62 => &[
            Row { mask: 0x800000000, symbols: &[Act(12), Act(9), Need(35), Rule(56), Act(10), Act(74)] },
            Row { mask: 0x1000000000, symbols: &[Act(12), Act(9), Need(36), Rule(56), Act(10), Act(75)] },
            Row { mask: 0x2000000000, symbols: &[Act(12), Need(37), Rule(73), Act(76)] },
            Row { mask: 0x4000000000, symbols: &[Act(12), Need(38), Act(77)] },
            Row { mask: 0x8000000000, symbols: &[Act(12), Act(9), Need(39), Act(13), Need(69), Rule(63), Act(10), Act(78)] },
            Row { mask: 0x10000000000, symbols: &[Act(12), Act(9), Need(40), Act(13), Need(69), Rule(63), Act(10), Act(79)] },
            Row { mask: 0x20000000000, symbols: &[Act(12), Act(9), Need(41), Act(13), Need(69), Rule(63), Act(10), Act(80)] },
        ],
        // filler ::= % | primary
        63 => &[
            Row { mask: 0x800000000000420000000001fffffff8, symbols: &[] },
            Row { mask: 0x503c01e040200000000, symbols: &[Rule(56)] },
        ],
        // property ::= name | inverse
        64 => &[
            Row { mask: 0x3c01e000000000000, symbols: &[Rule(75)] },
            Row { mask: 0x40000000000, symbols: &[Rule(65)] },
        ],
        // inverse ::= @Open Inverse inverse_name @ShutInverse
        65 => &[
            Row { mask: 0x40000000000, symbols: &[Act(6), Need(42), Rule(66), Act(69)] },
        ],
        // inverse_name ::= name | @Nest OpenParenthesis name @Unnest CloseParenthesis
        66 => &[
            Row { mask: 0x3c01e000000000000, symbols: &[Rule(75)] },
            Row { mask: 0x1000000000000000000, symbols: &[Act(9), Need(72), Rule(75), Act(10), Need(73)] },
        ],
        // members ::= individual other_member_individuals | literal other_member_literals
        67 => &[
            Row { mask: 0x7c01e000000000000, symbols: &[Rule(74), Rule(68)] },
            Row { mask: 0xe80060000000000000, symbols: &[Rule(79), Rule(69)] },
        ],
        // other_member_individuals ::= @ShutIndividuals @Unnest CloseBrace | Comma individual other_member_individuals
        68 => &[
            Row { mask: 0x8000000000000000000, symbols: &[Act(83), Act(10), Need(75)] },
            Row { mask: 0x40000000000000000000, symbols: &[Need(78), Rule(74), Rule(68)] },
        ],
        // other_member_literals ::= @ShutLiterals @Unnest CloseBrace | Comma literal other_member_literals
        69 => &[
            Row { mask: 0x8000000000000000000, symbols: &[Act(84), Act(10), Need(75)] },
            Row { mask: 0x40000000000000000000, symbols: &[Need(78), Rule(79), Rule(69)] },
        ],
        // facets ::= @Open one_facet literal @ShutFacetPair other_facets
        70 => &[
            Row { mask: 0xf00000001f00000000000, symbols: &[Act(6), Rule(72), Rule(79), Act(82), Rule(71)] },
        ],
        // other_facets ::= % | Comma facets
        71 => &[
            Row { mask: 0x80000000000020000000000000000000, symbols: &[] },
            Row { mask: 0x40000000000000000000, symbols: &[Need(78), Rule(70)] },
        ],
        // one_facet ::= @FacetAtMost AtMost
        //     | @FacetLessThan LessThan
        //     | @FacetAtLeast AtLeast
        //     | @FacetMoreThan MoreThan
        //     | @FacetLength Length
        //     | @FacetMinLength MinLength
        //     | @FacetMaxLength MaxLength
        //     | @FacetPattern Pattern
        //     | @FacetLangRange LangRange
        72 => &[
            Row { mask: 0x100000000000000000000, symbols: &[Act(58), Need(80)] },
            Row { mask: 0x200000000000000000000, symbols: &[Act(59), Need(81)] },
            Row { mask: 0x400000000000000000000, symbols: &[Act(60), Need(82)] },
            Row { mask: 0x800000000000000000000, symbols: &[Act(61), Need(83)] },
            Row { mask: 0x100000000000, symbols: &[Act(62), Need(44)] },
            Row { mask: 0x200000000000, symbols: &[Act(63), Need(45)] },
            Row { mask: 0x400000000000, symbols: &[Act(64), Need(46)] },
            Row { mask: 0x800000000000, symbols: &[Act(65), Need(47)] },
            Row { mask: 0x1000000000000, symbols: &[Act(66), Need(48)] },
        ],
        // value ::= individual | literal
        73 => &[
            Row { mask: 0x7c01e000000000000, symbols: &[Rule(74)] },
            Row { mask: 0xe80060000000000000, symbols: &[Rule(79)] },
        ],
        // individual ::= name | @Label Blank
        74 => &[
            Row { mask: 0x3c01e000000000000, symbols: &[Rule(75)] },
            Row { mask: 0x40000000000000000, symbols: &[Act(16), Need(66)] },
        ],
        // name ::= @Name name_word | @TypeName type_word
        75 => &[
            Row { mask: 0x3c000000000000000, symbols: &[Act(14), Rule(76)] },
            Row { mask: 0x1e000000000000, symbols: &[Act(15), Rule(77)] },
        ],
        // name_word ::= IriRef | Prefixed | Namespace | PlainWord
        76 => &[
            Row { mask: 0x8000000000000000, symbols: &[Need(63)] },
            Row { mask: 0x10000000000000000, symbols: &[Need(64)] },
            Row { mask: 0x20000000000000000, symbols: &[Need(65)] },
            Row { mask: 0x4000000000000000, symbols: &[Need(62)] },
        ],
        // type_word ::= IntegerWord | DecimalWord | FloatWord | StringWord
        77 => &[
            Row { mask: 0x2000000000000, symbols: &[Need(49)] },
            Row { mask: 0x4000000000000, symbols: &[Need(50)] },
            Row { mask: 0x8000000000000, symbols: &[Need(51)] },
            Row { mask: 0x10000000000000, symbols: &[Need(52)] },
        ],
        // iri ::= IriRef | Prefixed | Namespace
        78 => &[
            Row { mask: 0x8000000000000000, symbols: &[Need(63)] },
            Row { mask: 0x10000000000000000, symbols: &[Need(64)] },
            Row { mask: 0x20000000000000000, symbols: &[Need(65)] },
        ],
        // literal ::= @Text Text suffix | @Shorthand shorthand
        79 => &[
            Row { mask: 0x80000000000000000, symbols: &[Act(17), Need(67), Rule(80)] },
            Row { mask: 0xe00060000000000000, symbols: &[Act(21), Rule(81)] },
        ],
        // suffix ::= @Plain | @Tagged Language | Carets @Typed iri
        80 => &[
            Row { mask: 0x8000000000006f07ff9e0403fffffff8, symbols: &[Act(18)] },
            Row { mask: 0x100000000000000000, symbols: &[Act(19), Need(68)] },
            Row { mask: 0x80000000000000000000, symbols: &[Need(79), Act(20), Rule(78)] },
        ],
        // shorthand ::= Digits | Signed | Decimal | TrueWord | FalseWord
        81 => &[
            Row { mask: 0x200000000000000000, symbols: &[Need(69)] },
            Row { mask: 0x400000000000000000, symbols: &[Need(70)] },
            Row { mask: 0x800000000000000000, symbols: &[Need(71)] },
            Row { mask: 0x20000000000000, symbols: &[Need(53)] },
            Row { mask: 0x40000000000000, symbols: &[Need(54)] },
        ],
        _ => &[],
    }
}
