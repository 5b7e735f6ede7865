//! The table of a grammar, made by `tools/make_grammar.py`.

ghost use Rattle.std.specs.Prelude.{◌≡◌};
ghost use Rattle.grammar.specs.Grammars.{entry};
ghost use Rattle.grammar.specs.Tables.{rows_seen};
ghost use Rattle.fss_grammar.specs.Table.{functional};

use grammar::Row;
use grammar::Symbol::{Act, Need, Rule};

/// The alternatives of each rule.
#[rattlefmt::skip]
#[tactic(auto, unfolding(crate::specs::Table::functional, crate::specs::Table::functional_document, crate::specs::Table::functional_prefixes, crate::specs::Table::functional_header, crate::specs::Table::functional_version, crate::specs::Table::functional_imports, crate::specs::Table::functional_annotations, crate::specs::Table::functional_axioms, crate::specs::Table::functional_axiom, crate::specs::Table::functional_iri, crate::specs::Table::functional_suffix, crate::specs::Table::functional_after, crate::specs::Table::functional_behind, crate::specs::Table::functional_one_notes, crate::specs::Table::functional_one_annotation, crate::specs::Table::functional_one_annotation_property, crate::specs::Table::functional_one_annotation_subject, crate::specs::Table::functional_one_annotation_value, crate::specs::Table::functional_one_iri, crate::specs::Table::functional_one_class_expression, crate::specs::Table::functional_one_class, crate::specs::Table::functional_one_data_range, crate::specs::Table::functional_one_datatype, crate::specs::Table::functional_one_object_property_expression, crate::specs::Table::functional_one_object_property, crate::specs::Table::functional_one_sub_object_property_expression, crate::specs::Table::functional_one_data_property_expression, crate::specs::Table::functional_one_individual, crate::specs::Table::functional_one_literal, crate::specs::Table::functional_one_number, crate::specs::Table::functional_one_facet, crate::specs::Table::functional_one_facet_pair, crate::specs::Table::functional_one_object_keys, crate::specs::Table::functional_one_data_keys, crate::specs::Table::functional_one_entity, crate::specs::Table::functional_many_annotation, crate::specs::Table::functional_many_class_expression, crate::specs::Table::functional_many_data_range, crate::specs::Table::functional_many_object_property_expression, crate::specs::Table::functional_many_data_property_expression, crate::specs::Table::functional_many_individual, crate::specs::Table::functional_many_literal, crate::specs::Table::functional_many_facet_pair, crate::specs::Table::functional_maybe_class_expression, crate::specs::Table::functional_maybe_data_range))]
pub fn rows(rule: u16) -> &'static [Row]
    ensures { rows_seen result.now ≡ (entry functional rule).rows }
{
    match rule {
        // document ::= prefixes Ontology @EndItem Opening header imports annotations axioms @EndItem Closing
        0 => &[
            Row { mask: 0xc0000000000000000000, symbols: &[Rule(1), Need(79), Act(92), Need(88), Rule(2), Rule(4), Rule(5), Rule(6), Act(92), Need(89)] },
        ],
        // prefixes ::= % | Prefix Opening @DeclareName Alone Equals @DeclareIri Iri @EndItem Closing prefixes
        1 => &[
            Row { mask: 0x80000000000080000000000000000000, symbols: &[] },
            Row { mask: 0x40000000000000000000, symbols: &[Need(78), Need(88), Act(85), Need(83), Need(90), Act(86), Need(81), Act(92), Need(89), Rule(1)] },
        ],
        // header ::= % | @OntologyIri @EndItem iri version
        2 => &[
            Row { mask: 0x8000000002013ffffffffe8000000000, symbols: &[] },
            Row { mask: 0xe00000000000000000000, symbols: &[Act(87), Act(92), Rule(8), Rule(3)] },
        ],
        // version ::= % | @VersionIri @EndItem iri
        3 => &[
            Row { mask: 0x8000000002013ffffffffe8000000000, symbols: &[] },
            Row { mask: 0xe00000000000000000000, symbols: &[Act(88), Act(92), Rule(8)] },
        ],
        // imports ::= % | Import Opening @ImportIri iri @EndItem Closing imports
        4 => &[
            Row { mask: 0x8000000002003ffffffffe8000000000, symbols: &[] },
            Row { mask: 0x100000000000000000000, symbols: &[Need(80), Need(88), Act(89), Rule(8), Act(92), Need(89), Rule(4)] },
        ],
        // annotations ::= %
        //     | @Annotation KAnnotation Opening one_notes one_annotation_property one_annotation_value @Shut @AddAnnotation @EndItem Closing annotations
        5 => &[
            Row { mask: 0x8000000002003ffffffffe0000000000, symbols: &[] },
            Row { mask: 0x8000000000, symbols: &[Act(39), Need(39), Need(88), Rule(12), Rule(14), Rule(16), Act(78), Act(90), Act(92), Need(89), Rule(5)] },
        ],
        // axioms ::= % | axiom axioms
        6 => &[
            Row { mask: 0x80000000020000000000000000000000, symbols: &[] },
            Row { mask: 0x3ffffffffe0000000000, symbols: &[Rule(7), Rule(6)] },
        ],
        // axiom ::= @Declaration KDeclaration Opening one_notes one_entity @Shut @AddAxiom @EndItem Closing
        //     | @SubClassOf KSubClassOf Opening one_notes one_class_expression one_class_expression @Shut @AddAxiom @EndItem Closing
        //     | @EquivalentClasses KEquivalentClasses Opening one_notes one_class_expression one_class_expression many_class_expression @Shut @AddAxiom @EndItem Closing
        //     | @DisjointClasses KDisjointClasses Opening one_notes one_class_expression one_class_expression many_class_expression @Shut @AddAxiom @EndItem Closing
        //     | @DisjointUnion KDisjointUnion Opening one_notes one_class one_class_expression one_class_expression many_class_expression @Shut @AddAxiom @EndItem Closing
        //     | @SubObjectPropertyOf KSubObjectPropertyOf Opening one_notes one_sub_object_property_expression one_object_property_expression @Shut @AddAxiom @EndItem Closing
        //     | @EquivalentObjectProperties KEquivalentObjectProperties Opening one_notes one_object_property_expression one_object_property_expression many_object_property_expression @Shut @AddAxiom @EndItem Closing
        //     | @DisjointObjectProperties KDisjointObjectProperties Opening one_notes one_object_property_expression one_object_property_expression many_object_property_expression @Shut @AddAxiom @EndItem Closing
        //     | @InverseObjectProperties KInverseObjectProperties Opening one_notes one_object_property_expression one_object_property_expression @Shut @AddAxiom @EndItem Closing
        //     | @ObjectPropertyDomain KObjectPropertyDomain Opening one_notes one_object_property_expression one_class_expression @Shut @AddAxiom @EndItem Closing
        //     | @ObjectPropertyRange KObjectPropertyRange Opening one_notes one_object_property_expression one_class_expression @Shut @AddAxiom @EndItem Closing
        //     | @FunctionalObjectProperty KFunctionalObjectProperty Opening one_notes one_object_property_expression @Shut @AddAxiom @EndItem Closing
        //     | @InverseFunctionalObjectProperty KInverseFunctionalObjectProperty Opening one_notes one_object_property_expression @Shut @AddAxiom @EndItem Closing
        //     | @ReflexiveObjectProperty KReflexiveObjectProperty Opening one_notes one_object_property_expression @Shut @AddAxiom @EndItem Closing
        //     | @IrreflexiveObjectProperty KIrreflexiveObjectProperty Opening one_notes one_object_property_expression @Shut @AddAxiom @EndItem Closing
        //     | @SymmetricObjectProperty KSymmetricObjectProperty Opening one_notes one_object_property_expression @Shut @AddAxiom @EndItem Closing
        //     | @AsymmetricObjectProperty KAsymmetricObjectProperty Opening one_notes one_object_property_expression @Shut @AddAxiom @EndItem Closing
        //     | @TransitiveObjectProperty KTransitiveObjectProperty Opening one_notes one_object_property_expression @Shut @AddAxiom @EndItem Closing
        //     | @SubDataPropertyOf KSubDataPropertyOf Opening one_notes one_data_property_expression one_data_property_expression @Shut @AddAxiom @EndItem Closing
        //     | @EquivalentDataProperties KEquivalentDataProperties Opening one_notes one_data_property_expression one_data_property_expression many_data_property_expression @Shut @AddAxiom @EndItem Closing
        //     | @DisjointDataProperties KDisjointDataProperties Opening one_notes one_data_property_expression one_data_property_expression many_data_property_expression @Shut @AddAxiom @EndItem Closing
        //     | @DataPropertyDomain KDataPropertyDomain Opening one_notes one_data_property_expression one_class_expression @Shut @AddAxiom @EndItem Closing
        //     | @DataPropertyRange KDataPropertyRange Opening one_notes one_data_property_expression one_data_range @Shut @AddAxiom @EndItem Closing
        //     | @FunctionalDataProperty KFunctionalDataProperty Opening one_notes one_data_property_expression @Shut @AddAxiom @EndItem Closing
        //     | @DatatypeDefinition KDatatypeDefinition Opening one_notes one_datatype one_data_range @Shut @AddAxiom @EndItem Closing
        //     | @HasKey KHasKey Opening one_notes one_class_expression one_object_keys one_data_keys @Shut @AddAxiom @EndItem Closing
        //     | @SameIndividual KSameIndividual Opening one_notes one_individual one_individual many_individual @Shut @AddAxiom @EndItem Closing
        //     | @DifferentIndividuals KDifferentIndividuals Opening one_notes one_individual one_individual many_individual @Shut @AddAxiom @EndItem Closing
        //     | @ClassAssertion KClassAssertion Opening one_notes one_class_expression one_individual @Shut @AddAxiom @EndItem Closing
        //     | @ObjectPropertyAssertion KObjectPropertyAssertion Opening one_notes one_object_property_expression one_individual one_individual @Shut @AddAxiom @EndItem Closing
        //     | @NegativeObjectPropertyAssertion KNegativeObjectPropertyAssertion Opening one_notes one_object_property_expression one_individual one_individual @Shut @AddAxiom @EndItem Closing
        //     | @DataPropertyAssertion KDataPropertyAssertion Opening one_notes one_data_property_expression one_individual one_literal @Shut @AddAxiom @EndItem Closing
        //     | @NegativeDataPropertyAssertion KNegativeDataPropertyAssertion Opening one_notes one_data_property_expression one_individual one_literal @Shut @AddAxiom @EndItem Closing
        //     | @AnnotationAssertion KAnnotationAssertion Opening one_notes one_annotation_property one_annotation_subject one_annotation_value @Shut @AddAxiom @EndItem Closing
        //     | @SubAnnotationPropertyOf KSubAnnotationPropertyOf Opening one_notes one_annotation_property one_annotation_property @Shut @AddAxiom @EndItem Closing
        //     | @AnnotationPropertyDomain KAnnotationPropertyDomain Opening one_notes one_annotation_property one_iri @Shut @AddAxiom @EndItem Closing
        //     | @AnnotationPropertyRange KAnnotationPropertyRange Opening one_notes one_annotation_property one_iri @Shut @AddAxiom @EndItem Closing
        7 => &[
            Row { mask: 0x20000000000, symbols: &[Act(41), Need(41), Need(88), Rule(12), Rule(33), Act(78), Act(91), Act(92), Need(89)] },
            Row { mask: 0x40000000000, symbols: &[Act(42), Need(42), Need(88), Rule(12), Rule(18), Rule(18), Act(78), Act(91), Act(92), Need(89)] },
            Row { mask: 0x80000000000, symbols: &[Act(43), Need(43), Need(88), Rule(12), Rule(18), Rule(18), Rule(35), Act(78), Act(91), Act(92), Need(89)] },
            Row { mask: 0x100000000000, symbols: &[Act(44), Need(44), Need(88), Rule(12), Rule(18), Rule(18), Rule(35), Act(78), Act(91), Act(92), Need(89)] },
            Row { mask: 0x200000000000, symbols: &[Act(45), Need(45), Need(88), Rule(12), Rule(19), Rule(18), Rule(18), Rule(35), Act(78), Act(91), Act(92), Need(89)] },
            Row { mask: 0x400000000000, symbols: &[Act(46), Need(46), Need(88), Rule(12), Rule(24), Rule(22), Act(78), Act(91), Act(92), Need(89)] },
            Row { mask: 0x800000000000, symbols: &[Act(47), Need(47), Need(88), Rule(12), Rule(22), Rule(22), Rule(37), Act(78), Act(91), Act(92), Need(89)] },
            Row { mask: 0x1000000000000, symbols: &[Act(48), Need(48), Need(88), Rule(12), Rule(22), Rule(22), Rule(37), Act(78), Act(91), Act(92), Need(89)] },
            Row { mask: 0x2000000000000, symbols: &[Act(49), Need(49), Need(88), Rule(12), Rule(22), Rule(22), Act(78), Act(91), Act(92), Need(89)] },
            Row { mask: 0x4000000000000, symbols: &[Act(50), Need(50), Need(88), Rule(12), Rule(22), Rule(18), Act(78), Act(91), Act(92), Need(89)] },
            Row { mask: 0x8000000000000, symbols: &[Act(51), Need(51), Need(88), Rule(12), Rule(22), Rule(18), Act(78), Act(91), Act(92), Need(89)] },
            Row { mask: 0x10000000000000, symbols: &[Act(52), Need(52), Need(88), Rule(12), Rule(22), Act(78), Act(91), Act(92), Need(89)] },
            Row { mask: 0x20000000000000, symbols: &[Act(53), Need(53), Need(88), Rule(12), Rule(22), Act(78), Act(91), Act(92), Need(89)] },
            Row { mask: 0x40000000000000, symbols: &[Act(54), Need(54), Need(88), Rule(12), Rule(22), Act(78), Act(91), Act(92), Need(89)] },
            Row { mask: 0x80000000000000, symbols: &[Act(55), Need(55), Need(88), Rule(12), Rule(22), Act(78), Act(91), Act(92), Need(89)] },
            Row { mask: 0x100000000000000, symbols: &[Act(56), Need(56), Need(88), Rule(12), Rule(22), Act(78), Act(91), Act(92), Need(89)] },
            Row { mask: 0x200000000000000, symbols: &[Act(57), Need(57), Need(88), Rule(12), Rule(22), Act(78), Act(91), Act(92), Need(89)] },
            Row { mask: 0x400000000000000, symbols: &[Act(58), Need(58), Need(88), Rule(12), Rule(22), Act(78), Act(91), Act(92), Need(89)] },
            Row { mask: 0x800000000000000, symbols: &[Act(59), Need(59), Need(88), Rule(12), Rule(25), Rule(25), Act(78), Act(91), Act(92), Need(89)] },
            Row { mask: 0x1000000000000000, symbols: &[Act(60), Need(60), Need(88), Rule(12), Rule(25), Rule(25), Rule(38), Act(78), Act(91), Act(92), Need(89)] },
            Row { mask: 0x2000000000000000, symbols: &[Act(61), Need(61), Need(88), Rule(12), Rule(25), Rule(25), Rule(38), Act(78), Act(91), Act(92), Need(89)] },
            Row { mask: 0x4000000000000000, symbols: &[Act(62), Need(62), Need(88), Rule(12), Rule(25), Rule(18), Act(78), Act(91), Act(92), Need(89)] },
            Row { mask: 0x8000000000000000, symbols: &[Act(63), Need(63), Need(88), Rule(12), Rule(25), Rule(20), Act(78), Act(91), Act(92), Need(89)] },
            Row { mask: 0x10000000000000000, symbols: &[Act(64), Need(64), Need(88), Rule(12), Rule(25), Act(78), Act(91), Act(92), Need(89)] },
            Row { mask: 0x20000000000000000, symbols: &[Act(65), Need(65), Need(88), Rule(12), Rule(21), Rule(20), Act(78), Act(91), Act(92), Need(89)] },
            Row { mask: 0x40000000000000000, symbols: &[Act(66), Need(66), Need(88), Rule(12), Rule(18), Rule(31), Rule(32), Act(78), Act(91), Act(92), Need(89)] },
            Row { mask: 0x80000000000000000, symbols: &[Act(67), Need(67), Need(88), Rule(12), Rule(26), Rule(26), Rule(39), Act(78), Act(91), Act(92), Need(89)] },
            Row { mask: 0x100000000000000000, symbols: &[Act(68), Need(68), Need(88), Rule(12), Rule(26), Rule(26), Rule(39), Act(78), Act(91), Act(92), Need(89)] },
            Row { mask: 0x200000000000000000, symbols: &[Act(69), Need(69), Need(88), Rule(12), Rule(18), Rule(26), Act(78), Act(91), Act(92), Need(89)] },
            Row { mask: 0x400000000000000000, symbols: &[Act(70), Need(70), Need(88), Rule(12), Rule(22), Rule(26), Rule(26), Act(78), Act(91), Act(92), Need(89)] },
            Row { mask: 0x800000000000000000, symbols: &[Act(71), Need(71), Need(88), Rule(12), Rule(22), Rule(26), Rule(26), Act(78), Act(91), Act(92), Need(89)] },
            Row { mask: 0x1000000000000000000, symbols: &[Act(72), Need(72), Need(88), Rule(12), Rule(25), Rule(26), Rule(27), Act(78), Act(91), Act(92), Need(89)] },
            Row { mask: 0x2000000000000000000, symbols: &[Act(73), Need(73), Need(88), Rule(12), Rule(25), Rule(26), Rule(27), Act(78), Act(91), Act(92), Need(89)] },
            Row { mask: 0x4000000000000000000, symbols: &[Act(74), Need(74), Need(88), Rule(12), Rule(14), Rule(15), Rule(16), Act(78), Act(91), Act(92), Need(89)] },
            Row { mask: 0x8000000000000000000, symbols: &[Act(75), Need(75), Need(88), Rule(12), Rule(14), Rule(14), Act(78), Act(91), Act(92), Need(89)] },
            Row { mask: 0x10000000000000000000, symbols: &[Act(76), Need(76), Need(88), Rule(12), Rule(14), Rule(17), Act(78), Act(91), Act(92), Need(89)] },
            Row { mask: 0x20000000000000000000, symbols: &[Act(77), Need(77), Need(88), Rule(12), Rule(14), Rule(17), Act(78), Act(91), Act(92), Need(89)] },
        ],
        // iri ::= Iri | Name | Alone
        8 => &[
            Row { mask: 0x200000000000000000000, symbols: &[Need(81)] },
            Row { mask: 0x400000000000000000000, symbols: &[Need(82)] },
            Row { mask: 0x800000000000000000000, symbols: &[Need(83)] },
        ],
        // suffix ::= @Plain | @Tagged Language | Carets @Typed iri
        9 => &[
            Row { mask: 0x80000000022e00000000000000000000, symbols: &[Act(79)] },
            Row { mask: 0x4000000000000000000000, symbols: &[Act(80), Need(86)] },
            Row { mask: 0x80000000000000000000000, symbols: &[Need(91), Act(81), Rule(8)] },
        ],
        // after ::= @Hold iri behind
        //     | @DataIntersectionOf KDataIntersectionOf Opening one_data_range one_data_range many_data_range @Shut Closing
        //     | @DataUnionOf KDataUnionOf Opening one_data_range one_data_range many_data_range @Shut Closing
        //     | @DataComplementOf KDataComplementOf Opening one_data_range @Shut Closing
        //     | @DataOneOf KDataOneOf Opening one_literal many_literal @Shut Closing
        //     | @DatatypeRestriction KDatatypeRestriction Opening one_datatype one_facet_pair many_facet_pair @Shut Closing
        10 => &[
            Row { mask: 0xe00000000000000000000, symbols: &[Act(82), Rule(8), Rule(11)] },
            Row { mask: 0x80000000, symbols: &[Act(31), Need(31), Need(88), Rule(20), Rule(20), Rule(36), Act(78), Need(89)] },
            Row { mask: 0x100000000, symbols: &[Act(32), Need(32), Need(88), Rule(20), Rule(20), Rule(36), Act(78), Need(89)] },
            Row { mask: 0x200000000, symbols: &[Act(33), Need(33), Need(88), Rule(20), Act(78), Need(89)] },
            Row { mask: 0x400000000, symbols: &[Act(34), Need(34), Need(88), Rule(27), Rule(40), Act(78), Need(89)] },
            Row { mask: 0x800000000, symbols: &[Act(35), Need(35), Need(88), Rule(21), Rule(30), Rule(41), Act(78), Need(89)] },
        ],
        // behind ::= @HeldDatatype | @HeldProperty after
        11 => &[
            Row { mask: 0x80000000020000000000000000000000, symbols: &[Act(84)] },
            Row { mask: 0xe00000000000f80000000, symbols: &[Act(83), Rule(10)] },
        ],
        // one_notes ::= @Notes many_annotation @Shut
        12 => &[
            Row { mask: 0x80000000001e0000000000807ffff07e, symbols: &[Act(40), Rule(34), Act(78)] },
        ],
        // one_annotation ::= @Annotation KAnnotation Opening one_notes one_annotation_property one_annotation_value @Shut Closing
        13 => &[
            Row { mask: 0x8000000000, symbols: &[Act(39), Need(39), Need(88), Rule(12), Rule(14), Rule(16), Act(78), Need(89)] },
        ],
        // one_annotation_property ::= @AnnotationProperty iri
        14 => &[
            Row { mask: 0xe00000000000000000000, symbols: &[Act(5), Rule(8)] },
        ],
        // one_annotation_subject ::= @Anonymous Label | @PlainIri iri
        15 => &[
            Row { mask: 0x1000000000000000000000, symbols: &[Act(7), Need(84)] },
            Row { mask: 0xe00000000000000000000, symbols: &[Act(8), Rule(8)] },
        ],
        // one_annotation_value ::= @Anonymous Label | @PlainIri iri | @Literal Text suffix
        16 => &[
            Row { mask: 0x1000000000000000000000, symbols: &[Act(7), Need(84)] },
            Row { mask: 0xe00000000000000000000, symbols: &[Act(8), Rule(8)] },
            Row { mask: 0x2000000000000000000000, symbols: &[Act(9), Need(85), Rule(9)] },
        ],
        // one_iri ::= @PlainIri iri
        17 => &[
            Row { mask: 0xe00000000000000000000, symbols: &[Act(8), Rule(8)] },
        ],
        // one_class_expression ::= @Class iri
        //     | @ObjectIntersectionOf KObjectIntersectionOf Opening one_class_expression one_class_expression many_class_expression @Shut Closing
        //     | @ObjectUnionOf KObjectUnionOf Opening one_class_expression one_class_expression many_class_expression @Shut Closing
        //     | @ObjectComplementOf KObjectComplementOf Opening one_class_expression @Shut Closing
        //     | @ObjectOneOf KObjectOneOf Opening one_individual many_individual @Shut Closing
        //     | @ObjectSomeValuesFrom KObjectSomeValuesFrom Opening one_object_property_expression one_class_expression @Shut Closing
        //     | @ObjectAllValuesFrom KObjectAllValuesFrom Opening one_object_property_expression one_class_expression @Shut Closing
        //     | @ObjectHasValue KObjectHasValue Opening one_object_property_expression one_individual @Shut Closing
        //     | @ObjectHasSelf KObjectHasSelf Opening one_object_property_expression @Shut Closing
        //     | @ObjectMinCardinality KObjectMinCardinality Opening one_number one_object_property_expression maybe_class_expression @Shut Closing
        //     | @ObjectMaxCardinality KObjectMaxCardinality Opening one_number one_object_property_expression maybe_class_expression @Shut Closing
        //     | @ObjectExactCardinality KObjectExactCardinality Opening one_number one_object_property_expression maybe_class_expression @Shut Closing
        //     | @DataSomeValuesFrom KDataSomeValuesFrom Opening one_data_property_expression after @Shut Closing
        //     | @DataAllValuesFrom KDataAllValuesFrom Opening one_data_property_expression after @Shut Closing
        //     | @DataHasValue KDataHasValue Opening one_data_property_expression one_literal @Shut Closing
        //     | @DataMinCardinality KDataMinCardinality Opening one_number one_data_property_expression maybe_data_range @Shut Closing
        //     | @DataMaxCardinality KDataMaxCardinality Opening one_number one_data_property_expression maybe_data_range @Shut Closing
        //     | @DataExactCardinality KDataExactCardinality Opening one_number one_data_property_expression maybe_data_range @Shut Closing
        18 => &[
            Row { mask: 0xe00000000000000000000, symbols: &[Act(1), Rule(8)] },
            Row { mask: 0x4000, symbols: &[Act(14), Need(14), Need(88), Rule(18), Rule(18), Rule(35), Act(78), Need(89)] },
            Row { mask: 0x8000, symbols: &[Act(15), Need(15), Need(88), Rule(18), Rule(18), Rule(35), Act(78), Need(89)] },
            Row { mask: 0x10000, symbols: &[Act(16), Need(16), Need(88), Rule(18), Act(78), Need(89)] },
            Row { mask: 0x20000, symbols: &[Act(17), Need(17), Need(88), Rule(26), Rule(39), Act(78), Need(89)] },
            Row { mask: 0x40000, symbols: &[Act(18), Need(18), Need(88), Rule(22), Rule(18), Act(78), Need(89)] },
            Row { mask: 0x80000, symbols: &[Act(19), Need(19), Need(88), Rule(22), Rule(18), Act(78), Need(89)] },
            Row { mask: 0x100000, symbols: &[Act(20), Need(20), Need(88), Rule(22), Rule(26), Act(78), Need(89)] },
            Row { mask: 0x200000, symbols: &[Act(21), Need(21), Need(88), Rule(22), Act(78), Need(89)] },
            Row { mask: 0x400000, symbols: &[Act(22), Need(22), Need(88), Rule(28), Rule(22), Rule(42), Act(78), Need(89)] },
            Row { mask: 0x800000, symbols: &[Act(23), Need(23), Need(88), Rule(28), Rule(22), Rule(42), Act(78), Need(89)] },
            Row { mask: 0x1000000, symbols: &[Act(24), Need(24), Need(88), Rule(28), Rule(22), Rule(42), Act(78), Need(89)] },
            Row { mask: 0x2000000, symbols: &[Act(25), Need(25), Need(88), Rule(25), Rule(10), Act(78), Need(89)] },
            Row { mask: 0x4000000, symbols: &[Act(26), Need(26), Need(88), Rule(25), Rule(10), Act(78), Need(89)] },
            Row { mask: 0x8000000, symbols: &[Act(27), Need(27), Need(88), Rule(25), Rule(27), Act(78), Need(89)] },
            Row { mask: 0x10000000, symbols: &[Act(28), Need(28), Need(88), Rule(28), Rule(25), Rule(43), Act(78), Need(89)] },
            Row { mask: 0x20000000, symbols: &[Act(29), Need(29), Need(88), Rule(28), Rule(25), Rule(43), Act(78), Need(89)] },
            Row { mask: 0x40000000, symbols: &[Act(30), Need(30), Need(88), Rule(28), Rule(25), Rule(43), Act(78), Need(89)] },
        ],
        // one_class ::= @Class iri
        19 => &[
            Row { mask: 0xe00000000000000000000, symbols: &[Act(1), Rule(8)] },
        ],
        // one_data_range ::= @Datatype iri
        //     | @DataIntersectionOf KDataIntersectionOf Opening one_data_range one_data_range many_data_range @Shut Closing
        //     | @DataUnionOf KDataUnionOf Opening one_data_range one_data_range many_data_range @Shut Closing
        //     | @DataComplementOf KDataComplementOf Opening one_data_range @Shut Closing
        //     | @DataOneOf KDataOneOf Opening one_literal many_literal @Shut Closing
        //     | @DatatypeRestriction KDatatypeRestriction Opening one_datatype one_facet_pair many_facet_pair @Shut Closing
        20 => &[
            Row { mask: 0xe00000000000000000000, symbols: &[Act(2), Rule(8)] },
            Row { mask: 0x80000000, symbols: &[Act(31), Need(31), Need(88), Rule(20), Rule(20), Rule(36), Act(78), Need(89)] },
            Row { mask: 0x100000000, symbols: &[Act(32), Need(32), Need(88), Rule(20), Rule(20), Rule(36), Act(78), Need(89)] },
            Row { mask: 0x200000000, symbols: &[Act(33), Need(33), Need(88), Rule(20), Act(78), Need(89)] },
            Row { mask: 0x400000000, symbols: &[Act(34), Need(34), Need(88), Rule(27), Rule(40), Act(78), Need(89)] },
            Row { mask: 0x800000000, symbols: &[Act(35), Need(35), Need(88), Rule(21), Rule(30), Rule(41), Act(78), Need(89)] },
        ],
        // one_datatype ::= @Datatype iri
        21 => &[
            Row { mask: 0xe00000000000000000000, symbols: &[Act(2), Rule(8)] },
        ],
        // one_object_property_expression ::= @ObjectProperty iri | @ObjectInverseOf KObjectInverseOf Opening one_object_property @Shut Closing
        22 => &[
            Row { mask: 0xe00000000000000000000, symbols: &[Act(3), Rule(8)] },
            Row { mask: 0x1000, symbols: &[Act(12), Need(12), Need(88), Rule(23), Act(78), Need(89)] },
        ],
        // one_object_property ::= @ObjectProperty iri
        23 => &[
            Row { mask: 0xe00000000000000000000, symbols: &[Act(3), Rule(8)] },
        ],
        // one_sub_object_property_expression ::= @ObjectProperty iri
        //     | @ObjectInverseOf KObjectInverseOf Opening one_object_property @Shut Closing
        //     | @ObjectPropertyChain KObjectPropertyChain Opening one_object_property_expression one_object_property_expression many_object_property_expression @Shut Closing
        24 => &[
            Row { mask: 0xe00000000000000000000, symbols: &[Act(3), Rule(8)] },
            Row { mask: 0x1000, symbols: &[Act(12), Need(12), Need(88), Rule(23), Act(78), Need(89)] },
            Row { mask: 0x2000, symbols: &[Act(13), Need(13), Need(88), Rule(22), Rule(22), Rule(37), Act(78), Need(89)] },
        ],
        // one_data_property_expression ::= @DataProperty iri
        25 => &[
            Row { mask: 0xe00000000000000000000, symbols: &[Act(4), Rule(8)] },
        ],
        // one_individual ::= @NamedIndividual iri | @Anonymous Label
        26 => &[
            Row { mask: 0xe00000000000000000000, symbols: &[Act(6), Rule(8)] },
            Row { mask: 0x1000000000000000000000, symbols: &[Act(7), Need(84)] },
        ],
        // one_literal ::= @Literal Text suffix
        27 => &[
            Row { mask: 0x2000000000000000000000, symbols: &[Act(9), Need(85), Rule(9)] },
        ],
        // one_number ::= @Number Digits
        28 => &[
            Row { mask: 0x8000000000000000000000, symbols: &[Act(10), Need(87)] },
        ],
        // one_facet ::= @Facet iri
        29 => &[
            Row { mask: 0xe00000000000000000000, symbols: &[Act(11), Rule(8)] },
        ],
        // one_facet_pair ::= @FacetPair one_facet one_literal @Shut
        30 => &[
            Row { mask: 0xe00000000000000000000, symbols: &[Act(36), Rule(29), Rule(27), Act(78)] },
        ],
        // one_object_keys ::= @ObjectKeys Opening many_object_property_expression @Shut Closing
        31 => &[
            Row { mask: 0x10000000000000000000000, symbols: &[Act(37), Need(88), Rule(37), Act(78), Need(89)] },
        ],
        // one_data_keys ::= @DataKeys Opening many_data_property_expression @Shut Closing
        32 => &[
            Row { mask: 0x10000000000000000000000, symbols: &[Act(38), Need(88), Rule(38), Act(78), Need(89)] },
        ],
        // one_entity ::= KClass Opening @Class iri Closing
        //     | KDatatype Opening @Datatype iri Closing
        //     | KObjectProperty Opening @ObjectProperty iri Closing
        //     | KDataProperty Opening @DataProperty iri Closing
        //     | KAnnotationProperty Opening @AnnotationProperty iri Closing
        //     | KNamedIndividual Opening @NamedIndividual iri Closing
        33 => &[
            Row { mask: 0x2, symbols: &[Need(1), Need(88), Act(1), Rule(8), Need(89)] },
            Row { mask: 0x4, symbols: &[Need(2), Need(88), Act(2), Rule(8), Need(89)] },
            Row { mask: 0x8, symbols: &[Need(3), Need(88), Act(3), Rule(8), Need(89)] },
            Row { mask: 0x10, symbols: &[Need(4), Need(88), Act(4), Rule(8), Need(89)] },
            Row { mask: 0x20, symbols: &[Need(5), Need(88), Act(5), Rule(8), Need(89)] },
            Row { mask: 0x40, symbols: &[Need(6), Need(88), Act(6), Rule(8), Need(89)] },
        ],
        // many_annotation ::= % | one_annotation many_annotation
        34 => &[
            Row { mask: 0x80000000001e0000000000007ffff07e, symbols: &[] },
            Row { mask: 0x8000000000, symbols: &[Rule(13), Rule(34)] },
        ],
        // many_class_expression ::= % | one_class_expression many_class_expression
        35 => &[
            Row { mask: 0x80000000020000000000000000000000, symbols: &[] },
            Row { mask: 0xe0000000000007fffc000, symbols: &[Rule(18), Rule(35)] },
        ],
        // many_data_range ::= % | one_data_range many_data_range
        36 => &[
            Row { mask: 0x80000000020000000000000000000000, symbols: &[] },
            Row { mask: 0xe00000000000f80000000, symbols: &[Rule(20), Rule(36)] },
        ],
        // many_object_property_expression ::= % | one_object_property_expression many_object_property_expression
        37 => &[
            Row { mask: 0x80000000020000000000000000000000, symbols: &[] },
            Row { mask: 0xe00000000000000001000, symbols: &[Rule(22), Rule(37)] },
        ],
        // many_data_property_expression ::= % | one_data_property_expression many_data_property_expression
        38 => &[
            Row { mask: 0x80000000020000000000000000000000, symbols: &[] },
            Row { mask: 0xe00000000000000000000, symbols: &[Rule(25), Rule(38)] },
        ],
        // many_individual ::= % | one_individual many_individual
        39 => &[
            Row { mask: 0x80000000020000000000000000000000, symbols: &[] },
            Row { mask: 0x1e00000000000000000000, symbols: &[Rule(26), Rule(39)] },
        ],
        // many_literal ::= % | one_literal many_literal
        40 => &[
            Row { mask: 0x80000000020000000000000000000000, symbols: &[] },
            Row { mask: 0x2000000000000000000000, symbols: &[Rule(27), Rule(40)] },
        ],
        // many_facet_pair ::= % | one_facet_pair many_facet_pair
        41 => &[
            Row { mask: 0x80000000020000000000000000000000, symbols: &[] },
            Row { mask: 0xe00000000000000000000, symbols: &[Rule(30), Rule(41)] },
        ],
        // maybe_class_expression ::= % | one_class_expression
        42 => &[
            Row { mask: 0x80000000020000000000000000000000, symbols: &[] },
            Row { mask: 0xe0000000000007fffc000, symbols: &[Rule(18)] },
        ],
        // maybe_data_range ::= % | one_data_range
        43 => &[
            Row { mask: 0x80000000020000000000000000000000, symbols: &[] },
            Row { mask: 0xe00000000000f80000000, symbols: &[Rule(20)] },
        ],
        _ => &[],
    }
}
