//! Laws of reading documents, as functions that do nothing.

ghost use Rattle.owl_documents.specs.OneWay.{NeverBoth, ReadOneWay, RefusedOneWay};

/// Laws: documents are read in one way, ontologies up to structural equivalence,
/// or refused in one way, and never both.
pub fn documents_are_read_one_way()
    ensures read { ReadOneWay }
    ensures refused { RefusedOneWay }
    ensures apart { NeverBoth }
{
    fss_defects::documents_are_read_one_way();
    fss_defects::defects_are_of_no_document();
    fss_defects::one_first_defect();
    ttl_grammar::documents_are_read_one_way();
    ttl_grammar::defects_are_of_no_document();
    ttl_grammar::one_first_defect();
    man_grammar::documents_are_read_one_way();
    man_grammar::defects_are_of_no_document();
    man_grammar::one_first_defect();
    owl_canon::bytes_are_read_once();
}
