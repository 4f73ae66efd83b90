//! Laws of diagrams: calls that do nothing, for what their contracts say.
ghost use Rattle.pq_store.specs.Laws.{HasOneDiagram, IgnoredFieldsAreUntested, PrerequisitesStandFirst};

/// Law: diagrams with equal values on every packet are one, of whatever stores.
pub fn one_diagram<L>()
    ensures { HasOneDiagram L }
{}

/// Law: a diagram whose value is the same whatever a field's number doesn't test the field.
pub fn ignored_fields_are_untested<L>()
    ensures { IgnoredFieldsAreUntested L }
{}

/// Law: where the value is the same whatever the number of a field that the packet lacks, each test of the field is below
/// tests, answered yes, that make sure that the packet has it.
pub fn prerequisites_stand_first<L>()
    ensures { PrerequisitesStandFirst L }
{}
