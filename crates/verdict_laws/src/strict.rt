//! What the strict profile adds to an accepted plan.

ghost use Rattle.verdict_laws.specs.Attributes.{GetAttrToldTruth, ReadToldTruth};

/// In a history that is judged strictly the attributes that a GETATTR or a READ gave are those of its object, which stands in the tree at
/// the call's place: its type, and of a file its length.
pub fn strict_attributes_are_true()
    ensures get_attr { GetAttrToldTruth }
    ensures read { ReadToldTruth }
{}
