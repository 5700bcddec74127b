//! What calls make of the bytes of a file.

ghost use Rattle.tree_laws.specs.FileBytes.{WriteSets, SetAttrSets};
ghost use Rattle.tree_laws.specs.WritingOver.{OtherBytesStay};

/// A WRITE that succeeds, as call 2 of the run in [`the_premises_are_met`](crate::the_premises_are_met), sets
/// the bytes that it wrote and leaves every other one; a SETATTR with a size, as call 5, cuts the file or
/// fills it with zeros. Whatever a call is and however it comes out, each byte stays that it doesn't write over.
pub fn each_byte_is_set_or_stays()
    ensures write { WriteSets }
    ensures set_attr { SetAttrSets }
    ensures other { OtherBytesStay }
{}
