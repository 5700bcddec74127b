//! Calls over two trees that are alike but for what some files hold. The functions do nothing: their contracts are laws, proved of the
//! definitions that the contracts of `file_tree` name.

#![tactic(auto)]

ghost use Rattle.alike_calls.specs.Alike.{
  CallsGoAlike,
  TouchedIsTheSame,
  NothingFilledIsTheSame,
  ChangesAreTheSame,
  ChangesKeepTreesAlike,
  LeftCallsGoAlike,
  BytesAreFilled,
};
ghost use Rattle.alike_calls.specs.Writes.{
  WritesAreOpened,
  WritesAreResolved,
  EachFileFits,
  WritesCommute,
  WritesLeaveOthers,
  SameFillingsAreAlike,
  SameBytesAreAlike,
  NothingOpenIsTheSame,
  TouchedByAgreedHandles,
};

/// A call that touches no filled file has a next tree in a tree if, and only if, it has one in the tree with its files filled, and these two
/// are alike again.
pub fn calls_go_alike()
    ensures calls { CallsGoAlike }
    ensures touched { TouchedIsTheSame }
    ensures nothing { NothingFilledIsTheSame }
    ensures same { ChangesAreTheSame }
    ensures changes { ChangesKeepTreesAlike }
    ensures left { LeftCallsGoAlike }
    ensures bytes { BytesAreFilled }
{}

/// While it is open how many bytes a WRITE wrote, one tree has them and the other one doesn't: the two are alike but for what its object
/// holds. Once the WRITE is of both trees, that is no longer so.
pub fn a_write_is_opened_and_resolved()
    ensures opened { WritesAreOpened }
    ensures resolved { WritesAreResolved }
    ensures fit { EachFileFits }
    ensures commute { WritesCommute }
    ensures others { WritesLeaveOthers }
    ensures fillings { SameFillingsAreAlike }
    ensures files { SameBytesAreAlike }
    ensures nothing { NothingOpenIsTheSame }
    ensures handles { TouchedByAgreedHandles }
{}
