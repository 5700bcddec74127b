//! What the strict profile adds.

ghost use Rattle.tree_laws.specs.Profiles.{ComesOutPlain, OthersDontMatterUnder, TakenAlike, SucceedsUnderEach, GetAttrIsTrue, ReadIsTrue, AttributesAreTrue, SizeBeforeIsTrue};

/// What the strict profile allows the plain one allows too, with the same tree. Under either one what other handles name makes no
/// difference, a call without a reply takes the same effect, and the same calls can succeed: a success without attributes is strict enough,
/// and that of a GETATTR has to be right in any case.
pub fn what_is_strict_is_plain()
    ensures plain { ComesOutPlain }
    ensures others { OthersDontMatterUnder }
    ensures taken { TakenAlike }
    ensures successes { SucceedsUnderEach }
{}

/// Under the strict profile the attributes that a GETATTR or a READ gives tell the type of its object, and the length of a file. So do those
/// of the object of any call's first handle, whether the call succeeded or failed, and a file's size before the call is the one it had.
pub fn attributes_tell_the_truth()
    ensures get_attr { GetAttrIsTrue }
    ensures read { ReadIsTrue }
    ensures after { AttributesAreTrue }
    ensures before { SizeBeforeIsTrue }
{}
