//! What stood at first.

ghost use Rattle.tree_laws.specs.FirstBytes.{FirstBytesAreRead};
ghost use Rattle.tree_laws.specs.StandsOn.{WhatStoodStays};
ghost use Rattle.tree_laws.specs.Starting.{StartIsFormed, EachStands, NothingElseStands, NoneFurther};

/// The tree that a server begins with is well formed. Each object that it held at first stands in it where it says, and nothing else but
/// the root does; so the number of no later object is taken. Two objects are such a start in
/// [`the_premises_are_met`](crate::the_premises_are_met).
pub fn a_start_stands_as_it_says()
    ensures formed { StartIsFormed }
    ensures each { EachStands }
    ensures nothing_else { NothingElseStands }
    ensures further { NoneFurther }
{}

/// What a server held at first is there at the end of a run, under its name and as it was, unless a call of the run was to change its path,
/// to take it away or to move it.
pub fn what_stood_at_first_stays()
    ensures { WhatStoodStays }
{}

/// In a run a READ of a file that stood at first gives each of its bytes, unless a call before it wrote over it, and doesn't say that the
/// file ends before it.
pub fn what_stood_at_first_is_read()
    ensures { FirstBytesAreRead }
{}
