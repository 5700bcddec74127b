//! READ after WRITE.

ghost use Rattle.tree_laws.specs.ReadBack.{OnlyWhatWasWritten, WhatWasWritten, RunsReadBack};

/// A READ gives what a WRITE wrote. Where a WRITE of three bytes was answered with two of them, as in
/// [`the_premises_are_met`](crate::the_premises_are_met), a READ of two right behind it is answered right with
/// these two, or the first, or none, and with no other bytes. And in every run, whatever stood at first, a READ gives each byte
/// that a WRITE before it wrote, unless a call in between wrote over it, and doesn't say that the file ends before it.
pub fn what_is_written_is_read()
    ensures only { OnlyWhatWasWritten }
    ensures all { WhatWasWritten }
    ensures runs { RunsReadBack }
{}
