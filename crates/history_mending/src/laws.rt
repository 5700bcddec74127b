//! What mending is: each law is the contract of a function that does nothing.

ghost use Rattle.std.specs.Prelude.{◌≡◌, ◌≤◌, ◌++◌, ℕ, List, [], length, take};
ghost use Rattle.tree_starts.specs.Head.{Head};
ghost use Rattle.history_file.specs.Event.{Event, Recording};
ghost use Rattle.history_file.specs.HistoryFile.{HistoryFile};
ghost use Rattle.history_file.specs.Writing.{events_text};
ghost use Rattle.history_file.specs.declared.version.Version.{Version};
ghost use Rattle.nfs_history.specs.Standing.{EachMayFollow};
ghost use Rattle.history_mending.specs.declared.mending.Mended.{Mended};
ghost use Rattle.history_mending.specs.Mending.{HasHead, IsMended, recording_of};
ghost use Rattle.history_mending.specs.Parts.{IsPart, GivesWhole};

use crate::end::End;

/// Bytes are mended one way.
pub fn bytes_are_mended_one_way()
    ensures { (bytes : List ℕ) (a b : Mended) → IsMended bytes a → IsMended bytes b
        → (a.version ≡ b.version) × (recording_of a ≡ recording_of b) × (a.head_end ≡ b.head_end) × (a.events_end ≡ b.events_end) × (a.end ≡ b.end) }
{}

/// Of the file of a history, with its number of events, all is given back.
pub fn a_history_file_is_mended_whole()
    ensures { (bytes : List ℕ) (seen : Recording) (mended : Mended) → HistoryFile bytes seen → EachMayFollow [] seen.events → IsMended bytes mended
        → (recording_of mended ≡ seen) × (mended.events_end ≡ length bytes) × (mended.end ≡ End.Whole) }
{}

/// Of what a recorder leaves, cut behind its head or not at all, the events are given whose bytes are whole, and no other.
pub fn a_cut_gives_the_whole_events()
    ensures read { (top : List ℕ) (head : Head) (seen : List Event) (k : ℕ) → IsPart top head seen → length top ≤ k
        → (version : Version) × (body : List ℕ) × HasHead (take k (top ++ events_text seen)) version head body }
    ensures whole { (top : List ℕ) (head : Head) (seen : List Event) (k : ℕ) (mended : Mended) → IsPart top head seen → length top ≤ k
        → IsMended (take k (top ++ events_text seen)) mended → GivesWhole top head seen k mended }
    ensures all { (top : List ℕ) (head : Head) (seen : List Event) (mended : Mended) → IsPart top head seen → IsMended (top ++ events_text seen) mended
        → (recording_of mended ≡ record { head = head; events = seen }) × (mended.end ≡ End.Whole) }
{}
