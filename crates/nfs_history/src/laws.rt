//! What the files of histories are: each law is the contract of a function that does nothing.

ghost use Rattle.std.specs.Prelude.{◌≡◌, ◌⊎◌, ℕ, List};
ghost use Rattle.history_file.specs.tree_starts_specs.Start.{IsStart};
ghost use Rattle.nfs_history.specs.declared.fault.HistoryFault.{HistoryFault};
ghost use Rattle.nfs_history.specs.declared.history.History.{History};
ghost use Rattle.nfs_history.specs.declared.knowing.KnownCalls.{KnownCalls};
ghost use Rattle.nfs_history.specs.History.{IsCallsFile, IsHistoryFile};
ghost use Rattle.nfs_history.specs.FirstFault.{FirstFault};

/// What is found of a history that is read of a file holds of every history that the file is said to be of.
pub fn a_file_has_one_history()
    ensures { (bytes : List ℕ) (h g : History) → IsHistoryFile bytes h → IsHistoryFile bytes g → h ≡ g }
{}

/// What a file is judged by is of its history: of each that it is said to be of, and there is one.
pub fn a_file_is_judged_by_its_history()
    ensures of_each { (bytes : List ℕ) (h : History) → IsHistoryFile bytes h → IsCallsFile bytes h.known }
    ensures of_one { (bytes : List ℕ) (known : KnownCalls) → IsCallsFile bytes known
        → (h : History) × IsHistoryFile bytes h × (h.known ≡ known) }
{}

/// Bytes have one first fault.
pub fn bytes_have_one_first_fault()
    ensures { (bytes : List ℕ) (f g : HistoryFault) → FirstFault bytes f → FirstFault bytes g → f ≡ g }
{}

/// Bytes are the file of a history or have a first fault, and never both.
pub fn bytes_are_a_history_or_at_fault()
    ensures some { (bytes : List ℕ) → ((h : History) × IsHistoryFile bytes h) ⊎ ((fault : HistoryFault) × FirstFault bytes fault) }
    ensures never_both { (bytes : List ℕ) (h : History) (fault : HistoryFault) → IsHistoryFile bytes h → FirstFault bytes fault → ⊥ }
{}

/// What a file says of the objects that stood at first is a start: a server can have held them.
pub fn a_file_begins_with_a_start()
    ensures { (bytes : List ℕ) (known : KnownCalls) → IsCallsFile bytes known → IsStart known.head.start }
{}
