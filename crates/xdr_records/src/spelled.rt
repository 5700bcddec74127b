//! What the reader's items are, beside RFC 4506.

ghost use Rattle.std.specs.Prelude.{ℕ, Bool, List, ◌<◌, ◌≤◌, ◌^◌, length};
ghost use Rattle.xdr_records.specs.Items.{padded, word_at, long_at, flag_at, fixed_at, opaque_at};
ghost use Rattle.xdr_records.specs.Spelling.{IsWord, IsLong, IsFlag, IsFixed, IsOpaque};
ghost use Rattle.xdr_records.specs.Faults.{IsShort, FlagFails, OpaqueFails};
ghost use Rattle.xdr_records.specs.Laws.{IsItem};
ghost use Rattle.xdr_records.specs.Texts.{word_text, long_text, flag_text, fixed_text, opaque_text};

/// What a [`Reader`](crate::Reader) reads is what stands at the front by RFC 4506, and where it reads
/// nothing the item that it wants is at fault.
pub fn items_are_spelled()
    ensures words { IsItem IsWord (IsShort 4) word_at }
    ensures longs { IsItem IsLong (IsShort 8) long_at }
    ensures flags { IsItem IsFlag FlagFails flag_at }
    ensures fixed { (n : ℕ) → IsItem (IsFixed n) (IsShort (padded n)) (fixed_at n) }
    ensures opaques { (max : ℕ) → IsItem (IsOpaque max) (OpaqueFails max) (opaque_at max) }
{}

/// What is appended is spelled as it was meant, so it is read again.
pub fn texts_are_spelled()
    ensures words { (n : ℕ) → n < 2 ^ 32 → IsWord (word_text n) n }
    ensures longs { (n : ℕ) → n < 2 ^ 64 → IsLong (long_text n) n }
    ensures flags { (flag : Bool) → IsFlag (flag_text flag) flag }
    ensures fixed { (bytes : List ℕ) → IsFixed (length bytes) (fixed_text bytes) bytes }
    ensures opaques { (max : ℕ) (bytes : List ℕ) →
        length bytes < 2 ^ 32 → length bytes ≤ max → IsOpaque max (opaque_text bytes) bytes }
{}
