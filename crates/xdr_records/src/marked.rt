//! What a stream's records are, beside RFC 5531, section 11.

ghost use Rattle.std.specs.Prelude.{ℕ, List, [], ◌∷◌, ◌++◌, ◌≡◌, ◌≤◌, length};
ghost use Rattle.xdr_records.specs.Record.{IsRecord, IsUnfinished, IsTooLong, IsSplit, record_text, record_limit};
ghost use Rattle.xdr_records.specs.Feed.{Feed, Run, Breaks};

/// Bytes are whole records with a rest in one way: with a record that is begun, or with one that is too
/// long, and never both. A record that is begun has no front that is whole, and a framed one is itself.
pub fn records_are_split_one_way()
    ensures split { (bytes : List ℕ) (xs ys : List (List ℕ)) (rest left : List ℕ)
        → IsSplit IsUnfinished bytes xs rest → IsSplit IsUnfinished bytes ys left
        → (xs ≡ ys) × (rest ≡ left) }
    ensures too_long { (bytes : List ℕ) (xs ys : List (List ℕ)) (rest left : List ℕ)
        → IsSplit IsTooLong bytes xs rest → IsSplit IsTooLong bytes ys left
        → (xs ≡ ys) × (rest ≡ left) }
    ensures not_both { (bytes : List ℕ) (xs ys : List (List ℕ)) (rest left : List ℕ)
        → IsSplit IsUnfinished bytes xs rest → IsSplit IsTooLong bytes ys left → ⊥ }
    ensures no_whole_front { (rest : List ℕ) → IsUnfinished rest
        → (front content behind : List ℕ) → IsRecord front content → rest ≡ front ++ behind → ⊥ }
    ensures framed { (content : List ℕ) → length content ≤ record_limit
        → IsSplit IsUnfinished (record_text content) (content ∷ []) [] }
{}

/// Behind any calls of a feed that were answered, the records taken and those that wait are the whole
/// records of the bytes fed; and where a header takes its record past the limit, those ahead of it.
pub fn calls_give_the_records()
    ensures whole { (bytes : List ℕ) (taken : List (List ℕ)) (feed : Feed) → Run bytes taken feed
        → IsSplit IsUnfinished bytes (taken ++ feed.waiting) feed.rest }
    ensures too_long { (bytes piece : List ℕ) (taken : List (List ℕ)) (old new : Feed)
        → Run bytes taken old → Breaks old piece new
        → (stop : List ℕ) × IsSplit IsTooLong (bytes ++ piece) (taken ++ new.waiting) stop }
{}
