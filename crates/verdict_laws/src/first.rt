//! What stood at first.

ghost use Rattle.verdict_laws.specs.Stood.{WhatStoodIsRead, WhatStoodIsKept};

/// A READ gives each byte of a file that the server held at first, in every era, unless a place before it that the era sees (left of an
/// earlier era, or its own) wrote over it; and it doesn't say that the file ends before that byte. And what the server held at first is
/// there after the places that an era sees, under its name and as it was, unless one of them was to change its path, to take it away or
/// to move it. Each history that is read of a file begins with a start.
pub fn what_stood_at_first_is_kept()
    ensures read { WhatStoodIsRead }
    ensures kept { WhatStoodIsKept }
{}
