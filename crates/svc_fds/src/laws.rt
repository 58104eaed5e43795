//! Laws of tables and messages, over the definitions alone.

ghost use Rattle.std.specs.Prelude.{◌≡◌, ◌<◌, ◌^◌, [], ℕ, List, Some, None, true, false, not, length, slice_get};
ghost use Rattle.svc_fds.specs.Tables.{Entry, lookup, numbers, put_all, kept, unclaimed, IsAscending};
ghost use Rattle.svc_fds.specs.Lists.{is_among};
ghost use Rattle.svc_fds.specs.Messages.{AreTexts, is_joinable, is_sayable, message_bytes, framed_words, AreFrames, is_framed, words, IsMessage, table_of, IsOldMessage, old_table_of};

/// Pairs that are pruned and then put into an empty table leave the table that is left where all pairs
/// are put into it and it is pruned then, and the same entries go out.
pub fn pruned_before_or_after()
    ensures left { (keep : List (List ℕ)) (pairs : List Entry)
        → kept keep (put_all pairs []) ≡ put_all (kept keep pairs) [] }
    ensures out { (keep : List (List ℕ)) (pairs : List Entry)
        → unclaimed keep (put_all pairs []) ≡ put_all (unclaimed keep pairs) [] }
{}

/// The table of a message has its k-th word with its k-th number, and no other address.
pub fn paired_in_order()
    ensures held { (bytes fds word : List ℕ) (k fd : ℕ) → IsMessage bytes (length fds)
        → slice_get (words bytes) k ≡ Some word → slice_get fds k ≡ Some fd
        → lookup word (table_of bytes fds) ≡ Some fd }
    ensures other { (bytes fds address : List ℕ) → is_among address (words bytes) ≡ false
        → lookup address (table_of bytes fds) ≡ None }
{}

/// After what version 2 begins with, just the frames of words are read, and as these words: each word has
/// a byte, is UTF-8, and stands after its length.
pub fn frames_are_read()
    ensures frames { (words : List (List ℕ)) (bytes : List ℕ) → length bytes < 2 ^ 64
        → AreFrames words bytes → framed_words bytes ≡ Some words }
    ensures only { (words : List (List ℕ)) (bytes : List ℕ)
        → framed_words bytes ≡ Some words → AreFrames words bytes }
{}

/// What is written of a table is read as the table, in both versions.
pub fn written_is_read()
    ensures { (es : List Entry) → IsAscending es → AreTexts es → is_sayable es ≡ true
        → IsMessage (message_bytes es) (length (numbers es))
        × (table_of (message_bytes es) (numbers es) ≡ es) }
{}

/// Version 2 is written just where version 1 doesn't say the table, and a reader of version 1 alone reads
/// whatever is written in version 1 as the same table.
pub fn version_1_suffices()
    ensures version { (es : List Entry) → is_framed (message_bytes es) ≡ not (is_joinable es) }
    ensures old { (es : List Entry) → IsAscending es → AreTexts es → is_joinable es ≡ true
        → IsOldMessage (message_bytes es) (length (numbers es))
        × (old_table_of (message_bytes es) (numbers es) ≡ es) }
{}
