//! Worked examples of the words of records. A function of this module does nothing. The function's contract is the
//! example, which is proved by computing the definition.
ghost use Rattle.std.specs.Prelude.{◌≡◌, ℕ, negsuc, true, List, [], ◌∷◌, ◌++◌};
ghost use Rattle.klp_types.specs.declared.task.Mode.TheVariants.{Kernel};
ghost use Rattle.klp_types.specs.declared.record.Record.{Record};
ghost use Rattle.klp_types.specs.declared.record.Record.TheVariants.{TaskRow, NoTaskRow, Moving};
ghost use Rattle.klp_journal.specs.Words.{words_of, IsRecord};

/// The words of three records. The last word of a record is its tag: the record's kind, plus 256 for each word before
/// the tag.
pub fn words_are_counted_by_their_tags()
    ensures no_task { words_of (NoTaskRow 1) ≡ 1 ∷ 257 ∷ [] }
    ensures task { words_of (TaskRow 1 (record { state = negsuc 0; mode = Kernel; frames = [] })) ≡ 1 ∷ 4 ∷ 513 ∷ [] }
    ensures moving { words_of (Moving (record { patch = 0; target = true })) ≡ 0 ∷ 1 ∷ 521 ∷ [] }
{}

/// The last word of a list may be a valid tag although the list doesn't end with a record: the words before the tag may
/// be wrong.
pub fn words_of_no_record_end_with_none()
    ensures { (older : List ℕ) (row : Record) → IsRecord row → 5 ∷ 513 ∷ [] ≡ older ++ words_of row → ⊥ }
{}
