//! What is proved of the words of records themselves.
ghost use Rattle.std.specs.Prelude.{◌≡◌, ℕ, ◌+◌, ◌≤◌, List, [], ◌++◌, length, Some, vec_len, vec_capacity};
ghost use Rattle.klp_types.specs.declared.record.Record.{Record};
ghost use Rattle.klp_journal.specs.Words.{words_of, IsRecord};

use crate::read_words::read_back;
use crate::write_words::write_record;
use klp_types::Record;

/// The words of a record never end with the words of another record. So the last record of a list can be read in only
/// one way. Removing the last record leaves the words that were there before it was written.
pub fn records_are_read_from_their_ends()
    ensures { (a b : Record) (front : List ℕ) → IsRecord a → IsRecord b → words_of a ≡ front ++ words_of b
        → (front ≡ []) × (a ≡ b) }
{}

/// A record has at most 36 words, including its tag. So room for records can be counted in words.
pub fn records_have_few_words()
    ensures { (row : Record) → IsRecord row → length (words_of row) ≤ 36 }
{}

/// A record that is written at the end of a list of words can be read back from the end. The words before the record
/// don't change. The function writes the record and takes it out again.
pub fn what_is_written_is_read_back(row: &Record, words: &mut Vec<u64>) -> Option<Record>
    requires { vec_len words.old + 36 ≤ vec_capacity words.old }
    ensures row { result ≡ Some row.now }
    ensures words { words.new.items ≡ words.old.items }
{
    write_record(row, words);
    let (read, count) = read_back(words.as_slice())?;
    words.truncate(words.len() - count);
    Some(read)
}
