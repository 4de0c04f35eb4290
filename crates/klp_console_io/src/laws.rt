//! Laws about lines, about saying texts, and about the texts. A function here does nothing: its contract is the law.
ghost use Rattle.std.specs.Prelude.{◌≡◌, ℕ, List, [], ◌∷◌, ◌++◌, length};
ghost use Rattle.klp_console_io.specs.Gathered.{Gathered};
ghost use Rattle.klp_console_io.specs.Lines.{lines_and_rest};
ghost use Rattle.klp_console_io.specs.Says.{Says};
ghost use Rattle.klp_console_io.specs.Texts.{address_text};
ghost use Rattle.klp_console_io.specs.Written.{Written};

/// Bytes that are heard later don't change the finished lines, and continue the unfinished line. If no byte was heard,
/// there is one unfinished line, which is empty. So the lines of an input are the same, however reads cut the input.
pub fn lines_add_up()
    ensures next { (a b : List ℕ) (done : List (List ℕ)) (rest : List ℕ) → lines_and_rest a ≡ done ++ rest ∷ []
        → lines_and_rest (a ++ b) ≡ done ++ lines_and_rest (rest ++ b) }
    ensures none { lines_and_rest [] ≡ [] ∷ [] }
{}

/// Saying several texts one after the other is the same as saying one joined text. Doing nothing is the same as saying
/// the empty text. So a caller who says ten words has one fact to prove.
pub fn what_is_said_adds_up()
    ensures adds_up { (a b c : Gathered × Written) (t u : List ℕ) → Says a b t → Says b c u → Says a c (t ++ u) }
    ensures nothing { (a : Gathered × Written) → Says a a [] }
{}

/// An address has 16 digits whatever its value, since the definition of the digits adds leading zeros.
pub fn addresses_have_16_digits()
    ensures { (n : ℕ) → length (address_text n) ≡ 16 }
{}
