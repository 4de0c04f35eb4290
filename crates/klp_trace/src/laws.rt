//! Laws about the definitions. A function here does nothing: its contract is the law.
ghost use Rattle.std.specs.Prelude.{◌≡◌, ℕ, List, ◌++◌, codes, Result, Some, Err};
ghost use Rattle.klp_model.specs.declared.event.Reply.{Reply};
ghost use Rattle.klp_model.specs.declared.event.Refusal.{Refusal};
ghost use Rattle.klp_core.specs.Journaled.{Journaled};
ghost use Rattle.klp_console.specs.Refusals.{refusal_text};
ghost use Rattle.klp_console.specs.Replies.{answer_text};
ghost use Rattle.klp_trace.specs.Answers.{answer_of};

/// If a text is read as an answer, it is byte by byte what the console writes for that answer.
pub fn an_answer_is_what_the_console_writes()
    ensures { (manager : Journaled) (text : List ℕ) (answer : Result Reply Refusal)
        → answer_of manager text ≡ Some answer → answer_text manager.managed.catalog answer ≡ text ++ codes "\n" }
{}

/// What the console writes for a refusal is read back as that refusal.
pub fn refusals_are_read_back()
    ensures { (manager : Journaled) (text : List ℕ) (refusal : Refusal)
        → refusal_text refusal ≡ text ++ codes "\n" → answer_of manager text ≡ Some (Err refusal) }
{}
