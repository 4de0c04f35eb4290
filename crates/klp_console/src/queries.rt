//! Answers queries. Each kind of query is answered by a function in a file of its own. Refusals are said here.
ghost use Rattle.std.specs.Prelude.{◌≡◌, [], Ok};
ghost use Rattle.std.specs.Result.{result_and, result_unwrap_or};
ghost use Rattle.klp_console_io.specs.Says.{Says};
ghost use Rattle.klp_console.specs.Queries.{query_text, shown_text, force_nothing};

use crate::files::{
    is_installed, say_directory, say_enabled, say_functions, say_patch_state, say_patches,
    say_transition,
};
use crate::refusals::say_refusal;
use crate::replies::say_done;
use crate::runs::{say_mark, say_runs, say_variable};
use crate::text::{say_pick, say_stack, say_text};
use klp_console_commands::Query;
use klp_console_io::{Answers, Sink};
use klp_core::Manager;
use klp_model::Refusal;
use klp_types::PatchId;

/// Says what a query shows. If the query is refused, says nothing and returns the refusal, which the caller says.
fn show<W: Sink>(
    answers: &mut Answers,
    writer: &mut W,
    manager: &Manager,
    query: &Query,
) -> Result<(), Refusal>
    ensures says { Says (answers.old, W.written writer.old) (answers.new, W.written writer.new)
        (result_unwrap_or (query_text manager.now query.now) []) }
    ensures result { result ≡ result_and (query_text manager.now query.now) (Ok tt) }
{
    match *query {
        Query::Enabled(patch) => say_enabled(answers, writer, manager, patch),
        Query::Transition(patch) => say_transition(answers, writer, manager, patch),
        Query::PatchState(task) => say_patch_state(answers, writer, manager, task),
        Query::Patches => {
            say_patches(answers, writer, manager);
            Ok(())
        }
        Query::Patch(patch) => say_directory(answers, writer, manager, patch),
        Query::Object(patch, object) => say_functions(answers, writer, manager, patch, object),
        Query::Variable(key) => {
            say_variable(answers, writer, manager, key);
            Ok(())
        }
        Query::Text(object) => say_text(answers, writer, manager, object),
        Query::Stack(site) => {
            say_stack(answers, writer, manager, site);
            Ok(())
        }
        Query::Pick(task, site) => say_pick(answers, writer, manager, task, site),
        Query::Runs(patch, object) => say_runs(answers, writer, manager, patch, object),
        Query::Mark => {
            say_mark(answers, writer, manager);
            Ok(())
        }
    }
}

/// Says what a query shows, or why it is refused: `NotFound` for a file that doesn't exist, `NoTask` for a task that
/// doesn't exist, `NoModule` for an object that isn't loaded. A refusal is also returned, so that it can be counted.
///
/// The files are those of the kernel (livepatch, Sysfs). A flag is 1 or 0, an address has 16 hexadecimal digits, a
/// position counts from 1, and a count of runs stops at the greatest number. The cost grows with the length of the
/// answer.
pub(crate) fn say_query<W: Sink>(
    answers: &mut Answers,
    writer: &mut W,
    manager: &Manager,
    query: &Query,
) -> Result<(), Refusal>
    ensures says { Says (answers.old, W.written writer.old) (answers.new, W.written writer.new)
        (shown_text (query_text manager.now query.now)) }
    ensures result { result ≡ result_and (query_text manager.now query.now) (Ok tt) }
{
    klp_console_io::laws::what_is_said_adds_up();
    let result = show(answers, writer, manager, query);
    if let Err(refusal) = result {
        say_refusal(answers, writer, refusal);
    }
    result
}

/// Answers a write of 0 to the `force` file of a patch. The write does nothing, as in the kernel (`force_store`), so
/// the answer is `ok`. If the patch isn't installed, says `NotFound` and returns it.
pub(crate) fn say_force_nothing<W: Sink>(
    answers: &mut Answers,
    writer: &mut W,
    manager: &Manager,
    patch: PatchId,
) -> Result<(), Refusal>
    ensures says { Says (answers.old, W.written writer.old) (answers.new, W.written writer.new)
        (shown_text (force_nothing manager.now patch)) }
    ensures result { result ≡ result_and (force_nothing manager.now patch) (Ok tt) }
{
    if is_installed(manager, patch) {
        say_done(answers, writer);
        Ok(())
    } else {
        say_refusal(answers, writer, Refusal::NotFound);
        Err(Refusal::NotFound)
    }
}
