//! Queries whose answers are values and numbers: shadow variables, runs of callbacks, and the number of events in the
//! journal.
ghost use Rattle.std.specs.Prelude.{◌≡◌, ◌++◌, [], codes, length, Option, Ok};
ghost use Rattle.std.specs.Fmt.{decimal};
ghost use Rattle.std.specs.Result.{result_and, result_unwrap_or};
ghost use Rattle.klp_types.specs.World.{variable};
ghost use Rattle.klp_console_io.specs.Says.{Says};
ghost use Rattle.klp_catalog.specs.Runs.{callback_runs};
ghost use Rattle.klp_console_commands.specs.declared.request.Query.TheVariants as query;
ghost use Rattle.klp_console.specs.Queries.{lines_of, variable_text, count_text, runs_text, query_text};

use crate::files::has_object;
use crate::values::say_value_line;
use klp_catalog::Catalog;
use klp_console_io::{Answers, Sink};
use klp_core::Manager;
use klp_model::Refusal;
use klp_types::{ObjId, PatchId, ShadowKey, Which};

/// The kinds of callbacks, in the order in which a patch runs them. Their counts are said in this order.
const KINDS: [Which; 4] = [Which::Pre, Which::Post, Which::PreUn, Which::PostUn];

/// Says the value of a shadow variable, or `none` if the variable doesn't exist. A query for a variable that doesn't
/// exist isn't refused.
pub(crate) fn say_variable<W: Sink>(
    answers: &mut Answers,
    writer: &mut W,
    manager: &Manager,
    key: ShadowKey,
)
    ensures { Says (answers.old, W.written writer.old) (answers.new, W.written writer.new)
        (variable_text (variable manager.now.managed.state.world key)) }
{
    match manager.shadow_get(key) {
        None => answers.say(writer, b"none\n"),
        Some(value) => say_value_line(answers, writer, &value),
    }
}

/// Says how often a callback ran, or a dash if there is no such callback. So the count of each kind always has the same
/// place in the line.
fn say_count<W: Sink>(answers: &mut Answers, writer: &mut W, count: Option<u64>)
    ensures { Says (answers.old, W.written writer.old) (answers.new, W.written writer.new) (count_text count) }
{
    klp_console_io::laws::what_is_said_adds_up();
    match count {
        None => answers.say(writer, b" -"),
        Some(count) => {
            answers.say(writer, b" ");
            answers.number(writer, count);
        }
    }
}

/// Says how often the callbacks of these kinds ran, in this order.
fn say_counts<W: Sink>(
    answers: &mut Answers,
    writer: &mut W,
    catalog: &Catalog,
    patch: PatchId,
    object: ObjId,
    kinds: &[Which],
)
    ensures { Says (answers.old, W.written writer.old) (answers.new, W.written writer.new)
        (lines_of (λ which. count_text (callback_runs catalog.now patch object which)) kinds.now) }
{
    klp_console_io::laws::what_is_said_adds_up();
    for which in kinds {
        say_count(
            answers,
            writer,
            catalog.callback_runs(patch, object, *which),
        );
    }
}

/// Says on one line how often each callback of a patch for an object ran.
fn say_all_counts<W: Sink>(
    answers: &mut Answers,
    writer: &mut W,
    catalog: &Catalog,
    patch: PatchId,
    object: ObjId,
)
    ensures { Says (answers.old, W.written writer.old) (answers.new, W.written writer.new)
        (runs_text catalog.now patch object) }
{
    klp_console_io::laws::what_is_said_adds_up();
    answers.say(writer, b"runs");
    say_counts(answers, writer, catalog, patch, object, &KINDS);
    answers.say(writer, b"\n");
}

/// Says how often each callback of a patch for an object ran. The patch needn't be installed, since its counts stay
/// when it is removed. If the patch doesn't change the object, returns `NotFound` and says nothing.
pub(crate) fn say_runs<W: Sink>(
    answers: &mut Answers,
    writer: &mut W,
    manager: &Manager,
    patch: PatchId,
    object: ObjId,
) -> Result<(), Refusal>
    ensures says { Says (answers.old, W.written writer.old) (answers.new, W.written writer.new)
        (result_unwrap_or (query_text manager.now (query.Runs patch object)) []) }
    ensures result { result ≡ result_and (query_text manager.now (query.Runs patch object)) (Ok tt) }
{
    klp_console_io::laws::what_is_said_adds_up();
    if !has_object(manager.catalog(), patch, object) {
        return Err(Refusal::NotFound);
    }
    say_all_counts(answers, writer, manager.catalog(), patch, object);
    Ok(())
}

/// Says how many accepted events the journal has. `rewind` accepts this number.
pub(crate) fn say_mark<W: Sink>(answers: &mut Answers, writer: &mut W, manager: &Manager)
    ensures { Says (answers.old, W.written writer.old) (answers.new, W.written writer.new)
        (decimal (length manager.now.groups) ++ codes "\n") }
{
    klp_console_io::laws::what_is_said_adds_up();
    answers.number(writer, u64::from(manager.mark()));
    answers.say(writer, b"\n");
}
