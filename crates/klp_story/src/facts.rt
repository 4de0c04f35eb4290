//! What a line did, in words.
ghost use Rattle.std.specs.Prelude.{◌≡◌, ◌++◌, ◌-◌, codes};
ghost use Rattle.std.specs.Fmt.{decimal, signed_decimal};
ghost use Rattle.klp_markup.specs.Adds.{Adds};
ghost use Rattle.klp_markup.specs.Escaped.{name_text};
ghost use Rattle.klp_markup.specs.Names.{object_name};
ghost use Rattle.klp_story.specs.Words.{quoted_text};
ghost use Rattle.klp_story.specs.Sentences.{starting, reversing, completing, meaning, undone_text, fact_text};

use crate::words::{add_counted, add_patch};
use klp_catalog::Catalog;
use klp_markup::{Sheet, object_name};
use klp_modules::Modules;
use klp_timeline::Fact;
use klp_types::{ObjId, PatchId, Transition};

/// Returns what follows a patch's name when its transition started. `target` is true for patching.
fn starting(target: bool) -> &'static str
    ensures { result.now ≡ starting target }
{
    if target {
        ": starting patching transition."
    } else {
        ": starting unpatching transition."
    }
}

/// Returns what follows a patch's name when its transition was reversed. `target` is the new target, true for patching.
fn reversing(target: bool) -> &'static str
    ensures { result.now ≡ reversing target }
{
    if target {
        ": reversing transition from unpatching to patching."
    } else {
        ": reversing transition from patching to unpatching."
    }
}

/// Returns what follows a patch's name when its transition completed. `target` is true for patching.
fn completing(target: bool) -> &'static str
    ensures { result.now ≡ completing target }
{
    if target {
        ": patching complete"
    } else {
        ": unpatching complete"
    }
}

/// Adds a patch's name, and then `what`: they begin a sentence, or are all of it.
fn add_of_patch(sheet: &mut Sheet, catalog: &Catalog, patch: PatchId, what: &'static str)
    ensures { Adds sheet.old sheet.new (quoted_text catalog.now patch ++ what.now) }
{
    // For the proof only: texts that are added one after the other add up.
    klp_markup::laws::what_is_added_adds_up();
    add_patch(sheet, catalog, patch);
    sheet.markup(what);
}

/// Adds the end of the sentence on a completed transition: what the completion guarantees if `sleepers` is 0, otherwise
/// how many tasks slept on in code that wasn't called any more. `sleepers` is the number of such tasks.
fn add_meaning(sheet: &mut Sheet, target: bool, sleepers: usize)
    ensures { Adds sheet.old sheet.new (meaning target sleepers) }
{
    // For the proof only: texts that are added one after the other add up.
    klp_markup::laws::what_is_added_adds_up();
    match (sleepers, target) {
        (0, true) => sheet.markup(": each task calls its functions."),
        (0, false) => sheet.markup(": no task calls its functions."),
        _ => {
            add_counted(
                sheet,
                ", but ",
                sleepers,
                " task slept on in code that wasn't called then.",
                " tasks slept on in code that wasn't called then.",
            );
        }
    }
}

/// Adds the sentence that a transition completed, and what that guarantees. `sleepers` is the number of tasks that
/// sleep on in code that isn't called any more.
fn add_complete(sheet: &mut Sheet, catalog: &Catalog, moved: &Transition, sleepers: usize)
    ensures { Adds sheet.old sheet.new (fact_text catalog.now (Fact.Completes moved.now sleepers)) }
{
    // For the proof only: texts that are added one after the other add up.
    klp_markup::laws::what_is_added_adds_up();
    add_of_patch(sheet, catalog, moved.patch, completing(moved.target));
    add_meaning(sheet, moved.target, sleepers);
}

/// Adds the sentence that a patch's pre-patch callback for an object failed, so that the event had no other effect.
/// `object` is the object's name, and `status` is what the callback returned.
fn add_pre_failed(sheet: &mut Sheet, catalog: &Catalog, patch: PatchId, object: &[u8], status: i64)
    ensures { Adds sheet.old sheet.new (quoted_text catalog.now patch ++ codes ": its pre-patch callback for "
        ++ name_text object.now ++ codes " answered " ++ signed_decimal status ++ codes ", so nothing came of it.") }
{
    // For the proof only: texts that are added one after the other add up.
    klp_markup::laws::what_is_added_adds_up();
    add_of_patch(sheet, catalog, patch, ": its pre-patch callback for ");
    sheet.name(object);
    sheet.markup(" answered ");
    sheet.integer(status);
    sheet.markup(", so nothing came of it.");
}

/// Adds an object's name, and then `what`: together they are a sentence.
fn add_of_object(sheet: &mut Sheet, modules: &Modules, object: ObjId, what: &'static str)
    ensures { Adds sheet.old sheet.new (name_text (object_name modules.now.names object) ++ what.now) }
{
    // For the proof only: texts that are added one after the other add up.
    klp_markup::laws::what_is_added_adds_up();
    sheet.name(object_name(modules, object));
    sheet.markup(what);
}

/// Adds the sentence that a line undid events: how many, and to which mark. `from` is the number of events in the
/// journal before the line, and `to` the number after it, which is the mark.
fn add_undone(sheet: &mut Sheet, from: u32, to: u32)
    ensures { Adds sheet.old sheet.new (undone_text (from - to) ++ decimal to ++ codes ".") }
{
    // For the proof only: texts that are added one after the other add up.
    klp_markup::laws::what_is_added_adds_up();
    let count = from.saturating_sub(to);
    add_counted(
        sheet,
        "",
        count as usize,
        " event is undone: all is as it was at mark ",
        " events are undone: all is as it was at mark ",
    );
    sheet.number(u64::from(to));
    sheet.markup(".");
}

/// Adds the sentence on a fact, which is something that a line did. If a transition starts, is reversed or completes,
/// the sentence begins with the words of the kernel's log. The catalog must have been assembled over these modules.
pub(crate) fn add_fact(sheet: &mut Sheet, catalog: &Catalog, modules: &Modules, fact: &Fact)
    requires { catalog.now.names ≡ modules.now.names }
    ensures { Adds sheet.old sheet.new (fact_text catalog.now fact.now) }
{
    match *fact {
        Fact::Forces(moving) => add_of_patch(
            sheet,
            catalog,
            moving.patch,
            ": the transition is forced, so consistency isn't promised from here on.",
        ),
        Fact::PreFailed(patch, object, status) => {
            let object = object_name(modules, object);
            add_pre_failed(sheet, catalog, patch, object, i64::from(status));
        }
        Fact::Comes(object) => add_of_object(sheet, modules, object, " is loaded."),
        Fact::Goes(object) => add_of_object(sheet, modules, object, " is unloaded."),
        Fact::Undoes(from, to) => add_undone(sheet, from, to),
        Fact::Starts(moving) => add_of_patch(sheet, catalog, moving.patch, starting(moving.target)),
        Fact::Reverses(moving) => {
            add_of_patch(sheet, catalog, moving.patch, reversing(moving.target));
        }
        Fact::Completes(moved, sleepers) => add_complete(sheet, catalog, &moved, sleepers),
        Fact::Leaves(patch) => {
            add_of_patch(sheet, catalog, patch, " was replaced, and has left.");
        }
    }
}
