//! Words that sentences share.
ghost use Rattle.std.specs.Prelude.{◌≡◌, ◌++◌, codes};
ghost use Rattle.std.specs.Fmt.{decimal};
ghost use Rattle.klp_markup.specs.Adds.{Adds};
ghost use Rattle.klp_markup.specs.Tasks.{plural};
ghost use Rattle.klp_story.specs.Words.{counted_text, link_text, quoted_text, why};

use klp_catalog::Catalog;
use klp_markup::{Sheet, patch_name, plural};
use klp_types::{PatchId, Transition, Version};

/// Adds the text `before`, a number, and the text `behind`.
pub(crate) fn add_number(sheet: &mut Sheet, before: &'static str, number: u64, behind: &'static str)
    ensures { Adds sheet.old sheet.new (before.now ++ decimal number ++ behind.now) }
{
    // For the proof only: texts that are added one after the other add up.
    klp_markup::laws::what_is_added_adds_up();
    sheet.markup(before);
    sheet.number(number);
    sheet.markup(behind);
}

/// Adds the text `before`, a number, and the words that go with the number: `one` if it is 1, otherwise `more`.
pub(crate) fn add_counted(
    sheet: &mut Sheet,
    before: &'static str,
    count: usize,
    one: &'static str,
    more: &'static str,
)
    ensures { Adds sheet.old sheet.new (counted_text before.now count one.now more.now) }
{
    add_number(sheet, before, count as u64, plural(count, one, more));
}

/// Adds a link to the row of a line. The link's text is a word and the line's number, such as `line 7`.
#[tactic(auto, unfolding(crate::specs::Words::link_text))]
pub(crate) fn add_link(sheet: &mut Sheet, word: &'static str, line: u64)
    ensures { Adds sheet.old sheet.new (link_text word.now line) }
{
    // For the proof only: texts that are added one after the other add up.
    klp_markup::laws::what_is_added_adds_up();
    add_number(sheet, "<a href=\"#line-", line, "\">");
    sheet.markup(word);
    sheet.number(line);
    sheet.markup("</a>");
}

/// Adds the name of a patch in single quotes, as the kernel's log writes it.
#[tactic(auto, unfolding(crate::specs::Words::quoted_text))]
pub(crate) fn add_patch(sheet: &mut Sheet, catalog: &Catalog, patch: PatchId)
    ensures { Adds sheet.old sheet.new (quoted_text catalog.now patch) }
{
    // For the proof only: texts that are added one after the other add up.
    klp_markup::laws::what_is_added_adds_up();
    sheet.markup("'");
    sheet.name(patch_name(catalog, patch));
    sheet.markup("'");
}

/// Returns why a task that sleeps in this version holds the transition up, as a clause about the version. `moving` is
/// the transition.
pub(crate) fn why(moving: &Transition, version: &Version) -> &'static str
    ensures { result.now ≡ why moving.now.target version.now }
{
    match (moving.target, version) {
        (true, _) => "which the patch changes",
        (false, Version::New(_, _)) => "which leaves with the patch",
        (false, Version::Original(_)) => "which the patch gave back",
    }
}
