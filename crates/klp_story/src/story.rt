//! The sentences about what happened in a run.
ghost use Rattle.std.specs.Prelude.{◌≡◌, ◌++◌, ◌∷◌, [], codes};
ghost use Rattle.klp_markup.specs.Adds.{Adds};
ghost use Rattle.klp_markup.specs.Times.{line_time};
ghost use Rattle.klp_timeline.specs.declared.moment.Said.TheVariants.{Did};
ghost use Rattle.klp_timeline.specs.Shown.{shown};
ghost use Rattle.klp_story.specs.Sentences.{said_text, sentence_text, sentences_text, earlier_text, story_text};

use crate::facts::add_fact;
use crate::sleepers::{add_linked, add_sleepers};
use crate::words::add_number;
use klp_catalog::Catalog;
use klp_markup::{Sheet, add_line_time};
use klp_modules::Modules;
use klp_names::Names;
use klp_timeline::{Fact, Said, Sentence, excess, is_left_out, left_out};

/// Adds a list item on a fact: `line`, the line's time if it is known, and the sentence on what the line did.
fn add_did(
    sheet: &mut Sheet,
    names: &Names,
    catalog: &Catalog,
    modules: &Modules,
    line: u64,
    fact: &Fact,
)
    requires { catalog.now.names ≡ modules.now.names }
    ensures { Adds sheet.old sheet.new (said_text names.now catalog.now line (Did fact.now)) }
{
    // For the proof only: texts that are added one after the other add up.
    klp_markup::laws::what_is_added_adds_up();
    add_linked(sheet, "<li>", "Line ", line);
    add_line_time(sheet, names, line);
    sheet.markup(": ");
    add_fact(sheet, catalog, modules, fact);
}

/// Adds a list item for a sentence, be it on a fact or on a stay of tasks.
fn add_sentence(
    sheet: &mut Sheet,
    names: &Names,
    catalog: &Catalog,
    modules: &Modules,
    sentence: &Sentence,
)
    requires { catalog.now.names ≡ modules.now.names }
    ensures { Adds sheet.old sheet.new (sentence_text names.now catalog.now sentence.now) }
{
    // For the proof only: texts that are added one after the other add up.
    klp_markup::laws::what_is_added_adds_up();
    let line = sentence.line;
    match &sentence.said {
        Said::Did(fact) => add_did(sheet, names, catalog, modules, line, fact),
        Said::Slept(sleepers) => add_sleepers(sheet, names, catalog, modules, line, sleepers),
    }
    sheet.markup("\n");
}

/// Adds a list item for each of a run's sentences that the page shows.
fn add_shown(
    sheet: &mut Sheet,
    names: &Names,
    catalog: &Catalog,
    modules: &Modules,
    sentences: &[Sentence],
)
    requires { catalog.now.names ≡ modules.now.names }
    ensures { Adds sheet.old sheet.new (sentences_text names.now catalog.now (shown sentences.now)) }
{
    // For the proof only: texts that are added one after the other add up.
    klp_markup::laws::what_is_added_adds_up();
    let mut excess = excess(sentences);
    for sentence in sentences {
        // `excess` is how many sentences must still be left out.
        if is_left_out(excess, sentence) {
            excess -= 1;
        } else {
            add_sentence(sheet, names, catalog, modules, sentence);
        }
    }
}

/// Adds a list item with the number of sentences that the page leaves out. Adds nothing if it leaves out none (`count`
/// is 0).
fn add_earlier(sheet: &mut Sheet, count: usize)
    ensures { Adds sheet.old sheet.new (earlier_text count) }
{
    // For the proof only: texts that are added one after the other add up.
    klp_markup::laws::what_is_added_adds_up();
    if count > 0 {
        let behind = " earlier, which the lines below tell.\n";
        add_number(sheet, "<li>And ", count as u64, behind);
    }
}

/// Adds a list item for each sentence that the page shows, in the order of their first lines, and an item that counts
/// the sentences that the page leaves out. `sentences` are all sentences of the run. The catalog must have been
/// assembled over these modules.
pub fn add_story(
    sheet: &mut Sheet,
    names: &Names,
    catalog: &Catalog,
    modules: &Modules,
    sentences: &[Sentence],
)
    requires { catalog.now.names ≡ modules.now.names }
    ensures { Adds sheet.old sheet.new (story_text names.now catalog.now sentences.now) }
{
    // For the proof only: texts that are added one after the other add up.
    klp_markup::laws::what_is_added_adds_up();
    add_shown(sheet, names, catalog, modules, sentences);
    add_earlier(sheet, left_out(sentences));
}
