//! What a page says in words, and how text from a run becomes markup.
ghost use Rattle.std.specs.Prelude.{◌≡◌};
ghost use Rattle.klp_markup.specs.Adds.{Adds};
ghost use Rattle.klp_markup.specs.Escaped.{words_text};
ghost use Rattle.klp_markup.specs.Tasks.{task_text};
ghost use Rattle.klp_markup.specs.Times.{line_time};
ghost use Rattle.klp_story.specs.End.{end_text};
ghost use Rattle.klp_story.specs.Sentences.{story_text};

use klp_catalog::Catalog;
use klp_markup::Sheet;
use klp_modules::Modules;
use klp_names::Names;
use klp_timeline::{Sentence, View};
use klp_types::TaskId;

/// Adds a name, escaped, as [`Sheet::words`] does.
pub fn add_words(sheet: &mut Sheet, name: &[u8])
    ensures { Adds sheet.old sheet.new (words_text name.now) }
{
    sheet.words(name);
}

/// Adds a task's number and its name, as [`klp_markup::add_task`] does.
pub fn add_task(sheet: &mut Sheet, names: &Names, task: TaskId)
    ensures { Adds sheet.old sheet.new (task_text names.now task) }
{
    klp_markup::add_task(sheet, names, task);
}

/// Adds the time of a line, as [`klp_markup::add_line_time`] does.
pub fn add_line_time(sheet: &mut Sheet, names: &Names, line: u64)
    ensures { Adds sheet.old sheet.new (line_time names.now line) }
{
    klp_markup::add_line_time(sheet, names, line);
}

/// Adds the sentences of a run, as [`klp_story::add_story`] does.
pub fn add_story(
    sheet: &mut Sheet,
    names: &Names,
    catalog: &Catalog,
    modules: &Modules,
    sentences: &[Sentence],
)
    requires { catalog.now.names ≡ modules.now.names }
    ensures { Adds sheet.old sheet.new (story_text names.now catalog.now sentences.now) }
{
    klp_story::add_story(sheet, names, catalog, modules, sentences);
}

/// Adds how a run ends, as [`klp_story::add_end`] does.
pub fn add_end(
    sheet: &mut Sheet,
    names: &Names,
    catalog: &Catalog,
    modules: &Modules,
    view: &View,
    sentences: &[Sentence],
    refused: &Option<u64>,
)
    requires { catalog.now.names ≡ modules.now.names }
    ensures { Adds sheet.old sheet.new (end_text names.now catalog.now view.now sentences.now refused.now) }
{
    klp_story::add_end(sheet, names, catalog, modules, view, sentences, refused);
}
