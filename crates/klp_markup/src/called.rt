//! The names of tasks on a page.
ghost use Rattle.std.specs.Prelude.{◌≡◌, ◌<◌, ◌≤◌, ◌++◌, length, take, codes, option_map};
ghost use Rattle.klp_markup.specs.Adds.{Adds};
ghost use Rattle.klp_markup.specs.Called.{goes_on, last_begin, shown_text, called_text};

use crate::sheet::{Sheet, Value};
use klp_names::Names;
use klp_types::TaskId;

/// How many bytes of a task's name a page shows at most.
pub const MAX_SHOWN: usize = 32;

/// Whether a byte of UTF-8 continues a character. Any other byte begins a character.
fn goes_on(byte: u8) -> bool
    ensures { result ≡ goes_on byte }
{
    // The bytes that continue a character are 0x80 to 0xbf.
    byte >= 128 && byte < 192
}

/// Returns the part of a long name that is shown: the first [`MAX_SHOWN`] bytes, or fewer where these would cut a
/// character of UTF-8. The name must be longer than [`MAX_SHOWN`] bytes.
fn front_of(name: &[u8]) -> &[u8]
    requires { MAX_SHOWN < length name.now }
    ensures { result.now ≡ take (last_begin MAX_SHOWN name.now) name.now }
{
    let mut end = MAX_SHOWN;
    while end > 0 && goes_on(name[end]) {
        end -= 1;
    }
    &name[..end]
}

/// Adds a task's name, escaped. If the name is longer than [`MAX_SHOWN`] bytes, adds only its first part and an
/// ellipsis.
fn add_shown(sheet: &mut Sheet, name: &[u8])
    ensures { Adds sheet.old sheet.new (shown_text name.now) }
{
    // For the proof only: texts that are added one after the other add up.
    crate::laws::what_is_added_adds_up();
    if name.len() > MAX_SHOWN {
        sheet.words(front_of(name));
        sheet.markup("&hellip;");
    } else {
        sheet.words(name);
    }
}

/// Adds a space and a task's name in the font of code, to stand after the task's number. Adds nothing if the name isn't
/// known (`None`).
pub(crate) fn add_called(sheet: &mut Sheet, name: Option<&[u8]>)
    ensures { Adds sheet.old sheet.new (called_text (option_map (λ name. name.now) name.entry)) }
{
    // For the proof only: texts that are added one after the other add up.
    crate::laws::what_is_added_adds_up();
    if let Some(name) = name {
        sheet.markup(" <bdi class=m>");
        add_shown(sheet, name);
        sheet.markup("</bdi>");
    }
}

/// Adds a task's number and, if it is known, the task's name, without the markup that [`add_called`] adds: a tooltip
/// can have none. If the name is longer than [`MAX_SHOWN`] bytes, adds only its first part and an ellipsis. The
/// function has no contract, and is for layout.
pub fn add_plain_task(sheet: &mut Sheet, names: &Names, task: TaskId) {
    sheet.number(u64::from(task.0));
    match names.name(task) {
        Some(name) if name.len() > MAX_SHOWN => {
            sheet.fill(" {}&hellip;", &[Value::Text(front_of(name))]);
        }
        Some(name) => sheet.fill(" {}", &[Value::Text(name)]),
        None => {}
    }
}
