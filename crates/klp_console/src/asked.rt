//! Returns the request of a line or a word, for callers that don't do the request at once. Only the manager's names are
//! used. The manager's state makes no difference.
ghost use Rattle.std.specs.Prelude.{◌≡◌};
ghost use Rattle.klp_console.specs.Asked.{event_of, site_of};

use klp_console_commands::{Asked, read_request};
use klp_core::Manager;
use klp_model::Event;
use klp_types::Site;
use klp_words::spelling_of;

/// Returns the event that a line asks for, even if the manager would refuse it. `line` has no line feed. Returns `None`
/// if the line has no words, is at fault, or asks for something other than an event. The cost is that of reading the
/// line.
pub fn event_of(line: &[u8], manager: &Manager) -> Option<Event>
    ensures { result ≡ event_of manager.now line.now }
{
    let mut event = Event::Poll;
    match read_request(line, manager.catalog(), manager.modules(), &mut event) {
        Some(Ok(Asked::Take)) => Some(event),
        _ => None,
    }
}

/// Returns the site of the symbol that a word spells. The symbol's object needn't be loaded, since a site keeps its
/// number when a module is loaded or unloaded. Returns `None` if the word isn't the spelling of a symbol, or if there
/// is no such symbol. The cost is a look-up of the object's name and one of the symbol's name.
pub fn site_of(symbol: &[u8], manager: &Manager) -> Option<Site>
    ensures { result ≡ site_of manager.now symbol.now }
{
    let spelling = spelling_of(symbol)?;
    let modules = manager.modules();
    let object = modules.object(spelling.object)?;
    match modules.resolve(object, spelling.symbol, spelling.sympos) {
        Ok(site) => Some(site),
        Err(_) => None,
    }
}
