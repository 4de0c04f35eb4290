//! The cards of sites.

use klp_core::Manager;
use klp_markup::Value::{Name, Words};
use klp_markup::{Sheet, add_symbol, function_name, patch_name};
use klp_text::entry_bytes;
use klp_types::{ENTRY_SITE_LEN, Entry, Site};

/// Adds the bytes of a site's entry site. If the site's object isn't loaded, adds words that say so instead. Adds
/// nothing if there is no such site.
fn add_bytes(sheet: &mut Sheet, manager: &Manager, site: Site) {
    let Some((object, _, _)) = manager.modules().symbol(site) else {
        return;
    };
    let Some(text) = manager.text(object) else {
        sheet.markup("<p>its object isn't loaded</p>");
        return;
    };
    // The sites of an object have successive numbers.
    let place = usize::from(site.0).saturating_sub(manager.first_site(object));
    let Some((_, _, body)) = text.get(place as u16) else {
        return;
    };
    let mut digits = [0; 2 * ENTRY_SITE_LEN];
    if let Some(bytes) = entry_bytes(body)
        && hex::encode_to_slice(bytes, &mut digits).is_ok()
    {
        sheet.fill("<p>entry site: {}</p>", &[Name(&digits)]);
    }
}

/// Adds a list item for an entry of a function stack: `PATCH NEWNAME`, or `PATCH nop`.
fn add_entry(sheet: &mut Sheet, manager: &Manager, entry: &Entry) {
    let catalog = manager.catalog();
    let function = match entry.func {
        Some(function) => function_name(catalog, entry.patch, function),
        None => b"nop",
    };
    let patch = patch_name(catalog, entry.patch);
    sheet.fill("<li>{} {}", &[Words(patch), Words(function)]);
}

/// Adds the card of a site: its symbol, its function stack, and the bytes of its entry site, or words that say that its
/// object isn't loaded. `entries` is the function stack, and must be newest first.
pub(crate) fn add_site_card(sheet: &mut Sheet, manager: &Manager, site: Site, entries: &[Entry]) {
    sheet.markup("<div class=card><b class=m>");
    add_symbol(sheet, manager.modules(), site);
    if entries.is_empty() {
        sheet.markup("</b><p>no entry: the function as it was built</p>");
    } else {
        sheet.markup("</b><p>entries, newest first:</p><ol class=m>");
        for entry in entries {
            add_entry(sheet, manager, entry);
        }
        sheet.markup("</ol>");
    }
    add_bytes(sheet, manager, site);
    sheet.markup("</div>");
}
