//! What is proved of the definitions themselves. Each law is the contract of a function that does nothing. The laws
//! show that the definitions mean what they should. Crates above may rely on the laws.
ghost use Rattle.std.specs.Prelude.{◌≡◌, ℕ, ◌+◌, ◌-◌, ◌^◌, ◌<◌, ◌≤◌, Bool, ◌==◌, ◌&&◌, ◌||◌, true, false, not, List};
ghost use Rattle.std.specs.Prelude.{[], ◌∷◌, ◌++◌, length, map, take, drop, get_or, slice_get, Option, Some, is_some};
ghost use Rattle.std.specs.Prelude.{option_map, IfSome};
ghost use Rattle.std.specs.Int.{w64, to_le_bytes};
ghost use Rattle.std.specs.List.{All, list_any};
ghost use Rattle.std.specs.Cmp.{IsTotalOrder};
ghost use Rattle.std.specs.Ordering.{eq_by_cmp};
ghost use Rattle.std.specs.FinMap as finite;
ghost use Rattle.klp_types.specs.declared.shadow.ShadowKey.{ShadowKey};
ghost use Rattle.klp_types.specs.declared.edit.Edit.{Edit};
ghost use Rattle.klp_types.specs.declared.version.Entry.{Entry};
ghost use Rattle.klp_types.specs.Image.{Image, Object, symbols_of, first_site, given_symbol};
ghost use Rattle.klp_types.specs.Setting.{Setting, functions_of, function_for, replaces};
ghost use Rattle.klp_types.specs.Entries.{patches_site, entry_of, entries_from, is_empty};
ghost use Rattle.klp_types.specs.Bytes.{symbol_in, patched, resting, text_where};
ghost use Rattle.klp_types.specs.World.{Installed, World, Shadow, ShadowValue, key_cmp, number_of, variable, states_of};
ghost use Rattle.klp_types.specs.Script.{Script, alloc_count, is_key, value_taken, edited, edited_at, edited_by};
ghost use Rattle.klp_types.specs.Script.{made_of, edits_made, effect, edit_touches, touches};
ghost use Rattle.klp_types.specs.Callbacks.{Call, after_calls};

use crate::limits::{
    ANSWER_ROOM, ENTRY_SITE_LEN, MAX_ADDRESS_DIGITS, MAX_BODY, MAX_CALLBACK_RECORDS,
    MAX_COMING_EDITS, MAX_CONSOLE_LINE, MAX_EDITS, MAX_ENABLING_RECORDS, MAX_FRAMES, MAX_FUNCTIONS,
    MAX_GOING_EDITS, MAX_GROUPS, MAX_INDEX, MAX_JOURNAL_RECORDS, MAX_KIND_RECORDS, MAX_LINE,
    MAX_LIST_RECORDS, MAX_MARK, MAX_NAME, MAX_OBJECTS, MAX_PATCHES, MAX_READS, MAX_RECORD_WORDS,
    MAX_RECORDS, MAX_SITES, MAX_STATES, MAX_SYMBOL_NAME, MAX_TARGETS, MAX_TASK_NUMBER, MAX_TASKS,
    MAX_VALUE_BYTES, MAX_VARIABLES, READ_ROOM, RECORDS_AFTER_CALLBACKS, RECORDS_AFTER_LIST,
    RECORDS_AFTER_SITES, RECORDS_BEFORE_SITES,
};

/// In the text of an object, each function reads as it was built, except for its entry site. So hooks never change the
/// bytes after the entry site.
pub fn text_is_as_built_but_for_entry_sites()
    ensures { (image : Image) (hooked : ℕ → Bool) (object : ℕ) (number : ℕ)
        → symbol_in (text_where image hooked object) number
        ≡ option_map (patched image.handler (hooked (first_site image.objects object + number)))
        (given_symbol image object number) }
{}

/// A function whose site isn't hooked reads as it was built, but with the NOP at its entry site. So a function that no
/// patch changes runs its own body.
pub fn text_has_a_nop_where_not_hooked()
    ensures { (image : Image) (hooked : ℕ → Bool) (object : ℕ) (number : ℕ)
        → hooked (first_site image.objects object + number) ≡ false
        → symbol_in (text_where image hooked object) number ≡ option_map resting (given_symbol image object number) }
{}

/// The keys of shadow variables are in a total order, and keys that compare as equal are equal. Finite maps need such
/// an order, since the value of a map mustn't depend on the order of insertions.
pub fn keys_are_in_order()
    ensures total { IsTotalOrder key_cmp }
    ensures antisymmetric { finite.IsAntisymmetric key_cmp }
    ensures same { (key own : ShadowKey) → eq_by_cmp key_cmp key own ≡ is_key own key }
    ensures one { (own key : ShadowKey) → is_key own key ≡ true → own ≡ key }
{}

/// Removing shadow variables never increases the number of variables. So a removal never lacks room.
pub fn no_more_variables_are_left()
    ensures { (shadow : Shadow) (keep : ShadowKey → Bool)
        → finite.len (finite.retain_keys shadow keep) ≤ finite.len shadow }
{}

/// An edit or a list of edits changes each shadow variable independently of all others. So the effect of a script on
/// one variable can be computed without the other variables.
pub fn edits_go_key_by_key()
    ensures each { (patch : ℕ) (world : World) (edit : Edit) (key : ShadowKey)
        → variable (edited patch world edit) key ≡ edited_at key (variable world key) edit }
    ensures all { (patch : ℕ) (world : World) (edits : List Edit) (key : ShadowKey)
        → variable (edited_by patch world edits) key ≡ made_of key (variable world key) edits }
{}

/// An edit or a script doesn't change a shadow variable that it doesn't touch. So the scripts of a patch show which
/// variables the patch's callbacks can have changed.
pub fn untouched_variables_stay()
    ensures edits { (edits : List Edit) (key : ShadowKey) (was : Option ShadowValue)
        → list_any (edit_touches key) edits ≡ false → made_of key was edits ≡ was }
    ensures script { (patch : ℕ) (world : World) (script : Script) (key : ShadowKey) → touches script key ≡ false
        → variable (effect patch world script) key ≡ variable world key }
{}

/// Two scripts that touch no common shadow variable leave the same shadow variables in either order. The values of
/// system states can depend on the order: if two scripts of one patch set the same state, the later script decides.
pub fn scripts_apart_commute()
    ensures { (p q : ℕ) (a b : Script) (world : World) → ((key : ShadowKey) → (touches a key && touches b key) ≡ false)
        → (effect q (effect p world a) b).shadow ≡ (effect p (effect q world b) a).shadow }
{}

/// A script doesn't change the states of other patches, since no edit names another patch.
pub fn states_of_others_stay()
    ensures { (patch other : ℕ) (world : World) (script : Script) → (other ≡ patch → ⊥)
        → states_of other (effect patch world script).installed ≡ states_of other world.installed }
{}

/// A script doesn't change which patches are installed, or their order. So callbacks can't enable or disable
/// patches.
pub fn installed_patches_stay()
    ensures { (patch : ℕ) (world : World) (script : Script)
        → map (λ (i : Installed). i.patch) (effect patch world script).installed
        ≡ map (λ (i : Installed). i.patch) world.installed }
{}

/// If there is room for all shadow variables that a list of edits adds, there is still room after the first edit for
/// the variables that the remaining edits add. So it is enough to check the room once, before the first edit.
pub fn edits_keep_to_their_room()
    ensures { (patch : ℕ) (world : World) (edit : Edit) (edits : List Edit)
        → finite.len (edited patch world edit).shadow + alloc_count edits ≤ finite.len world.shadow + alloc_count (edit
        ∷ edits) }
{}

/// A script adds at most as many shadow variables as it has edits that add one. The script adds fewer if a variable
/// exists already, or if a later edit removes a variable.
pub fn variables_are_few()
    ensures { (patch : ℕ) (world : World) (script : Script)
        → finite.len (effect patch world script).shadow ≤ finite.len world.shadow + alloc_count script.edits }
{}

/// A script has at least as many edits as it has edits that add a shadow variable. So its number of edits bounds how
/// many variables it adds. A script whose status isn't 0 makes no edit.
pub fn allocs_are_edits()
    ensures each { (edits : List Edit) → alloc_count edits ≤ length edits }
    ensures made { (script : Script) → alloc_count (edits_made script) ≤ alloc_count script.edits }
{}

/// Which shadow variables callbacks leave depends only on the shadow variables before the callbacks run. Nothing else
/// of the world matters. `TakePrev` changes a system state, and no shadow variable.
pub fn variables_go_by_variables_alone()
    ensures taken { (world : World) (patch id : ℕ) (value : Option ℕ)
        → (value_taken world patch id value).shadow ≡ world.shadow }
    ensures after { (a b : World) (calls : List Call) → a.shadow ≡ b.shadow
        → (after_calls a calls).shadow ≡ (after_calls b calls).shadow }
{}

/// The sites of an image are the symbols of its objects, one object after another. So an object's first site and its
/// number of symbols determine its sites.
pub fn sites_go_object_by_object()
    ensures both { (first others : List Object) → symbols_of (first ++ others) ≡ symbols_of first ++ symbols_of others }
    ensures one_more { (objects : List Object) (index : ℕ) (at : Object) → index < length objects
        → symbols_of (take (index + 1) objects) ≡ symbols_of (take index objects) ++ (get_or objects index at).symbols }
    ensures one_fewer { (objects : List Object) (index : ℕ) (at : Object) → index < length objects
        → symbols_of (drop index objects) ≡ (get_or objects index at).symbols ++ symbols_of (drop (index + 1) objects) }
{}

/// The sites of an object are consecutive, beginning with its first site. So a walk over an object's sites just counts
/// up.
pub fn sites_of_an_object_stand_together()
    ensures symbols { (objects : List Object) (index place : ℕ) (object : Object)
        → slice_get objects index ≡ Some object → place < length object.symbols
        → slice_get (symbols_of objects) (first_site objects index + place) ≡ slice_get object.symbols place }
    ensures within { (objects : List Object) (index : ℕ) (object : Object) → slice_get objects index ≡ Some object
        → first_site objects index + length object.symbols ≤ length (symbols_of objects) }
{}

/// If a value is made of a number, reading the value's eight bytes returns that number. So a variable shows the number
/// to which it was set.
pub fn numbers_are_read_as_written()
    ensures { (number : ℕ) → number < 2 ^ 64 → number_of (to_le_bytes w64 number) ≡ Some number }
{}

/// Patches put an entry on a site exactly when one of the patches has a function for the site. So nops alone never hook
/// a site.
pub fn entries_stand_where_functions_are()
    ensures { (setting : Setting) (site : ℕ) (patches : List ℕ)
        → not (is_empty (entries_from setting site patches)) ≡ list_any (patches_site setting site) patches }
{}

/// The newest patch has its entry on top of the entries of older patches. This entry is the patch's function for the
/// site. If the patch has no function for the site, but is cumulative and there is an entry below, its entry is a nop.
pub fn the_newest_entry_is_on_top()
    ensures { (setting : Setting) (site patch : ℕ) (older : List ℕ)
        → entries_from setting site (patch ∷ older)
        ≡ entry_of patch (function_for (functions_of setting patch) site) (replaces setting patch
        && not (is_empty (entries_from setting site older)))
        ++ entries_from setting site older }
{}

/// Each entry belongs to one of the patches. The patch of an entry has a function for the site or is cumulative. If the
/// entry isn't a nop, it names a function that its patch has.
pub fn entries_are_of_their_patches()
    ensures installed { (setting : Setting) (site patch : ℕ) (patches : List ℕ)
        → list_any (λ (e : Entry). e.patch == patch) (entries_from setting site patches) ≡ true
        → list_any (λ p. p == patch) patches ≡ true }
    ensures own { (setting : Setting) (site patch : ℕ) (patches : List ℕ)
        → list_any (λ (e : Entry). e.patch == patch) (entries_from setting site patches) ≡ true
        → (is_some (function_for (functions_of setting patch) site) || replaces setting patch) ≡ true }
    ensures functions { (setting : Setting) (site : ℕ) (patches : List ℕ)
        → All (λ (e : Entry). IfSome e.func (λ f. f < length (functions_of setting e.patch)))
        (entries_from setting site patches) }
{}

/// The value of each limit, and the length of an entry site. Some definitions write these numbers out, so this law
/// fails if a constant changes.
pub fn limits_are_these()
    ensures objects { MAX_OBJECTS ≡ 17 }
    ensures sites { MAX_SITES ≡ 256 }
    ensures entry_site { ENTRY_SITE_LEN ≡ 5 }
    ensures body { MAX_BODY ≡ 256 }
    ensures patches { MAX_PATCHES ≡ 16 }
    ensures targets { MAX_TARGETS ≡ 8 }
    ensures functions { MAX_FUNCTIONS ≡ 64 }
    ensures states { MAX_STATES ≡ 16 }
    ensures edits { MAX_EDITS ≡ 16 }
    ensures variables { MAX_VARIABLES ≡ 512 }
    ensures value_bytes { MAX_VALUE_BYTES ≡ 64 }
    ensures tasks { MAX_TASKS ≡ 64 }
    ensures frames { MAX_FRAMES ≡ 32 }
    ensures records { MAX_RECORDS ≡ 4096 }
    ensures record_words { MAX_RECORD_WORDS ≡ 36 }
    ensures list_records { MAX_LIST_RECORDS ≡ 17 }
    ensures callback_records { MAX_CALLBACK_RECORDS ≡ 32 }
    ensures kind_records { MAX_KIND_RECORDS ≡ 256 }
    ensures enabling_records { MAX_ENABLING_RECORDS ≡ 512 }
    ensures coming_edits { MAX_COMING_EDITS ≡ 1024 }
    ensures going_edits { MAX_GOING_EDITS ≡ 512 }
    ensures before_sites { RECORDS_BEFORE_SITES ≡ 2048 }
    ensures after_sites { RECORDS_AFTER_SITES ≡ 2400 }
    ensures after_callbacks { RECORDS_AFTER_CALLBACKS ≡ 3500 }
    ensures after_list { RECORDS_AFTER_LIST ≡ 3800 }
    ensures groups { MAX_GROUPS ≡ 4096 }
    ensures journal_records { MAX_JOURNAL_RECORDS ≡ 16384 }
    ensures line { MAX_LINE ≡ 4096 }
    ensures name { MAX_NAME ≡ 55 }
    ensures symbol_name { MAX_SYMBOL_NAME ≡ 127 }
    ensures address { MAX_ADDRESS_DIGITS ≡ 16 }
    ensures console_line { MAX_CONSOLE_LINE ≡ 256 }
    ensures task_number { MAX_TASK_NUMBER ≡ 65535 }
    ensures index { MAX_INDEX ≡ 65535 }
    ensures mark { MAX_MARK ≡ 4294967295 }
    ensures reads { MAX_READS ≡ 1000000 }
    ensures read_room { READ_ROOM ≡ 4096 }
    ensures answer_room { ANSWER_ROOM ≡ 4096 }
{}
