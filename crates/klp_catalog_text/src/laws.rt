//! What is proved of the spelling of scripts. A function of this module does nothing: its contract is the law.
ghost use Rattle.std.specs.Prelude.{◌≡◌, Ok};
ghost use Rattle.klp_types.specs.Script.{Script};
ghost use Rattle.klp_catalog_text.specs.Edits.{script_of};
ghost use Rattle.klp_catalog_text.specs.Spelled.{IsScript, script_words};

/// Every script that a callback may have can be written as words. Reading these words returns the script. So two
/// scripts never have the same words, and an administrator can write any script.
pub fn scripts_are_read_back()
    ensures { (script : Script) → IsScript script → script_of (script_words script) ≡ Ok script }
{}
