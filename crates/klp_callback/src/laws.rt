//! What an author of callbacks can rely on, whatever the scripts are. A function of this module does nothing: its
//! contract is the law.
ghost use Rattle.std.specs.Prelude.{◌≡◌, ℕ, Bool, ◌||◌, true, false};
ghost use Rattle.klp_types.specs.declared.shadow.ShadowKey.{ShadowKey};
ghost use Rattle.klp_types.specs.World.{World, variable};
ghost use Rattle.klp_types.specs.Script.{Script, effect, touches, Undoes};

/// A script changes no shadow variable that it doesn't touch. Suppose one script undoes another, and a third script
/// touches none of their variables. Then the first script also undoes the second in the world that the third leaves. So
/// two callbacks keep undoing each other as long as no other callback touches their variables.
pub fn scripts_apart_still_undo_each_other()
    ensures alone { (patch : ℕ) (world : World) (script : Script) (key : ShadowKey) → touches script key ≡ false
        → variable (effect patch world script) key ≡ variable world key }
    ensures undo { (patch other : ℕ) (world : World) (script done back : Script)
        → ((key : ShadowKey) → (touches done key || touches back key) ≡ true → touches script key ≡ false)
        → Undoes patch back done world → Undoes patch back done (effect other world script) }
{
    klp_types::laws::untouched_variables_stay();
    klp_types::laws::edits_go_key_by_key();
}
