//! A law about lists of findings. A function of this module does nothing: its contract is the law.
ghost use Rattle.std.specs.Prelude.{◌≡◌, ℕ, true};
ghost use Rattle.klp_types.specs.Setting.{Setting};
ghost use Rattle.klp_model.specs.State.{State};
ghost use Rattle.klp_lint_findings.specs.declared.findings.Findings.{Findings};
ghost use Rattle.klp_lint_findings.specs.Sound.{one_decides, Vouches};

/// If a list vouches for a patch, so does each later list about the same catalog that keeps what decides.
pub fn a_later_list_vouches_too()
    ensures { (setting : Setting) (state : State) (patch : ℕ) (before after : Findings)
        → after.linted ≡ before.linted
        → (one_decides before.said.items ≡ true → one_decides after.said.items ≡ true)
        → Vouches setting state patch before → Vouches setting state patch after }
{}
