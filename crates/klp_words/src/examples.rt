//! Worked examples of the definitions. A function of this module does nothing. The function's contract is the example,
//! which is proved by computing the definition.
ghost use Rattle.std.specs.Prelude.{◌≡◌, ◌^◌, pos, negsuc, true, false, [], ◌∷◌, replicate, codes, Some, None};
ghost use Rattle.klp_words.specs.declared.split.Separators.TheVariants.{Spaces, SpacesAndTabs};
ghost use Rattle.klp_words.specs.Seconds.{seconds_of};
ghost use Rattle.klp_words.specs.Split.{separates, words_between};
ghost use Rattle.klp_words.specs.Words.{is_name, is_symbol_name, hexadecimal_of, decimal_of, sympos_of, status_of};
ghost use Rattle.klp_words.specs.Words.{shadow_value_of, value_text, spelling_of};

/// Words are separated by any number of separators. If only spaces are separators, a tab is part of a word.
pub fn words_stand_between_separators()
    ensures spaces { words_between (separates Spaces) (codes "  load   p ") ≡ codes "load" ∷ codes "p" ∷ [] }
    ensures tab_of_a_word { words_between (separates Spaces) (codes "a\tb c") ≡ codes "a\tb" ∷ codes "c" ∷ [] }
    ensures tabs { words_between (separates SpacesAndTabs) (codes "a\tb \t c") ≡ codes "a" ∷ codes "b" ∷ codes "c" ∷ [] }
    ensures none { words_between (separates SpacesAndTabs) (codes " \t ") ≡ [] }
    ensures empty { words_between (separates Spaces) [] ≡ [] }
{}

/// A name has 1 to 55 letters, digits, `_` and `-`.
pub fn names_have_1_to_55_bytes()
    ensures all_kinds { is_name (codes "Fix_2024-b") ≡ true }
    ensures none { is_name [] ≡ false }
    ensures dot { is_name (codes "a.b") ≡ false }
    ensures slash { is_name (codes "a/b") ≡ false }
    ensures dollar { is_name (codes "a$b") ≡ false }
    ensures longest { is_name (replicate 55 97) ≡ true }
    ensures too_long { is_name (replicate 56 97) ≡ false }
{}

/// The name of a symbol has 1 to 127 letters, digits, `_`, `.` and `$`.
pub fn symbols_have_1_to_127_bytes()
    ensures all_kinds { is_symbol_name (codes "do_Work.isra.0$x") ≡ true }
    ensures none { is_symbol_name [] ≡ false }
    ensures dash { is_symbol_name (codes "a-b") ≡ false }
    ensures comma { is_symbol_name (codes "a,b") ≡ false }
    ensures longest { is_symbol_name (replicate 127 97) ≡ true }
    ensures too_long { is_symbol_name (replicate 128 97) ≡ false }
{}

/// An address is 1 to 16 hexadecimal digits in either case, the highest digit first.
pub fn addresses_have_1_to_16_digits()
    ensures either_case { hexadecimal_of (codes "ffffffffC000a10B") ≡ Some 0xffff_ffff_c000_a10b }
    ensures short { hexadecimal_of (codes "1a") ≡ Some 26 }
    ensures zeros_in_front { hexadecimal_of (codes "000000000000001a") ≡ Some 26 }
    ensures too_long { hexadecimal_of (codes "0000000000000001a") ≡ None }
    ensures none { hexadecimal_of [] ≡ None }
    ensures prefix { hexadecimal_of (codes "0x1a") ≡ None }
    ensures letter { hexadecimal_of (codes "1g") ≡ None }
{}

/// A decimal number has only digits, and is below its limit. Leading zeros are allowed.
pub fn decimal_numbers_are_digits()
    ensures zeros_in_front { decimal_of (2 ^ 64) (codes "0070") ≡ Some 70 }
    ensures greatest { decimal_of (2 ^ 64) (codes "18446744073709551615") ≡ Some 0xffff_ffff_ffff_ffff }
    ensures too_great { decimal_of (2 ^ 64) (codes "18446744073709551616") ≡ None }
    ensures none { decimal_of (2 ^ 64) [] ≡ None }
    ensures plus { decimal_of (2 ^ 64) (codes "+1") ≡ None }
    ensures minus { decimal_of (2 ^ 64) (codes "-1") ≡ None }
    ensures hexadecimal { decimal_of (2 ^ 64) (codes "1a") ≡ None }
    ensures greatest_position { sympos_of (codes "4294967295") ≡ Some 0xffff_ffff }
    ensures position_too_great { sympos_of (codes "4294967296") ≡ None }
{}

/// A status has 32 bits, and at most one sign, which is a minus.
pub fn a_status_has_a_minus_or_none()
    ensures success { status_of (codes "0") ≡ Some (pos 0) }
    ensures fault { status_of (codes "-16") ≡ Some (negsuc 15) }
    ensures greatest { status_of (codes "2147483647") ≡ Some (pos 0x7fff_ffff) }
    ensures too_great { status_of (codes "2147483648") ≡ None }
    ensures least { status_of (codes "-2147483648") ≡ Some (negsuc 0x7fff_ffff) }
    ensures too_small { status_of (codes "-2147483649") ≡ None }
    ensures none { status_of [] ≡ None }
    ensures minus_alone { status_of (codes "-") ≡ None }
    ensures two { status_of (codes "--1") ≡ None }
    ensures plus { status_of (codes "+1") ≡ None }
{}

/// The value of a shadow variable is spelled either as a number or as bytes. A number means its eight bytes, the lowest
/// first. Bytes are spelled as `x` and two digits for each of up to 64 bytes. A value of eight bytes is written as a
/// number, and any other value with `x`.
pub fn values_are_numbers_or_bytes()
    ensures number { shadow_value_of (codes "513") ≡ Some (1 ∷ 2 ∷ 0 ∷ 0 ∷ 0 ∷ 0 ∷ 0 ∷ 0 ∷ []) }
    ensures too_great { shadow_value_of (codes "18446744073709551616") ≡ None }
    ensures bytes { shadow_value_of (codes "x0aFf") ≡ Some (10 ∷ 255 ∷ []) }
    ensures no_bytes { shadow_value_of (codes "x") ≡ Some [] }
    ensures half_a_byte { shadow_value_of (codes "x0") ≡ None }
    ensures no_digit { shadow_value_of (codes "x0g") ≡ None }
    ensures upper_case { shadow_value_of (codes "X0a") ≡ None }
    ensures none { shadow_value_of [] ≡ None }
    ensures longest { shadow_value_of (120 ∷ replicate 128 48) ≡ Some (replicate 64 0) }
    ensures too_long { shadow_value_of (120 ∷ replicate 130 48) ≡ None }
    ensures number_written { value_text (5 ∷ 0 ∷ 0 ∷ 0 ∷ 0 ∷ 0 ∷ 0 ∷ 0 ∷ []) ≡ codes "5" }
    ensures bytes_written { value_text (10 ∷ 255 ∷ []) ≡ codes "x0aff" }
    ensures nothing_written { value_text [] ≡ codes "x" }
{}

/// A symbol is spelled `.klp.sym.objname.symbol_name,sympos`. The object's name ends at the first dot, so the
/// symbol's name may have dots. The symbol's name ends at the comma.
pub fn symbols_are_spelled_with_object_and_position()
    ensures plain { spelling_of (codes ".klp.sym.vmlinux.f,0")
        ≡ Some (record { object = codes "vmlinux"; symbol = codes "f"; sympos = 0 }) }
    ensures dots { spelling_of (codes ".klp.sym.m.work.isra.0,12")
        ≡ Some (record { object = codes "m"; symbol = codes "work.isra.0"; sympos = 12 }) }
    ensures no_position { spelling_of (codes ".klp.sym.m.f,") ≡ None }
    ensures no_comma { spelling_of (codes ".klp.sym.m.f") ≡ None }
    ensures two_commas { spelling_of (codes ".klp.sym.m.f,1,2") ≡ None }
    ensures no_object { spelling_of (codes ".klp.sym..f,0") ≡ None }
    ensures no_symbol { spelling_of (codes ".klp.sym.m.,0") ≡ None }
    ensures no_dot { spelling_of (codes ".klp.sym.f,0") ≡ None }
    ensures no_prefix { spelling_of (codes "klp.sym.m.f,0") ≡ None }
    ensures minus { spelling_of (codes ".klp.sym.m.f,-1") ≡ None }
{}

/// A time is seconds, whole or with one to six decimals.
pub fn times_are_seconds()
    ensures whole { seconds_of (codes "12") ≡ Some 12_000_000 }
    ensures decimals { seconds_of (codes "12.345") ≡ Some 12_345_000 }
    ensures zeros_in_front { seconds_of (codes "007.05") ≡ Some 7_050_000 }
    ensures least { seconds_of (codes "0.000001") ≡ Some 1 }
    ensures too_small { seconds_of (codes "0.0000001") ≡ None }
    ensures greatest { seconds_of (codes "18446744073709.551615") ≡ Some 0xffff_ffff_ffff_ffff }
    ensures too_great { seconds_of (codes "18446744073709.551616") ≡ None }
    ensures no_decimals { seconds_of (codes "12.") ≡ None }
    ensures no_seconds { seconds_of (codes ".5") ≡ None }
    ensures two_points { seconds_of (codes "1.2.3") ≡ None }
    ensures minus { seconds_of (codes "-1.5") ≡ None }
    ensures none { seconds_of [] ≡ None }
{}
