//! The version of the programs, and which build one is.

/// The version of `VERSION`, and where a program is from. `tools/stamp` overwrites these bytes in the copy of a program
/// that is installed or packaged, by a text of the same length. So they stand in a program as they stand here, once.
const VERSION: &str =
    "0.1.0 (of a checkout; an installed one tells its revision, its kit and logic)";

/// Returns the version of the programs, and the revision, the kit and the logic of this one, if it was installed.
pub fn version_text<'a>() -> &'a str {
    VERSION
}
