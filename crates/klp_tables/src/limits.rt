//! All limits of the modules that are read.

/// How many bytes a module's file may have.
pub const MAX_FILE: usize = 64 << 20;

/// How many patches may be compared.
pub const MAX_PATCHES: usize = 64;

/// How many functions a patch may have.
pub const MAX_FUNCTIONS: usize = 4096;

/// How many objects a patch may have.
pub const MAX_OBJECTS: usize = 256;

/// How many states a patch may have.
pub const MAX_STATES: usize = 64;
