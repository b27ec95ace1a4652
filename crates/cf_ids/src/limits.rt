//! The limits of a script and of a run. They are this project's own.

/// The most bytes of a script.
pub const SCRIPT_BYTES: usize = 1_048_576;

/// The most threads of a script, setup among them.
pub const THREADS: usize = 64;

/// The most variables of one block, a handler's `info` and used variables among them.
pub const VARIABLES: usize = 256;

/// The most types that a registry has, of which 13 are built in.
pub const TYPES: usize = 1_024;

/// Types have numbers up to this: those of a registry, and one beside it.
pub const TYPE_NUMBERS: usize = 1_025;

/// The most handlers of a script.
pub const HANDLERS: usize = 1_024;

/// The most names of run-loop modes of a script, `default` among them.
pub const MODES: usize = 1_024;

/// The most names of notices of a script.
pub const NOTICES: usize = 1_024;

/// The most fields of a class.
pub const FIELDS: usize = 255;

/// The most objects that one run makes. Their numbers are below it and are never used again.
pub const OBJECTS: usize = 65_536;

/// Objects have numbers below this: those that a run makes, and after them up to 1,024 constants of a script.
pub const OBJECT_NUMBERS: usize = 66_560;

/// The most entries of a journal if the command names no limit.
pub const DEFAULT_LIMIT: usize = 1_000_000;

/// The largest limit that a command may name.
pub const LARGEST_LIMIT: usize = 4_000_000;
