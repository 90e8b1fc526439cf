//! The limits on what is read, each stated here alone; `specs/Limits.antt` has them for contracts.

/// The greatest magnitude of an integer: 2^126 - 1.
pub const MAX_MAGNITUDE: u128 = (1 << 126) - 1;

/// The most bytes of a file: 64 MiB.
pub const MAX_BYTES: usize = 67_108_864;

/// The most variables of an instance, undefined cells of arrays among them, or of a model.
pub const MAX_VARIABLES: u64 = 1_048_576;

/// The most items of an instance, words of all `args` and of all lists of slides, or leaves of a model.
pub const MAX_ITEMS: u64 = 4_194_304;

/// The most constraints of an instance.
pub const MAX_CONSTRAINTS: usize = 67_108_864;
