//! The limits of programs and runs. Each is the greatest number that is still allowed.

/// Bytes of a program's text: 1 MiB.
pub const MAX_PROGRAM_BYTES: usize = 1_048_576;

/// Bytes of data: 16 MiB.
pub const MAX_DATA_BYTES: usize = 16_777_216;

/// Parts of a program's text that are open at one place.
pub const MAX_NESTING: u32 = 200;

/// Statements and expressions that are open at one moment of a run.
pub const MAX_RUNNING_DEPTH: u32 = 1_000;

/// Variables of a solver.
pub const MAX_VARIABLES: usize = 262_144;

/// Nodes of the terms of a solver.
pub const MAX_TERM_NODES: usize = 2_097_152;

/// The depth of a term, where a variable or a constant has depth 0.
pub const MAX_TERM_DEPTH: u32 = 1_000;

/// Candidates of a selector.
pub const MAX_CANDIDATES: usize = 4_194_304;

/// Cells of an array.
pub const MAX_CELLS: usize = 16_777_216;

/// Iterations of a loop.
pub const MAX_ITERATIONS: u32 = 1_024;

/// Solutions that a pool keeps.
pub const MAX_POOL_SOLUTIONS: u32 = 1_024;

/// Journal units of a run.
pub const MAX_JOURNAL_UNITS: u64 = 33_554_432;

/// Bytes that the loops of a run print: 64 MiB.
pub const MAX_LOOP_OUTPUT: u64 = 67_108_864;

/// Journal units that a monitor call costs beside the numbers of its request and its reply.
pub const MONITOR_CALL_UNITS: u64 = 8;
