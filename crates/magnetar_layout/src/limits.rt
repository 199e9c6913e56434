// The limits within which a batch is taken.

// The most columns m that z = (w, 1, x) may have.
pub const MOST_COLUMNS: usize = 65536;

// The most witness columns: half of them.
pub const MOST_WITNESS: usize = MOST_COLUMNS / 2;

// The most logins of a batch.
pub const MOST_LOGINS: usize = 4096;

// The most rows of a matrix.
pub const MOST_ROWS: usize = 65536;

// The most rows of all logins of a batch together.
pub const MOST_BATCH_ROWS: usize = 1048576;

// The most entries of a matrix.
pub const MOST_ENTRIES: usize = 1048576;

// The most segments of a layout.
pub const MOST_SEGMENTS: usize = 64;
