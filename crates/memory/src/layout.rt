// How the lent memory is laid out. Each crate names its columns in a file of its own, one behind the other, from where its region begins.

// How far a column begins behind the end of the one before it, so that columns begin at different offsets within a page, which keeps them out of each
// other's cache lines.
pub const PAD: u64 = 72;

// Where the columns of the row begin, and those of the links.
pub const ROW_BASE: u64 = 0;

pub const LINKS_BASE: u64 = 60000;
