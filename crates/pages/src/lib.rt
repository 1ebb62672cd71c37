// The map of a machine's pages, and the accesses by it: a map gives an access only where that is granted and leaves the TLB as it is.
#![tactic(auto)]

mod access;
mod kept;
mod map;

pub use access::{fetch, read, word_at, write};
pub use kept::Maps;
pub use map::{page_map, place};

// No word: beyond every word. With `Option<u16>` the compiled loop no longer holds every instruction, and takes 60 % more machine instructions.
pub const NONE: u32 = 65536;

// No place: beyond every place. With `Option<usize>` the loop takes 4 % more.
pub const NOWHERE: usize = 65536;
