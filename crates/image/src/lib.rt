// The state image: a machine's state as bytes.
#![tactic(auto)]

mod decoder;
mod encoder;

pub use decoder::read_image;
pub use encoder::write_image;
