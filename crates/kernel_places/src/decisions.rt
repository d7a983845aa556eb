//! Who is let in, and who has to leave: plain values and what is decided by them. Most of it stands in `kernel_sockets`.
pub(crate) mod entrance;
pub mod limits;
pub mod places;
pub(crate) mod sockets;
pub mod times;
