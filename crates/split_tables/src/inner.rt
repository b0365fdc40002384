// The tables that all lists are read off, for an accepted mesh, map and stencil.
pub use crate::preparing::prepare;
