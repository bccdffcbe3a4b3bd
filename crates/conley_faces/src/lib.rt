//! The faces of cells, over lists of the cells directly under each cell: closures, mouths, and gaps of sets that aren't locally closed.
//! A contract sees `Faces` as these lists, each ascending, by which no cell is below itself; a set of cells is an ascending list.
//! Open specs/Face.antt first. The crate knows nothing of incidences or dimensions.
#![tactic(auto)]

mod closures;
mod error;
mod faces;
mod lists;

pub use error::FacesError;
pub use faces::Faces;

/// Want of memory.
pub type NoMemory = std::alloc::AllocError;
