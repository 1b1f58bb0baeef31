// The ways in which the units of a network take steps: by which unit and row, and with which choices of the others.
#![tactic(auto)]

mod acts;
mod broadcasts;
mod choices;
mod copies;
pub mod landing;
mod listing;
mod parts;
pub mod receiving;
pub mod slots;
pub mod table;
pub mod way;
