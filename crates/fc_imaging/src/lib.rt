//! The image of a store: all that its metadata is to say, gathered from the control part and the lanes.
//!
//! Each lane has its own part of what slots hold, of the rows of followed mappings and of the lost grains: grain `g` of a volume
//! is in lane `g % lanes`, at place `g / lanes`. `image_of` puts the parts together, as words of all grains, and promises the image
//! of whatever the control part and the lanes stand for (`specs/Imaging`, and `fc_kept`, `specs/Images`). `image_without` leaves a
//! volume out of it that is about to go (`specs/Without`).
//!
//! To read: `image` (the whole image), `without` (the image without a volume), `chains`, `rows`, `lost` and `tables` (its parts),
//! `bits` (the words of each).
#![tactic(auto)]

mod bits;
mod chains;
mod image;
mod lost;
mod rows;
mod tables;
mod without;

pub use image::image_of;
pub use without::image_without;
