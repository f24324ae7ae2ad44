//! What all lanes do together, and what one of them does alone.
//!
//! `deal` deals disks to lanes and takes them back; `phases` makes all lanes ready for the events of a decision and has them do
//! these; `work` lists background work and finds its next grain; `touched` says which grains blocks touch; `access` and `fill`
//! read, write, copy or clean one grain in its lane.
#![tactic(auto)]

pub mod access;
pub mod deal;
pub mod fill;
pub mod phases;
pub mod touched;
pub mod work;
