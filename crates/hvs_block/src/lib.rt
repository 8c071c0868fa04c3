// PSNR-HVS of one block of each plane, given as 64 numbers: what the eye sees of their difference (`block`), by the contrast tables and
// the masks worked out from them (`tables`) and by how much the block varies (`variance`).
#![tactic(auto)]

pub mod block;
pub mod tables;
mod variance;

// Which plane of a picture: y, u or v. Each has a table of its own.
#[derive(Clone, Copy, Debug, PartialEq, Eq)]
pub enum Kind {
    Luma,
    Cb,
    Cr,
}
