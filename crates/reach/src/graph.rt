//! Graphs of pieces.

/// Pieces by their numbers, and which leads to which.
#[derive(Drop)]
pub struct Graph {
    /// How many pieces there are; they are numbered from 0.
    pub pieces: u32,
    /// Each edge, from the piece that leads to the one that it leads to. One with a number that is no piece leads nowhere.
    pub edges: Vec<(u32, u32)>,
}
