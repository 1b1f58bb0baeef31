use crate::index::Index;
use crate::steps::Steps;
use model::state::Pair;
use std::alloc::{AllocError, Global};

/// What is kept in memory to judge a relation: its index, and room for the steps of one pair, which serves for each pair in
/// turn.
#[derive(Drop)]
pub(crate) struct Room<A, B> {
    pub(crate) index: Index,
    pub(crate) left: Steps<A>,
    pub(crate) right: Steps<B>,
}

impl<A: Drop, B: Drop> Room<A, B> {
    pub(crate) fn make(heap: Global, relation: &[Pair]) -> Result<Room<A, B>, AllocError> {
        let records = relation.len();
        Ok(Room {
            index: Index::make(heap, relation)?,
            left: Steps::with_room(heap, records)?,
            right: Steps::with_room(heap, records)?,
        })
    }
}
