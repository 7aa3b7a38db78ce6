//! What passes and the keeper know. No value of these types is ever made: they stand in proofs
//! alone.
use std::collections::LinkedList;

/// What the keeper knows of a door.
pub struct DoorSeen<D> {
    /// The deed of its hand.
    pub deed: Option<D>,
    /// Whether the keeper took the door.
    pub taken: bool,
}

/// What a pass or the keeper knows.
pub struct View<D, T> {
    /// Whether it is a pass. The next four fields are a pass's.
    pub is_pass: bool,
    /// The number of its door, from 0.
    pub door: u64,
    /// The deed of the door's hand.
    pub deed: Option<D>,
    /// What the hand had been told that the pass left last; empty before the first.
    pub told: LinkedList<T>,
    /// Whether the pass is in.
    pub inside: bool,
    /// Whether it is the keeper. The next two fields are the keeper's.
    pub is_keeper: bool,
    /// The doors, in order.
    pub doors: LinkedList<DoorSeen<D>>,
    /// How many passes were made.
    pub made: u64,
    /// The door's word that the last try at a door found.
    pub found: u64,
    /// How many tries at a door were made: exchanges by `enter` or `take`.
    pub tries: u64,
}
