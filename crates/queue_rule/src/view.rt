// What a seat knows. No value of these types is ever made: they stand in proofs alone.
use std::collections::LinkedList;

/// An entry that a seat has linked: its place in the chain and its words.
pub struct Own {
    /// The place in the chain, counted from 1.
    pub place: u64,
    /// The entry's words, without its next word.
    pub words: LinkedList<u64>,
}

/// A known word: its address, and what it holds from then on.
pub struct Known {
    /// The address in the table.
    pub at: u64,
    /// What the word holds.
    pub word: u64,
}

/// A seat that another seat has taken over.
pub struct Old {
    /// Its seat number, from 0.
    pub number: u64,
    /// Its own entries.
    pub own: LinkedList<Own>,
    /// The addresses that it had seen.
    pub seen: LinkedList<u64>,
    /// The addresses that the seat which took it over had seen.
    pub mine: LinkedList<u64>,
}

/// The next word that was loaded last.
pub struct Loaded {
    /// The address of the next word.
    pub at: u64,
    /// What the load read.
    pub word: u64,
    /// How many such loads the view has made.
    pub count: u64,
}

/// What a seat knows of the queue.
pub struct View {
    /// Whether the seat is in use: a seat that was taken over is not.
    pub live: bool,
    /// How many seats the table is for.
    pub seats: u64,
    /// The seat number, from 0.
    pub number: u64,
    /// The seat numbers that the seat may still split off.
    pub spares: LinkedList<u64>,
    /// The seats that this seat has taken over.
    pub olds: LinkedList<Old>,
    /// The addresses of the entries seen: a prefix of the chain.
    pub seen: LinkedList<u64>,
    /// The known words.
    pub known: LinkedList<Known>,
    /// The seat's own entries, in order.
    pub own: LinkedList<Own>,
    /// The words that the seat has stored after its own entries.
    pub draft: LinkedList<u64>,
    /// The next word that was loaded last.
    pub loaded: Loaded,
}
