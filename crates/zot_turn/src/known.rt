//! What a seat knows, for contracts alone: no value of it is made.
use std::collections::LinkedList;

pub struct Known<O, E> {
    // the value at the start, or none once the seat was joined into another
    pub opening: Option<O>,
    // the turns that it has seen, each a number with its entries
    pub turns: LinkedList<(u64, LinkedList<E>)>,
    // between the two steps of a join, the shorter of the two beginnings; else empty
    pub beside: LinkedList<(u64, LinkedList<E>)>,
    // its numbers, the acting one first, each with its entries
    pub mine: LinkedList<(u64, LinkedList<E>)>,
    // the numbers that it gave
    pub gave: LinkedList<u64>,
    // the numbers that it drew and hasn't given yet
    pub ready: LinkedList<u64>,
    // the most turns that a look has shown it
    pub shown: u64,
    // whether it holds the turn
    pub holding: bool,
}
