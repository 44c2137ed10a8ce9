//! What a seat's place at the table knows, and what the slot holds.
use known::Known;
use std::collections::LinkedList;

/// How far a seat is, with its ticket. No value of it is made.
pub(crate) enum Stage {
    Idle,
    Waiting(u64),
    /// It has the turn.
    Holding(u64),
    /// It gave the value back, and not yet the turn.
    Leaving(u64),
}

/// What a seat knew that was joined. No value of it is made.
pub(crate) struct Front<O, E> {
    pub(crate) origin: Option<O>,
    pub(crate) list: LinkedList<E>,
    pub(crate) numbers: LinkedList<u32>,
}

/// What a seat knows. No value of it is made.
pub(crate) struct View<O, E> {
    pub(crate) origin: Option<O>,
    /// The newest first.
    pub(crate) list: LinkedList<E>,
    pub(crate) numbers: LinkedList<u32>,
    pub(crate) stage: Stage,
    pub(crate) turns: u64,
    /// What both seats knew, between a join and the look back.
    pub(crate) joined: LinkedList<Front<O, E>>,
}

/// What the slot holds: the value, and the list that it stands for.
#[derive(Drop)]
pub(crate) struct Stored<T, E> {
    pub(crate) value: Option<T>,
    pub(crate) list: Known<LinkedList<E>>,
}

/// What a lock begins with.
#[derive(Drop)]
pub(crate) struct Opening<O, E> {
    pub(crate) origin: Known<O>,
    pub(crate) list: Known<LinkedList<E>>,
    pub(crate) numbers: u32,
}
