//! Where histories begin.
use std::collections::LinkedList;

/// Where the histories of a core begin: the object that it is made of, and how many calls each
/// session has. No value of it is made.
pub struct Opening<O> {
    pub object: O,
    pub counts: LinkedList<u32>,
}
