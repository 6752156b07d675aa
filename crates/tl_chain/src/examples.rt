//! The chains of the tests, which are examples of chains of one's own.

mod ladder;
mod walk;
