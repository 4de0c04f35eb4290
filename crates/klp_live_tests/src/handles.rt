//! The part of the runtime that the tests need.
use std::rt::Clock;
use std::sync::Wait;
use std::thread::Threads;

/// A runtime that starts threads, waits, tells the time and prints. Threads can share it.
pub(crate) trait Runtime: Threads + Wait + Clock + Print + Sync {}

impl<R: Threads + Wait + Clock + Print + Sync> Runtime for R {}
