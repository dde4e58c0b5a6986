//! What the threads of a round tell each other.
use pool_model::Reply;
use shared_pool::Refusal;
use std::sync::Wait;
use std::sync::atomic::{AtomicBool, AtomicU64, Ordering};
use std::thread;

/// How far the threads are. Nothing here is proved of what they do: it says when to try the next step, and when to stop.
#[derive(Drop)]
pub(crate) struct Signals {
    /// Threads of writers.
    writing: u64,
    /// Those that have ended.
    ended: AtomicU64,
    /// Holds that were given back.
    releases: AtomicU64,
    /// What may let the next step of a group be taken: holds that were given back, and steps of groups.
    turns: AtomicU64,
    full: AtomicBool,
    lacking: AtomicBool,
}

impl Signals {
    pub(crate) fn new(writing: u64) -> Signals {
        Signals {
            writing,
            ended: AtomicU64::new(0),
            releases: AtomicU64::new(0),
            turns: AtomicU64::new(0),
            full: AtomicBool::new(false),
            lacking: AtomicBool::new(false),
        }
    }

    /// Whether the record is full.
    pub(crate) fn is_full(&self) -> bool {
        self.full.load(Ordering::SeqCst)
    }

    /// Whether memory ran out.
    pub(crate) fn is_lacking(&self) -> bool {
        self.lacking.load(Ordering::SeqCst)
    }

    /// Whether the threads are to end, wherever they are.
    pub(crate) fn is_stopped(&self) -> bool {
        self.is_full() || self.is_lacking()
    }

    /// Whether the threads of writers have ended.
    pub(crate) fn is_written(&self) -> bool {
        self.ended.load(Ordering::SeqCst) >= self.writing
    }

    pub(crate) fn end_writers(&self) {
        self.ended.fetch_add(1, Ordering::SeqCst);
    }

    pub(crate) fn releases(&self) -> u64 {
        self.releases.load(Ordering::SeqCst)
    }

    pub(crate) fn stop_for(&self, refusal: Refusal) {
        match refusal {
            Refusal::RecordFull => self.full.store(true, Ordering::SeqCst),
            Refusal::NoMemory => self.lacking.store(true, Ordering::SeqCst),
        }
    }

    /// Looks at an answer, and says whether a step was taken that wasn't refused.
    pub(crate) fn note(&self, answer: &Result<Reply, Refusal>) -> bool {
        match answer {
            Ok(Reply::Refused(_)) => false,
            Ok(reply) => {
                self.note_reply(reply);
                true
            }
            Err(refusal) => {
                self.stop_for(*refusal);
                false
            }
        }
    }

    fn note_reply(&self, reply: &Reply) {
        match reply {
            Reply::Released => {
                self.releases.fetch_add(1, Ordering::SeqCst);
                self.turns.fetch_add(1, Ordering::SeqCst);
            }
            Reply::Closed(_) | Reply::Quiesced(_) | Reply::Planned(_) | Reply::Committed(_) => {
                self.turns.fetch_add(1, Ordering::SeqCst);
            }
            _ => {}
        }
    }

    /// Waits until there were other turns than those that were seen: false where the threads are to end, or no writer is left.
    pub(crate) fn wait<R: Wait>(&self, rt: &R, seen: &mut u64) -> bool {
        for _ in rt.forever() {
            if self.is_stopped() || self.is_written() {
                return false;
            }
            let turns = self.turns.load(Ordering::SeqCst);
            if turns != *seen {
                *seen = turns;
                return true;
            }
            thread::yield_now();
        }
        unreachable!()
    }
}
