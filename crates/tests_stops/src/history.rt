//! Which groups a stop may leave, by the moment at which it comes.
use crate::pools::Shown;

/// What a pool may show that is opened after a stop, from one moment on until another: a stop at a moment comes before the call with
/// that number.
#[derive(Clone, Copy)]
pub(crate) struct Possible {
    pub(crate) shown: Shown,
    pub(crate) from: u64,
    pub(crate) until: u64,
}

impl Possible {
    pub(crate) fn covers(self, cut: u64) -> bool {
        self.from <= cut && cut < self.until
    }
}

/// This was answered as committed or opened, when so many calls were made: nothing else is possible from then on.
pub(crate) fn settle(history: &mut [Possible], shown: Shown, moment: u64) {
    for it in history.iter_mut() {
        if it.shown != shown && it.until == u64::MAX {
            it.until = moment;
        }
    }
}
