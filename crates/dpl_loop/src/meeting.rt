// A gate at which two workers wait for one another. Only workers that run at once get through, so it tells threads from turns.

use crate::gate::Gate;
use std::sync::atomic::{AtomicU64, Ordering};
use std::thread::yield_now;

/// A gate at which the workers 0 and 1 meet so many times: the k-th entry of the one waits for the k-th of the other, and is refused once it
/// has looked for it so often in vain. Later entries pass, and so do those of all other workers.
#[derive(Drop)]
pub struct Meeting {
    times: u64,
    looks: u64,
    of_0: AtomicU64,
    of_1: AtomicU64,
}

impl Meeting {
    /// A gate at which two workers meet `times` times, and at which each entry looks `looks` times for the other worker's.
    pub fn new(times: u64, looks: u64) -> Meeting {
        Meeting {
            times,
            looks,
            of_0: AtomicU64::new(0),
            of_1: AtomicU64::new(0),
        }
    }
}

impl Gate for Meeting {
    ghost use Rattle.std.specs.Prelude.{◌<◌};

    ghost may_refuse = { λ _ worker _. worker < 2 };

    fn enter(&self, worker: u32, _place: u64) -> bool {
        let (own, others) = match worker {
            0 => (&self.of_0, &self.of_1),
            1 => (&self.of_1, &self.of_0),
            _ => return true,
        };
        let number = own.fetch_add(1, Ordering::SeqCst);
        if self.times <= number {
            return true;
        }
        for _look in 0..self.looks {
            if number < others.load(Ordering::SeqCst) {
                return true;
            }
            yield_now();
        }
        false
    }
}
