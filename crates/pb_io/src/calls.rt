ghost use Rattle.std.specs.Prelude.{◌≡◌, ◌↔◌, IsTrue};
ghost use Rattle.pb_io.specs.Calls.{one_more, NextFails};

use std::marker::Model;

// Counts calls from 1, and knows the numbers of those that are to fail.
#[derive(Drop)]
pub(crate) struct CallCounter {
    made: u64,
    failing: Vec<u64>,
}

impl Model for CallCounter {
    ghost use Rattle.pb_io.specs.Calls.{Calls};

    ghost Value = { Calls };

    ghost view = { λ calls. record { made = calls.made; failing = calls.failing.items } };
}

impl CallCounter {
    // Before the first call.
    pub(crate) fn new(failing: Vec<u64>) -> Self
        ensures { result ≡ record { made = 0; failing = failing.items } }
    {
        CallCounter { made: 0, failing }
    }

    // Counts one more call, and says whether it is to fail. The count stays at the last number of a u64.
    pub(crate) fn next_fails(&mut self) -> bool
        ensures fails { IsTrue result ↔ NextFails self.old }
        ensures counted { self.new ≡ one_more self.old }
    {
        self.made = self.made.saturating_add(1);
        self.failing.contains(&self.made)
    }
}
