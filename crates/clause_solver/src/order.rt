ghost use Rattle.std.specs.Prelude.{◌≡◌, ℤ, true, IfSome, IfNone};
ghost use Rattle.std.specs.List.{list_all};
ghost use Rattle.clause_form.specs.Clauses.{has, is_literal};
ghost use Rattle.clause_solver.specs.Assigned.{IsChoice, NoneIsOpen};

use crate::trail::{Trail, literal_at, variable_index};
use std::alloc::{AllocError, Global};
use std::collections::BinaryHeap;

// By how much an activity rises at first, and at most.
const FIRST_STEP: u64 = 1 << 16;

const LAST_STEP: u64 = 1 << 50;

// By how many binary digits activities are cut short once the step is greater than that.
const RESCALED: u32 = 40;

/// In which order variables are decided, and with which sign: first those of recent conflicts, each with the sign
/// that it had last, after the activities of Chaff and MiniSat and the saved phases of RSat. It decides how long a
/// search takes, and nothing else depends on it.
#[derive(Drop)]
pub(crate) struct Order {
    alloc: Global,
    // one for each variable
    preferences: Vec<Preference>,
    // A heap of variables that may be open. Those whose activity has risen since then don't count any more.
    waiting: BinaryHeap<Candidate>,
    step: u64,
}

#[derive(Clone, Copy)]
struct Preference {
    activity: u64,
    phase: bool,
    // whether the heap has a candidate with this activity
    is_waiting: bool,
}

#[derive(Clone, Copy, PartialEq, Eq, PartialOrd, Ord)]
struct Candidate {
    activity: u64,
    // the index of the variable among all variables, from 0
    index: usize,
}

impl Order {
    /// The order before the first conflict.
    pub(crate) fn new(alloc: Global, variables: u32) -> Result<Order, AllocError> {
        let preference = Preference {
            activity: 0,
            phase: false,
            is_waiting: false,
        };
        let mut order = Order {
            alloc,
            preferences: vec![in alloc; preference; variables as usize]?,
            waiting: BinaryHeap::new(alloc),
            step: FIRST_STEP,
        };
        order.fill()?;
        Ok(order)
    }

    /// The literal to decide next, which is open. `None` comes only where no literal is.
    pub(crate) fn pick(&mut self, trail: &Trail) -> Option<i32>
        ensures choice { IfSome result (IsChoice trail.now) }
        ensures none { IfNone result (NoneIsOpen trail.now) }
    {
        while let Some(candidate) = self.waiting.pop() {
            if let Some(literal) = open_literal(&mut self.preferences, trail, candidate) {
                return Some(literal);
            }
        }
        first_open(trail)
    }

    /// Raises the activities of the literals' variables.
    pub(crate) fn raise(&mut self, literals: &[i32])
        requires { list_all is_literal literals.now ≡ true }
    {
        for literal in literals {
            if let Some(preference) = self.preferences.get_mut(variable_index(*literal)) {
                preference.activity = preference.activity.saturating_add(self.step);
                preference.is_waiting = false;
            }
        }
    }

    /// Makes what was raised so far count less than what is raised from now on.
    pub(crate) fn age(&mut self) -> Result<(), AllocError> {
        self.step = self.step.saturating_add(self.step / 16);
        if self.step > LAST_STEP {
            self.step >>= RESCALED;
            for preference in &mut self.preferences {
                preference.activity >>= RESCALED;
            }
            self.fill()?;
        }
        Ok(())
    }

    /// Saves the phases of the literals on the trail from `start` on, and lets their variables be decided again.
    pub(crate) fn release(&mut self, literals: &[i32], start: usize) -> Result<(), AllocError>
        requires { (l : ℤ) → has l literals.now ≡ true → is_literal l ≡ true }
    {
        for place in start..literals.len() {
            let index = variable_index(literals[place]);
            if let Some(preference) = self.preferences.get_mut(index) {
                preference.phase = literals[place] > 0;
            }
            self.wait(index)?;
        }
        if self.waiting.len() / 4 > self.preferences.len() {
            self.fill()?;
        }
        Ok(())
    }

    // Makes the heap anew, with a candidate for each variable.
    fn fill(&mut self) -> Result<(), AllocError> {
        self.waiting = BinaryHeap::new(self.alloc);
        for index in 0..self.preferences.len() {
            if let Some(preference) = self.preferences.get_mut(index) {
                preference.is_waiting = false;
            }
            self.wait(index)?;
        }
        Ok(())
    }

    // Adds a candidate for a variable, unless the heap has one that counts.
    fn wait(&mut self, index: usize) -> Result<(), AllocError> {
        let Some(preference) = self.preferences.get_mut(index) else {
            return Ok(());
        };
        if preference.is_waiting {
            return Ok(());
        }
        preference.is_waiting = true;
        let activity = preference.activity;
        self.waiting.push(Candidate { activity, index })?;
        Ok(())
    }
}

// The literal of a candidate that still counts, with its saved phase, where it is open.
fn open_literal(preferences: &mut [Preference], trail: &Trail, candidate: Candidate) -> Option<i32>
    ensures { IfSome result (IsChoice trail.now) }
{
    let preference = preferences.get_mut(candidate.index)?;
    if preference.activity != candidate.activity || candidate.index >= trail.variables() {
        return None;
    }
    preference.is_waiting = false;
    let literal = literal_at(candidate.index);
    if !trail.is_open(literal) {
        return None;
    }
    Some(if preference.phase { literal } else { -literal })
}

// The first variable that is open.
fn first_open(trail: &Trail) -> Option<i32>
    ensures choice { IfSome result (IsChoice trail.now) }
    ensures none { IfNone result (NoneIsOpen trail.now) }
{
    for index in 0..trail.variables() {
        let literal = literal_at(index);
        if trail.is_open(literal) {
            return Some(literal);
        }
    }
    None
}
