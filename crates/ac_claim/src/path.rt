//! Partial assignments.
ghost use Rattle.std.specs.Prelude.{◌≡◌, ◌≤◌, ◌<◌, length, reverse, [], ◌∷◌, MatchOption};

use ac_seek::Step;
use arrayvec::ArrayVec;
use std::marker::Model;

/// The decided runs, which contracts see as a list, latest first.
#[derive(Drop)]
pub struct Path {
    steps: ArrayVec<Step, 42>,
}

impl Model for Path {
    ghost use Rattle.std.specs.Prelude.{◌≤◌, List, length, reverse};
    ghost use Rattle.ac_seek.specs.declared.step.Step.{Step};

    ghost Value = { List Step };

    ghost view = { λ p. reverse p.steps.items };

    ghost invariant = { λ p. length p.steps.items ≤ 42 };
}

impl Path {
    pub fn new() -> Path
        ensures { result ≡ [] }
    {
        Path {
            steps: ArrayVec::new(),
        }
    }

    pub fn push(&mut self, step: Step)
        requires { length self.old < 42 }
        ensures { self.new ≡ step ∷ self.old }
    {
        self.steps.push(step);
    }

    pub fn pop(&mut self) -> Option<Step>
        ensures { MatchOption result ((self.old ≡ []) × (self.new ≡ [])) (λ step. self.old ≡ step ∷ self.new) }
    {
        self.steps.pop()
    }

    /// The runs, earliest first.
    pub fn steps(&self) -> &[Step]
        ensures { reverse result.now ≡ self.now }
    {
        self.steps.as_slice()
    }
}
