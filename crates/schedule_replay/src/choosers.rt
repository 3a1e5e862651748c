//! A stored function that names the next delivery by its place in the queue.

ghost use Rattle.std.specs.Prelude.{◌≡◌, ℕ, ◌<◌, ◌≤◌, ◌^◌};
ghost use Rattle.schedule_replay.specs.Choosing.{AnswersBelow};

use std::marker::Model;

/// A function of a step and a count that names a place, with the words in which clauses speak of it. Every function
/// of two numbers is one.
pub trait Choose {
    /// For this step and count it may be called.
    ghost takes: { Self → ℕ → ℕ → Type 0 };

    /// For this step and count it may answer this place.
    ghost names: { Self → ℕ → ℕ → ℕ → Type 0 };

    /// Its answer.
    fn place(&self, step: u64, count: u64) -> u64
        requires { takes self.now step count }
        ensures { names self.now step count result };
}

impl<F: Fn(u64, u64) -> u64> Choose for F {
    ghost takes = { λ f step count. F.pre f step count };

    ghost names = { λ f step count place. F.post f step count place };

    fn place(&self, step: u64, count: u64) -> u64 {
        self(step, count)
    }
}

/// A function that names the pulse to be delivered next, by its place in the queue of so many pending ones.
///
/// It is kept beside the fact that it may be called for every step below 2^63 and every count from 1 to 4,194,304,
/// and then answers less than the count. So no answer is tested.
#[derive(Drop)]
pub struct Chooser<F: Fn(u64, u64) -> u64 + Choose> {
    choose: F,
}

impl<F: Fn(u64, u64) -> u64 + Choose> Model for Chooser<F> {
    ghost use Rattle.schedule_replay.specs.Choosing.{AnswersBelow};

    ghost Value = { F };

    ghost view = { λ chooser. chooser.choose };

    ghost invariant = { λ chooser. AnswersBelow (F.Choose.takes chooser.choose) (F.Choose.names chooser.choose) };
}

impl<F: Fn(u64, u64) -> u64 + Choose> Chooser<F> {
    /// Keeps a function that, for every step below 2^63 and every count from 1 to 4,194,304, may be called and answers
    /// less than the count.
    pub fn new(choose: F) -> Chooser<F>
        requires { AnswersBelow (F.Choose.takes choose) (F.Choose.names choose) }
        ensures { result ≡ choose }
    {
        Chooser { choose }
    }

    /// What the function answers for a step below 2^63 and a count from 1 to 4,194,304: a place below the count.
    pub fn pick(&self, step: u64, count: u64) -> u64
        requires step { step < 2 ^ 63 }
        requires some { 1 ≤ count }
        requires few { count ≤ 2 ^ 22 }
        ensures below { result < count }
        ensures names { F.Choose.names self.now step count result }
    {
        self.choose.place(step, count)
    }
}
