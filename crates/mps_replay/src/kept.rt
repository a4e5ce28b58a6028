// What is kept of a replayed level.
ghost use Rattle.std.specs.Prelude.{◌≡◌};

use spec_steps::Answer;
use std::marker::Model;
use trace_out::LogLength;

/// What the steps of a schedule were answered, in their order.
#[derive(Drop)]
pub struct Answers {
    list: Vec<Answer>,
}

impl Model for Answers {
    ghost use Rattle.std.specs.Prelude.{List};
    ghost use Rattle.spec_steps.specs.declared.answer.Answer.{Answer};

    ghost Value = { List Answer };

    ghost view = { λ a. a.list.items };
}

impl Answers {
    /// The list of these answers.
    pub fn new(list: Vec<Answer>) -> Answers
        ensures { result ≡ list.items }
    {
        Answers { list }
    }

    /// The answers, by step.
    pub fn as_slice(&self) -> &[Answer]
        ensures { result.now ≡ self.now }
    {
        self.list.as_slice()
    }
}

/// What is kept of a level that was run by the steps of a schedule: what they were answered, and how
/// long the log was behind the last of them.
#[derive(Drop)]
pub struct Trace {
    pub answers: Answers,
    pub log: LogLength,
}
