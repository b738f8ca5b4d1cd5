// What runs the lines of a script.
ghost use Rattle.std.specs.Prelude.{List, ℕ};
ghost use Rattle.rt_stamps.specs.Words.{as_words};
ghost use Rattle.rt_script.specs.declared.answer.Answer.{Answer};

use crate::Answer;

/// What runs the words of a line.
pub trait Commands {
    /// The states.
    ghost State: { Type 0 };

    /// The state.
    ghost state: { Self → State };

    /// What the words of a line may be answered in a state, and the state after it.
    ghost gives: { State → List (List ℕ) → Answer → State → Type 0 };

    /// Runs the words of a line.
    fn run_words(&mut self, words: &[String]) -> Answer
        ensures { gives (state self.old) (as_words words.now) result (state self.new) };
}
