//! What a command comes to where nothing ends its run before.

ghost use Rattle.std.specs.Prelude.{◌≡◌};
ghost use Rattle.conley_tool.specs.Ends.{due_of};

use crate::Outcome;

/// What a command answers.
#[derive(Drop)]
pub(crate) enum Answer {
    /// A text.
    Prints(Vec<u8>),
    /// A certificate is accepted.
    Accepts,
}

impl Answer {
    /// The text that is put.
    pub(crate) fn text(&self) -> &[u8]
        ensures { result.now ≡ (due_of self.now).text }
    {
        match self {
            Answer::Prints(text) => text,
            Answer::Accepts => b"accepted\n",
        }
    }

    /// The outcome once the text is put whole.
    pub(crate) fn outcome(&self) -> Outcome
        ensures { result ≡ (due_of self.now).outcome }
    {
        match self {
            Answer::Prints(_) => Outcome::Done,
            Answer::Accepts => Outcome::Accepted,
        }
    }
}
