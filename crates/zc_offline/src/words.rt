//! The words of the command line.

ghost use Rattle.std.specs.Prelude.{◌≡◌};
ghost use Rattle.zc_offline.specs.Headline.{need_of};
ghost use Rattle.zc_offline.specs.Words.{without_arguments, command_asked, asked};

use zc_doc::Need;

/// What the words ask for.
#[derive(Debug, PartialEq, Eq, Drop)]
pub enum Asked {
    /// The schedule of a document is done.
    Replay,
    /// The channel programs of a document are loaded.
    Check,
}

impl Asked {
    /// What is needed of a document.
    pub(crate) fn need(&self) -> Need
        ensures { result ≡ need_of self.now }
    {
        match self {
            Asked::Replay => Need::Schedule,
            Asked::Check => Need::Any,
        }
    }
}

fn without_arguments(asked: Asked, arguments: &[String]) -> Option<Asked>
    ensures { result ≡ without_arguments asked arguments.now }
{
    match arguments {
        [] => Some(asked),
        _ => None,
    }
}

fn command_asked(name: &str, arguments: &[String]) -> Option<Asked>
    ensures { result ≡ command_asked name.now arguments.now }
{
    match name {
        "replay" => without_arguments(Asked::Replay, arguments),
        "check" => without_arguments(Asked::Check, arguments),
        _ => None,
    }
}

/// What the words ask for: a command, and its arguments.
pub(crate) fn read_words(words: &[String]) -> Option<Asked>
    ensures { result ≡ asked words.now }
{
    match words {
        [] => None,
        [name, arguments @ ..] => command_asked(name.as_str(), arguments),
    }
}
