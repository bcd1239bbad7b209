//! The words of the command.
#![tactic(auto)]

ghost use Rattle.std.specs.Prelude.{◌≡◌};
ghost use Rattle.std.specs.Option.{option_map};
ghost use Rattle.command_words.specs.Command.{command_of, destination_of, is_option, named};

use ctl_base::TextArg;

/// What the words ask for, by the names of files.
#[derive(Clone, Copy, Drop)]
pub struct Command<'a> {
    /// The text that is run on each pixel.
    pub text: &'a TextArg,
    /// The image that is read.
    pub source: &'a TextArg,
    /// The image that is written.
    pub destination: &'a TextArg,
}

/// The command that the words spell: `-ctl`, a file, and two words that do not begin with a dash.
pub fn read_words(words: &[TextArg]) -> Option<Command<'_>>
    ensures { option_map named result ≡ command_of words.now }
{
    let [option, text, source, destination] = words else {
        return None;
    };
    if option.as_str() != "-ctl" || is_option(source) || is_option(destination) {
        return None;
    }
    Some(Command {
        text,
        source,
        destination,
    })
}

fn is_option(word: &TextArg) -> bool
    ensures { result ≡ is_option word.now }
{
    word.as_str().as_bytes().first() == Some(&b'-')
}

/// The name of the image that is written, empty where the words are no command.
pub fn destination(words: &[TextArg]) -> &str
    ensures { result.now ≡ destination_of words.now }
{
    match read_words(words) {
        Some(command) => command.destination.as_str(),
        None => "",
    }
}
