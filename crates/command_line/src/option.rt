//! The options of the command.

ghost use Rattle.std.specs.Prelude.{◌≡◌, length};
ghost use Rattle.command_line.specs.Options.{following, is_option, kind_of, option_kind, parameter_kind};

use ctl_base::TextArg;

/// How many numbers a parameter has.
#[derive(Clone, Copy)]
pub enum Count {
    One,
    Two,
    Three,
}

/// What a word is that no option before it takes: plain, or an option.
#[derive(Clone, Copy)]
pub enum Kind {
    Plain,
    Stage,
    Param { is_global: bool, count: Count },
    Format,
    Force,
    Watch,
    Verbose,
    Make,
}

impl Kind {
    /// How many words follow.
    pub(crate) fn following(self) -> usize
        ensures { result ≡ length (following self) }
    {
        match self {
            Kind::Plain | Kind::Force | Kind::Verbose => 0,
            Kind::Stage | Kind::Format | Kind::Watch | Kind::Make => 1,
            Kind::Param { count, .. } => match count {
                Count::One => 2,
                Count::Two => 3,
                Count::Three => 4,
            },
        }
    }
}

// What a word is, nothing where it is an unknown option.
pub(crate) fn kind_of(word: &TextArg) -> Option<Kind>
    ensures { result ≡ kind_of word.now }
{
    let bytes = word.as_str().as_bytes();
    if is_option(bytes) {
        option_kind(bytes)
    } else {
        Some(Kind::Plain)
    }
}

fn is_option(word: &[u8]) -> bool
    ensures { result ≡ is_option word.now }
{
    word.first() == Some(&b'-')
}

fn option_kind(word: &[u8]) -> Option<Kind>
    ensures { result ≡ option_kind word.now }
{
    if word == b"-ctl".as_slice() {
        Some(Kind::Stage)
    } else if word == b"-format".as_slice() {
        Some(Kind::Format)
    } else if word == b"-force".as_slice() {
        Some(Kind::Force)
    } else if word == b"-watch".as_slice() {
        Some(Kind::Watch)
    } else if word == b"-verbose".as_slice() {
        Some(Kind::Verbose)
    } else if word == b"-make".as_slice() {
        Some(Kind::Make)
    } else {
        parameter_kind(word)
    }
}

fn parameter_kind(word: &[u8]) -> Option<Kind>
    ensures { result ≡ parameter_kind word.now }
{
    let (is_global, count) = if word == b"-param1".as_slice() {
        (false, Count::One)
    } else if word == b"-param2".as_slice() {
        (false, Count::Two)
    } else if word == b"-param3".as_slice() {
        (false, Count::Three)
    } else if word == b"-global_param1".as_slice() {
        (true, Count::One)
    } else if word == b"-global_param2".as_slice() {
        (true, Count::Two)
    } else if word == b"-global_param3".as_slice() {
        (true, Count::Three)
    } else {
        return None;
    };
    Some(Kind::Param { is_global, count })
}
