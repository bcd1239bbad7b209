//! What an option with the words that follow it, or a plain word, asks for.

ghost use Rattle.std.specs.Prelude.{◌≡◌, option_map};
ghost use Rattle.command_line.specs.Items.{plain_in, file_in, own_in, global_in, depth_in, is_force, is_plain, is_stage, is_watch, is_verbose};

use crate::command::Param;
use ctl_base::TextArg;

/// What an option with the words that follow it, or a plain word, asks for.
#[derive(Drop)]
pub enum Item {
    Plain(TextArg),
    Stage(TextArg),
    Param { is_global: bool, param: Param },
    /// The depth of the output, 0 where it is the source's.
    Format(u8),
    Force,
    Watch(u8),
    Verbose,
    Make(u32),
}

impl Item {
    pub(crate) fn plain(&self) -> Option<&TextArg>
        ensures { option_map (λ word. word.now) result ≡ plain_in self.now }
    {
        match self {
            Item::Plain(word) => Some(word),
            _ => None,
        }
    }

    pub(crate) fn is_plain(&self) -> bool
        ensures { result ≡ is_plain self.now }
    {
        matches!(self, Item::Plain(_))
    }

    pub(crate) fn is_stage(&self) -> bool
        ensures { result ≡ is_stage self.now }
    {
        matches!(self, Item::Stage(_))
    }

    pub(crate) fn file(&self) -> Option<&TextArg>
        ensures { option_map (λ file. file.now) result ≡ file_in self.now }
    {
        match self {
            Item::Stage(file) => Some(file),
            _ => None,
        }
    }

    // A parameter of the stage before it.
    pub(crate) fn own(&self) -> Option<&Param>
        ensures { option_map (λ param. param.now) result ≡ own_in self.now }
    {
        match self {
            Item::Param {
                is_global: false,
                param,
            } => Some(param),
            _ => None,
        }
    }

    // A parameter of all stages.
    pub(crate) fn global(&self) -> Option<&Param>
        ensures { option_map (λ param. param.now) result ≡ global_in self.now }
    {
        match self {
            Item::Param {
                is_global: true,
                param,
            } => Some(param),
            _ => None,
        }
    }

    pub(crate) fn depth(&self) -> Option<u8>
        ensures { result ≡ depth_in self.now }
    {
        match self {
            Item::Format(depth) => Some(*depth),
            _ => None,
        }
    }

    pub(crate) fn is_force(&self) -> bool
        ensures { result ≡ is_force self.now }
    {
        matches!(self, Item::Force)
    }

    pub(crate) fn is_watch(&self, kind: u8) -> bool
        ensures { result ≡ is_watch kind self.now }
    {
        match self {
            Item::Watch(asked) => *asked == kind,
            _ => false,
        }
    }

    pub(crate) fn is_verbose(&self) -> bool
        ensures { result ≡ is_verbose self.now }
    {
        matches!(self, Item::Verbose)
    }
}
