//! What the words ask for.

ghost use Rattle.std.specs.Prelude.{◌≡◌, [], ◌∷◌, ◌++◌, IfOk};

use ctl_base::{Memory, TextArg};
use fix_num::Fix;
use std::alloc::Global;
use std::marker::Model;

/// A parameter by its name, with one, two or three numbers.
#[derive(Drop)]
pub struct Param {
    pub name: TextArg,
    /// How many of the values count. The others are 0.
    pub count: u8,
    pub values: [Fix; 3],
}

impl Param {
    pub fn copy(&self, alloc: Global) -> Result<Param, Memory>
        ensures { IfOk result (λ copied. copied ≡ self.now) }
    {
        Ok(Param {
            name: self.name.copy(alloc)?,
            count: self.count,
            values: self.values,
        })
    }
}

/// Parameters in their order.
#[derive(Drop)]
pub struct ParamList {
    params: Vec<Param>,
}

impl Model for ParamList {
    ghost use Rattle.std.specs.Prelude.{List};
    ghost use Rattle.command_line.specs.declared.command.Param.{Param};

    ghost Value = { List Param };

    ghost view = { λ p. p.params.items };
}

impl ParamList {
    /// The parameters of a vector, which is taken over and not copied.
    pub fn from_vec(params: Vec<Param>) -> ParamList
        ensures { result ≡ params.items }
    {
        ParamList { params }
    }

    pub fn as_slice(&self) -> &[Param]
        ensures { result.now ≡ self.now }
    {
        self.params.as_slice()
    }
}

/// A stage by its file, with its own parameters.
#[derive(Drop)]
pub struct StageFile {
    pub file: TextArg,
    pub params: ParamList,
}

/// Stages in their order.
#[derive(Drop)]
pub struct StageWords {
    stages: Vec<StageFile>,
}

impl Model for StageWords {
    ghost use Rattle.std.specs.Prelude.{List};
    ghost use Rattle.command_line.specs.declared.command.StageFile.{StageFile};

    ghost Value = { List StageFile };

    ghost view = { λ s. s.stages.items };
}

impl StageWords {
    /// The stages of a vector, which is taken over and not copied.
    pub fn from_vec(stages: Vec<StageFile>) -> StageWords
        ensures { result ≡ stages.items }
    {
        StageWords { stages }
    }

    pub fn as_slice(&self) -> &[StageFile]
        ensures { result.now ≡ self.now }
    {
        self.stages.as_slice()
    }
}

/// What the words ask for.
#[derive(Drop)]
pub struct Command {
    pub stages: StageWords,
    /// The parameters of all stages.
    pub globals: ParamList,
    /// The depth of the output, 0 where it is the source's.
    pub format: u8,
    /// The destination may exist.
    pub force: bool,
    /// Whether the watchers of the kinds 1 to 4 are shown the output.
    pub watch: [bool; 4],
    /// The steps are said.
    pub verbose: bool,
    /// The number of an image that is made, in place of a source.
    pub make: Option<u32>,
    /// The name of the image that is read, empty where one is made.
    pub source: TextArg,
    /// The name of the image that is written, empty where one is made.
    pub destination: TextArg,
}
