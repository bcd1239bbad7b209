//! What is known where a body runs.

ghost use Rattle.std.specs.Prelude.{◌≡◌, ◌≤◌, length, take, slice_get, Some};
ghost use Rattle.ctl_types.specs.Definitions.{chromaticities};
ghost use Rattle.ctl_types.specs.Values.{struct_zeros};

use ctl_types::{Constant, Function, Struct, Value};
use std::marker::Model;

/// The structs with their zeros, the constants, the functions that may be called, and the open sizes of this call.
/// The first struct is that of the library.
#[derive(Drop)]
pub struct Scene<'a> {
    structs: &'a [Struct],
    zeros: &'a [Value],
    constants: &'a [Constant],
    functions: &'a [Function],
    opens: &'a [u32],
}

impl<'a> Model for Scene<'a> {
    ghost use Rattle.std.specs.Prelude.{◌≡◌, slice_get, Some};
    ghost use Rattle.ctl_types.specs.Definitions.{chromaticities};
    ghost use Rattle.ctl_types.specs.Values.{struct_zeros};
    ghost use Rattle.eval_tree.specs.Scene.{SceneForm, scene_code};

    ghost Value = { SceneForm };

    ghost coded = { scene_code };

    ghost view = { λ s. record { structs = s.structs.now; constants = s.constants.now; functions = s.functions.now; opens = s.opens.now } };

    ghost invariant = { λ s. (s.zeros.now ≡ struct_zeros s.structs.now) × (slice_get s.structs.now 0 ≡ Some chromaticities) };
}

impl<'a> Scene<'a> {
    pub fn new(
        structs: &'a [Struct],
        zeros: &'a [Value],
        constants: &'a [Constant],
        functions: &'a [Function],
        opens: &'a [u32],
    ) -> Scene<'a>
        requires zeros { zeros.now ≡ struct_zeros structs.now }
        requires library { slice_get structs.now 0 ≡ Some chromaticities }
        ensures { result ≡ record { structs = structs.now; constants = constants.now; functions = functions.now; opens = opens.now } }
    {
        Scene {
            structs,
            zeros,
            constants,
            functions,
            opens,
        }
    }

    /// What is known in the body of a function that is called with these open sizes: it may call those before it.
    pub fn within<'b>(&'b self, number: usize, opens: &'b [u32]) -> Scene<'b>
        requires { number ≤ length self.now.functions }
        ensures { result ≡ record { structs = self.now.structs; constants = self.now.constants; functions = take number self.now.functions; opens = opens.now } }
    {
        Scene {
            structs: self.structs,
            zeros: self.zeros,
            constants: self.constants,
            functions: &self.functions[..number],
            opens,
        }
    }

    pub fn structs(&self) -> &[Struct]
        ensures result { result.now ≡ self.now.structs }
        ensures library { slice_get result.now 0 ≡ Some chromaticities }
    {
        self.structs
    }

    pub fn zeros(&self) -> &[Value]
        ensures { result.now ≡ struct_zeros self.now.structs }
    {
        self.zeros
    }

    pub fn constants(&self) -> &[Constant]
        ensures { result.now ≡ self.now.constants }
    {
        self.constants
    }

    pub fn functions(&self) -> &[Function]
        ensures { result.now ≡ self.now.functions }
    {
        self.functions
    }

    pub fn opens(&self) -> &[u32]
        ensures { result.now ≡ self.now.opens }
    {
        self.opens
    }
}
