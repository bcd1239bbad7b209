//! The names of parameters.

ghost use Rattle.std.specs.Prelude.{◌≡◌, ◌++◌, bytes_eq};
ghost use Rattle.render_tree.specs.PixelRun.{passed_name, scalar_kind};
ghost use Rattle.render_tree.specs.Stages.{is_alpha, is_channel};

use ctl_base::ScalarKind;
use ctl_types::Shape;

pub(crate) fn is_channel(name: &[u8]) -> bool
    ensures { result ≡ is_channel name.now }
{
    name == b"rIn".as_slice() || name == b"gIn".as_slice() || name == b"bIn".as_slice()
}

pub(crate) fn is_alpha(name: &[u8]) -> bool
    ensures { result ≡ is_alpha name.now }
{
    name == b"aIn".as_slice()
}

// Whether an output of this name goes on under that one.
pub(crate) fn goes_on_as(name: &[u8], other: &[u8]) -> bool
    ensures { result ≡ bytes_eq other.now (passed_name name.now) }
{
    let front = name.len().saturating_sub(3);
    if &name[front..] == b"Out".as_slice() {
        is_joined(&name[..front], b"In".as_slice(), other)
    } else {
        other == name
    }
}

// Whether two parts one after the other are the whole.
#[tactic(auto, using(crate::proofs::Joined::short_joined, crate::proofs::Joined::long_joined))]
fn is_joined(front: &[u8], back: &[u8], whole: &[u8]) -> bool
    ensures { result ≡ bytes_eq whole.now (front.now ++ back.now) }
{
    if whole.len() < front.len() {
        return false;
    }
    let (start, rest) = whole.split_at(front.len());
    start == front && rest == back
}

// The kind of a shape that is a scalar.
pub(crate) fn scalar_kind(shape: &Shape) -> Option<ScalarKind>
    ensures { result ≡ scalar_kind shape.now }
{
    match shape {
        Shape::Scalar(kind) => Some(*kind),
        _ => None,
    }
}
