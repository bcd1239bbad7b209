//! Texts and bytes that contracts see as lists, and the want of memory.

ghost use Rattle.std.specs.Prelude.{◌≡◌, IfOk};

use std::alloc::{AllocError, AllocFailed, Global};
use std::marker::Model;

/// Want of memory.
#[derive(Clone, Copy, Debug, PartialEq, Eq)]
pub struct Memory;

impl From<AllocError> for Memory {
    fn from(_: AllocError) -> Memory {
        Memory
    }
}

impl<T: Drop> From<AllocFailed<T>> for Memory {
    fn from(_: AllocFailed<T>) -> Memory {
        Memory
    }
}

/// A text that contracts see as its bytes.
#[derive(Debug, Drop)]
pub struct TextArg {
    text: String,
}

impl Model for TextArg {
    ghost use Rattle.std.specs.Prelude.{List, ℕ, string_bytes};

    ghost Value = { List ℕ };

    ghost view = { λ t. string_bytes t.text };
}

impl TextArg {
    pub fn new(alloc: Global, text: &str) -> Result<TextArg, Memory>
        ensures { IfOk result (λ t. t ≡ text.now) }
    {
        Ok(TextArg {
            text: String::from_str(alloc, text)?,
        })
    }

    pub fn as_str(&self) -> &str
        ensures { result.now ≡ self.now }
    {
        self.text.as_str()
    }

    pub fn copy(&self, alloc: Global) -> Result<TextArg, Memory>
        ensures { IfOk result (λ t. t ≡ self.now) }
    {
        TextArg::new(alloc, self.text.as_str())
    }
}

/// Bytes that contracts see as a list.
#[derive(Debug, Drop)]
pub struct ByteText {
    bytes: Vec<u8>,
}

impl Model for ByteText {
    ghost use Rattle.std.specs.Prelude.{List, ℕ};

    ghost Value = { List ℕ };

    ghost view = { λ t. t.bytes.items };
}

impl ByteText {
    pub fn new(alloc: Global, bytes: &[u8]) -> Result<ByteText, Memory>
        ensures { IfOk result (λ t. t ≡ bytes.now) }
    {
        Ok(ByteText {
            bytes: Vec::from_slice(alloc, bytes)?,
        })
    }

    /// The bytes of a vector, which is taken over and not copied.
    pub fn from_vec(bytes: Vec<u8>) -> ByteText
        ensures { result ≡ bytes.items }
    {
        ByteText { bytes }
    }

    pub fn as_slice(&self) -> &[u8]
        ensures { result.now ≡ self.now }
    {
        self.bytes.as_slice()
    }

    pub fn copy(&self, alloc: Global) -> Result<ByteText, Memory>
        ensures { IfOk result (λ t. t ≡ self.now) }
    {
        ByteText::new(alloc, self.bytes.as_slice())
    }
}

#[cfg(test)]
mod tests {
    use super::*;

    #[test]
    fn copies_equal_their_source(rt: HostRuntime) -> Result<(), Memory> {
        let name = TextArg::new(rt.alloc(), "a/b.ctl")?;
        assert_eq!(rt; name.copy(rt.alloc())?.as_str(), "a/b.ctl");
        let bytes = ByteText::new(rt.alloc(), &[0, 128, 255])?;
        assert_eq!(rt;
            bytes.copy(rt.alloc())?.as_slice(),
            [0, 128, 255].as_slice()
        );
        Ok(())
    }
}
