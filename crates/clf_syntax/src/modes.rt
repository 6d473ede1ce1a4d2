//! Modes, and the lists of them that patterns have.
ghost use Rattle.std.specs.Prelude.{◌≡◌, [], ◌∷◌, ◌++◌, IfOk, OnOk, OnErr, length};
ghost use Rattle.clf_syntax.specs.Modes.{same_mode};

use crate::tree::Mode;
use smallvec::SmallVec;
use std::alloc::{AllocError, Global};
use std::marker::Model;

/// Whether two modes are the same.
pub fn is_same_mode(left: Mode, right: Mode) -> bool
    ensures { result ≡ same_mode left right }
{
    match left {
        Mode::Persistent => matches!(right, Mode::Persistent),
        Mode::Affine => matches!(right, Mode::Affine),
        Mode::Linear => matches!(right, Mode::Linear),
    }
}

/// The modes of a pattern, which contracts see as their list.
#[derive(Drop)]
pub struct Modes {
    modes: SmallVec<Mode, 4>,
}

impl Model for Modes {
    ghost use Rattle.std.specs.Prelude.{List};
    ghost use Rattle.clf_syntax.specs.declared.tree.Mode.{Mode};

    ghost Value = { List Mode };

    ghost view = { λ m. m.modes.items };
}

impl Modes {
    pub fn empty(alloc: Global) -> Modes
        ensures { result ≡ [] }
    {
        Modes {
            modes: SmallVec::new(alloc),
        }
    }

    pub fn as_slice(&self) -> &[Mode]
        ensures { result.now ≡ self.now }
    {
        self.modes.as_slice()
    }

    pub fn len(&self) -> usize
        ensures { result ≡ length self.now }
    {
        self.modes.len()
    }

    pub fn push(&mut self, mode: Mode) -> Result<(), AllocError>
        ensures ok { OnOk result (self.new ≡ self.old ++ mode ∷ []) }
        ensures err { OnErr result (self.new ≡ self.old) }
    {
        self.modes.push(mode)?;
        Ok(())
    }

    pub fn copy(&self, alloc: Global) -> Result<Modes, AllocError>
        ensures { IfOk result (λ m. m ≡ self.now) }
    {
        Ok(Modes {
            modes: SmallVec::from_slice(alloc, self.modes.as_slice())?,
        })
    }
}
