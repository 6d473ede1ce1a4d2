//! Equations, and lists of them.
ghost use Rattle.std.specs.Prelude.{◌≡◌, [], ◌∷◌, ◌++◌, IfOk, OnOk, OnErr, map};
ghost use Rattle.celf_constraints.specs.Equated.{equations_in, plain_equation};
ghost use Rattle.celf_constraints.specs.Woken.{woken};

use crate::mentioned::mentions_one;
use clf_syntax::{Obj, Simple, SimpleEntry};
use std::alloc::{AllocError, Global};

/// Two objects of one simple type over the same locals, the oldest local first.
#[derive(Drop)]
pub struct Equation {
    pub locals: Vec<SimpleEntry>,
    pub left: Obj,
    pub right: Obj,
    pub ty: Simple,
}

/// A list of equations.
#[derive(Drop)]
pub struct Equations {
    items: Vec<Equation>,
}

impl Equations {
    /// No equations.
    pub fn new(alloc: Global) -> Equations
        ensures { equations_in result ≡ [] }
    {
        Equations {
            items: Vec::new(alloc),
        }
    }

    /// Puts an equation after the others. It fails only where memory runs out, and the list is unchanged then.
    pub fn push(&mut self, equation: Equation) -> Result<(), AllocError>
        ensures ok { OnOk result (equations_in self.new ≡ equations_in self.old ++ plain_equation equation ∷ []) }
        ensures err { OnErr result (equations_in self.new ≡ equations_in self.old) }
    {
        self.items.push(equation)?;
        Ok(())
    }

    /// The equations, in order.
    pub fn as_slice(&self) -> &[Equation]
        ensures { map plain_equation result.now ≡ equations_in self.now }
    {
        self.items.as_slice()
    }

    /// The equations themselves, in order.
    pub fn into_vec(self) -> Vec<Equation>
        ensures { map plain_equation result.items ≡ equations_in self }
    {
        self.items
    }

    /// The places of the equations that mention one of the metavariables, in order. It fails only where memory runs
    /// out.
    pub fn wake(&self, alloc: Global, metas: &[u32]) -> Result<Vec<usize>, AllocError>
        ensures { IfOk result (λ places. places.items ≡ woken metas.now 0 (equations_in self.now)) }
    {
        let mut places = Vec::new(alloc);
        let items = self.items.as_slice();
        for place in 0..items.len() {
            if mentions_one(metas, &items[place]) {
                places.push(place)?;
            }
        }
        Ok(places)
    }
}
