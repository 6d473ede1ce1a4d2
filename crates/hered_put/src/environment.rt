//! What stands for a head.
ghost use Rattle.std.specs.Prelude.{◌≡◌, ◌+◌, ◌<◌, ◌^◌, [], ◌∷◌, ◌++◌, IfOk, map};
ghost use Rattle.clf_syntax.specs.declared.tree.Head.TheVariants.{Var};
ghost use Rattle.clf_syntax.specs.Tree.{eliminated, tuple_of};
ghost use Rattle.clf_syntax.specs.Renaming.{up};
ghost use Rattle.clf_syntax.specs.Plain.{plain_obj, plain_neutral, plain_elim, plain_entry};
ghost use Rattle.hered_subst.specs.Substitution.{ren_image, single, under, objects};
ghost use Rattle.hered_put.specs.Function.{written};
ghost use Rattle.hered_put.specs.Tupled.{tupled};
ghost use Rattle.hered_put.specs.Answers.{Answers};
ghost use Rattle.hered_put.specs.Environments.{environment_of};
ghost use Rattle.hered_put.specs.Outcomes.{plain_outcome};

use crate::fault::PutFault;
use clf_syntax::{Elim, Head, Neutral, Obj, TupleEntry, deeper};
use sqlite_items::Items;
use std::alloc::{AllocError, Global};

/// What is put, for variables.
#[derive(Clone, Copy)]
pub enum Images<'a> {
    /// One object for a variable. The variables above it fall by one.
    Object {
        obj: &'a Obj,
        var: u32,
    },
    /// The objects of a tuple for the newest variables, the last one for the newest.
    /// The other variables fall by as many, and rise past the binders of the steps in front.
    Tuple {
        tuple: &'a [TupleEntry],
        raised: u64,
    },
}

/// What stands for each head, under so many binders.
#[derive(Clone, Copy)]
pub struct Environment<'a> {
    pub images: Images<'a>,
    pub binders: u64,
}

/// What a neutral becomes: its head is kept, or it has a value.
#[derive(Drop)]
pub enum Outcome {
    Kept(Neutral),
    Value(Obj),
}

impl<'a> Environment<'a> {
    /// One object for a variable.
    pub fn object(obj: &'a Obj, var: u32) -> Environment<'a>
        ensures { environment_of result ≡ single (plain_obj obj.now) var }
    {
        Environment {
            images: Images::Object { obj, var },
            binders: 0,
        }
    }

    /// A tuple for the newest variables, after the binders of the steps in front.
    pub fn tuple(tuple: &'a [TupleEntry], raised: u64) -> Environment<'a>
        ensures { environment_of result ≡ tupled (objects (tuple_of (map plain_entry tuple.now))) raised }
    {
        Environment {
            images: Images::Tuple { tuple, raised },
            binders: 0,
        }
    }

    /// The same under binders.
    pub fn under(&self, binders: usize) -> Result<Environment<'a>, AllocError>
        ensures { IfOk result (λ e. environment_of e ≡ under binders (environment_of self.now)) }
    {
        let images = self.images;
        Ok(Environment {
            images,
            binders: deeper(self.binders, binders)?,
        })
    }
}
