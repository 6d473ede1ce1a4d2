//! The store: what was added, and how it is cut back.
ghost use Rattle.std.specs.Prelude.{◌≡◌, ◌≤◌, ◌<◌, [], map, length, None, IfOk, OnOk, OnErr, IfErr};
ghost use Rattle.std.specs.Option.{option_copied, option_map};
ghost use Rattle.clf_syntax.specs.Wide.{IsWant};
ghost use Rattle.clf_syntax.specs.Plain.{plain_obj};
ghost use Rattle.clf_syntax.specs.PlainSimple.{plain_simple};
ghost use Rattle.store_laws.specs.Additions.{meta_types, given};
ghost use Rattle.metavars.specs.Stored.{constants, additions, added_new, added_solved, with_addition, cut_to};

use crate::tables::Tables;
use clf_syntax::{Obj, Simple, Want, copy_simples};
use sqlite_items::Items;
use std::alloc::Global;
use std::marker::Model;

/// The metavariables so far, with their solutions. Contracts see the simple types of the constants, and the list of
/// what was added.
#[derive(Drop)]
pub struct Store {
    alloc: Global,
    consts: Items<Simple>,
    tables: Tables,
}

impl Model for Store {
    ghost use Rattle.clf_syntax.specs.contracts.tree.Simple as simple;
    ghost use Rattle.clf_syntax.specs.contracts.tree.Obj as obj;
    ghost use Rattle.metavars.specs.Stored.{Stored, stored_code};

    ghost Value = { Stored };

    ghost coded = { stored_code simple.the_row.coded obj.the_row.coded };

    ghost use Rattle.metavars.specs.Tables.{listed, AreTables};

    ghost view = { λ s. record { constants = s.consts; added = listed s.tables } };

    ghost invariant = { λ s. AreTables s.tables };
}

/// A length that the list of what was added had.
#[derive(Clone, Copy)]
pub struct StoreMark {
    length: usize,
}

impl Model for StoreMark {
    ghost use Rattle.std.specs.Prelude.{ℕ};

    ghost Value = { ℕ };

    ghost view = { λ m. m.length };

    ghost inverse = { λ n. record { length = n } };
}

impl Store {
    /// A store without metavariables, over the simple types of constants.
    pub fn new(alloc: Global, consts: &[Simple]) -> Result<Store, Want>
        ensures constants { IfOk result (λ store. constants store ≡ map plain_simple consts.now) }
        ensures additions { IfOk result (λ store. additions store ≡ []) }
        ensures wanting { IfErr result IsWant }
    {
        Ok(Store {
            alloc,
            consts: copy_simples(alloc, consts)?,
            tables: Tables::empty(alloc),
        })
    }

    /// The allocator.
    pub fn alloc(&self) -> Global {
        self.alloc
    }

    /// The simple types of the constants, by number.
    pub fn consts(&self) -> &[Simple]
        ensures { map plain_simple result.now ≡ constants self.now }
    {
        self.consts.as_slice()
    }

    /// The simple types of the metavariables, by number.
    pub fn metas(&self) -> &[Simple]
        ensures { map plain_simple result.now ≡ meta_types (additions self.now) }
    {
        self.tables.metas.as_slice()
    }

    /// The solution of a metavariable: none exactly where it is not there or unsolved.
    pub fn solution(&self, meta: u32) -> Option<&Obj>
        ensures { option_map plain_obj (option_copied result) ≡ given (additions self.now) meta }
    {
        self.tables.solution(meta)
    }

    /// A new metavariable of a simple type.
    pub fn new_meta(&mut self, ty: Simple) -> Result<u32, Want>
        ensures number { IfOk result (λ meta. meta ≡ length (meta_types (additions self.old))) }
        ensures added { OnOk result (self.new ≡ with_addition self.old (added_new ty)) }
        ensures unchanged { OnErr result (self.new ≡ self.old) }
        ensures wanting { IfErr result IsWant }
    {
        let number = self.tables.metas.len();
        if number > u32::MAX as usize {
            drop(ty);
            return Err(Want::too_far(self.alloc));
        }
        self.tables.add_new(ty)?;
        Ok(number as u32)
    }

    /// The solution of a metavariable that is there and unsolved.
    pub fn solve(&mut self, meta: u32, solution: Obj) -> Result<(), Want>
        requires there { meta < length (meta_types (additions self.old)) }
        requires unsolved { given (additions self.old) meta ≡ None }
        ensures added { OnOk result (self.new ≡ with_addition self.old (added_solved meta solution)) }
        ensures unchanged { OnErr result (self.new ≡ self.old) }
        ensures wanting { IfErr result IsWant }
    {
        self.tables.add_solved(meta, solution)?;
        Ok(())
    }

    /// How much was added so far.
    pub fn mark(&self) -> StoreMark
        ensures { result ≡ length self.now.added }
    {
        StoreMark {
            length: self.tables.added.len(),
        }
    }

    /// Takes back all that was added since the mark.
    pub fn undo(&mut self, mark: StoreMark)
        requires { mark ≤ length self.old.added }
        ensures { self.new ≡ cut_to mark self.old }
    {
        self.tables.cut(mark.length);
    }
}
