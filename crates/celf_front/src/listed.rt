//! Numbers in the order in which they come.
ghost use Rattle.std.specs.Prelude.{◌≡◌, ◌+◌, ◌++◌, ◌∷◌, [], false, ◌<◌, length, IfOk, OnOk};
ghost use Rattle.celf_front.specs.Needs as spec;
ghost use Rattle.celf_front.specs.Listed.{IsListed, left};

use crate::needs::flag_of;
use sqlite_items::Items;
use std::alloc::{AllocError, Global};

/// Numbers below a count in the order in which they came, with a flag for each number that says whether it came.
#[derive(Drop)]
pub struct Listed {
    pub numbers: Items<u32>,
    pub flags: Vec<bool>,
}

impl Listed {
    /// No number, of so many.
    pub fn none(alloc: Global, count: u32) -> Result<Listed, AllocError>
        ensures none { IfOk result (λ l. l.numbers ≡ []) }
        ensures listed { IfOk result (λ l. IsListed count l) }
    {
        Ok(Listed {
            numbers: Items::new(alloc),
            flags: vec![in alloc; false; count as usize]?,
        })
    }

    /// Whether the number came.
    pub fn has(&self, number: u32) -> bool
        ensures { result ≡ spec.flag self.now.flags.items number }
    {
        flag_of(self.flags.as_slice(), number)
    }

    /// Takes a number that did not come before.
    pub fn add(&mut self, number: u32) -> Result<(), AllocError>
        requires within { number < length self.old.flags.items }
        requires new { spec.flag self.old.flags.items number ≡ false }
        requires listed { IsListed (length self.old.flags.items) self.old }
        ensures numbers { OnOk result (self.new.numbers ≡ self.old.numbers ++ number ∷ []) }
        ensures listed { OnOk result (IsListed (length self.old.flags.items) self.new) }
        ensures left { OnOk result (left self.new + 1 ≡ left self.old) }
    {
        self.numbers.push(number)?;
        self.flags[number as usize] = true;
        Ok(())
    }
}
