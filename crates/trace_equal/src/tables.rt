//! Tables of ids: which variables of two trees are the same while the trees are compared. No tree is renamed.
ghost use Rattle.std.specs.Prelude.{◌≡◌, ◌+◌, List, OnOk, length};
ghost use Rattle.trace_equal.specs.Comparing as spec;

use clf_syntax::{Head, deeper};
use sqlite_items::Items;
use std::alloc::{AllocError, Global};

/// Ids that follow one another. The variables of a pattern have them, the last variable the greatest one.
#[derive(Clone, Copy, Debug)]
pub struct Run {
    pub first: u64,
    pub count: usize,
}

/// The ids of the variables in scope on both sides, by runs, the newest run last. All of them are below `fresh`.
#[derive(Drop)]
pub struct Tables {
    pub left: Items<Run>,
    pub right: Items<Run>,
    pub fresh: u64,
}

/// What a variable stands for: an id, or a variable outside the table.
#[derive(Clone, Copy, Debug)]
pub enum Place {
    Bound(u128),
    Outside(u64),
}

impl Tables {
    ghost use Rattle.std.specs.Prelude.{[]};

    /// Tables under no binder.
    pub fn empty(alloc: Global) -> Tables
        ensures { result ≡ spec.no_ids }
    {
        Tables {
            left: Items::new(alloc),
            right: Items::new(alloc),
            fresh: 0,
        }
    }

    /// A new variable on both sides.
    pub fn enter_both(&mut self) -> Result<(), AllocError>
        ensures { OnOk result (self.new ≡ spec.with_both self.old) }
    {
        let fresh = deeper(self.fresh, 1)?;
        let run = Run {
            first: self.fresh,
            count: 1,
        };
        self.left.push(run)?;
        self.right.push(run)?;
        self.fresh = fresh;
        Ok(())
    }

    /// The end of that variable's scope.
    pub fn leave_both(&mut self)
        ensures { (s : spec.Scopes) → self.old ≡ spec.with_both s → self.new ≡ s }
    {
        self.left.pop();
        self.right.pop();
        self.fresh = self.fresh.saturating_sub(1);
    }

    /// The variables of a step, on the left side.
    pub fn enter_left(&mut self, run: Run) -> Result<(), AllocError>
        ensures { OnOk result (self.new ≡ spec.with_left self.old run) }
    {
        self.left.push(run)
    }

    pub fn leave_left(&mut self)
        ensures { (s : spec.Scopes) (r : spec.Ids) → self.old ≡ spec.with_left s r → self.new ≡ s }
    {
        self.left.pop();
    }

    /// The end of the scopes of so many steps on the left side.
    pub fn leave_steps(&mut self, count: usize)
        ensures { (s : spec.Scopes) (rs : List spec.Ids) →
            self.old ≡ spec.with_steps s rs → length rs ≡ count →
            self.new ≡ s }
    {
        for _step in 0..count {
            self.leave_left();
        }
    }

    /// The variables of steps, on the right side.
    pub fn enter_right(&mut self, run: Run) -> Result<(), AllocError>
        ensures { OnOk result (self.new ≡ spec.with_right self.old run) }
    {
        self.right.push(run)
    }

    pub fn leave_right(&mut self)
        ensures { (s : spec.Scopes) (r : spec.Ids) → self.old ≡ spec.with_right s r → self.new ≡ s }
    {
        self.right.pop();
    }
}

fn bound(first: u64, offset: u64) -> Place
    ensures { result ≡ Place.Bound (first + offset) }
{
    Place::Bound(u128::from(first) + u128::from(offset))
}

/// What a variable stands for.
fn place_of(runs: &[Run], variable: u32) -> Place
    ensures { result ≡ spec.place runs.now variable }
{
    let mut inner = u64::from(variable);
    let mut left = runs.len();
    while left > 0 {
        left -= 1;
        let run = runs[left];
        let count = run.count as u64;
        if inner < count {
            return bound(run.first, count - 1 - inner);
        }
        inner -= count;
    }
    Place::Outside(inner)
}

fn is_same_place(left: Place, right: Place) -> bool
    ensures { result ≡ spec.same_place left right }
{
    match left {
        Place::Bound(id) => match right {
            Place::Bound(other) => id == other,
            Place::Outside(_) => false,
        },
        Place::Outside(number) => match right {
            Place::Outside(other) => number == other,
            Place::Bound(_) => false,
        },
    }
}

/// Whether two heads are the same under the tables.
pub fn is_same_head(left: Head, right: Head, tables: &Tables) -> bool
    ensures { result ≡ spec.compared_head tables.now left right }
{
    match left {
        Head::Const(constant) => match right {
            Head::Const(other) => constant == other,
            Head::Var(_) | Head::Meta(_) => false,
        },
        Head::Var(variable) => match right {
            Head::Var(other) => is_same_place(
                place_of(tables.left.as_slice(), variable),
                place_of(tables.right.as_slice(), other),
            ),
            Head::Const(_) | Head::Meta(_) => false,
        },
        Head::Meta(metavariable) => match right {
            Head::Meta(other) => metavariable == other,
            Head::Const(_) | Head::Var(_) => false,
        },
    }
}
