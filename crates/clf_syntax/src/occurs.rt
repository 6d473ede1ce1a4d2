//! Whether a free variable occurs.
ghost use Rattle.std.specs.Prelude.{◌≡◌, ◌<◌, ◌≤◌, ◌↔◌, ℕ, ◌+◌, min, ◌||◌, IsTrue, false, map};
ghost use Rattle.std.specs.List.{list_any};
ghost use Rattle.clf_syntax.specs.Plain.{plain_obj, plain_neutral, plain_elim, plain_expr, plain_entry};
ghost use Rattle.clf_syntax.specs.PlainTypes.{plain_ty, plain_tele, plain_tele_entry, plain_kind};
ghost use Rattle.clf_syntax.specs.Tree.{tuple_of};
ghost use Rattle.clf_syntax.specs.TypeTree.{telescope_of};
ghost use Rattle.clf_syntax.specs.Occurs as spec;
ghost use Rattle.clf_syntax.specs.Spines.{occurs_elimination as occurs_elimination_of};

use crate::number::{BEYOND, under};
use crate::tree::{Elim, Expr, Head, Kind, Neutral, Obj, Tele, TeleEntry, TupleEntry, Ty};

fn is_variable(head: Head, var: u64) -> bool
    requires { var ≤ BEYOND }
    ensures { (v : ℕ) → min v BEYOND ≡ var → result ≡ spec.is_variable v head }
{
    match head {
        Head::Const(_) | Head::Meta(_) => false,
        Head::Var(index) => u64::from(index) == var,
    }
}

#[cycle(occurs)]
#[tactic(auto, using(crate::specs::Plain::plain_laws, crate::proofs::Spines::occurs_laws))]
fn occurs_object(obj: &Obj, var: u64) -> bool
    requires { var ≤ BEYOND }
    ensures { (v : ℕ) → min v BEYOND ≡ var → result ≡ spec.occurs v (plain_obj obj.now) }
{
    match obj {
        Obj::Lam { mode: _, body } => occurs_object(body.get(), under(var, 1)),
        Obj::Pair { left, right } => occurs_object(left.get(), var)
            || occurs_object(right.get(), var),
        Obj::Unit | Obj::Hole => false,
        Obj::Mon { expr } => occurs_expression(expr.get(), var),
        Obj::At { neutral } => occurs_neutral(neutral, var),
    }
}

#[cycle(occurs)]
#[tactic(auto, using(crate::specs::Plain::plain_laws, crate::proofs::Spines::occurs_laws))]
fn occurs_neutral(neutral: &Neutral, var: u64) -> bool
    requires { var ≤ BEYOND }
    ensures { (v : ℕ) → min v BEYOND ≡ var → result ≡ spec.occurs_neutral v (plain_neutral neutral.now) }
{
    is_variable(neutral.head, var) || occurs_spine(neutral.spine.as_slice(), var)
}

#[cycle(occurs)]
#[tactic(auto, using(crate::specs::Plain::plain_laws, crate::proofs::Spines::occurs_laws))]
fn occurs_spine(spine: &[Elim], var: u64) -> bool
    requires { var ≤ BEYOND }
    ensures { (v : ℕ) → min v BEYOND ≡ var → result ≡ list_any (occurs_elimination_of v) (map plain_elim spine.now) }
{
    for act in spine {
        if occurs_elimination(act, var) {
            return true;
        }
    }
    false
}

#[cycle(occurs)]
#[tactic(auto, using(crate::specs::Plain::plain_laws, crate::proofs::Spines::occurs_laws))]
fn occurs_elimination(act: &Elim, var: u64) -> bool
    requires { var ≤ BEYOND }
    ensures { (v : ℕ) → min v BEYOND ≡ var → result ≡ occurs_elimination_of v (plain_elim act.now) }
{
    match act {
        Elim::Arg { mode: _, obj } => occurs_object(obj, var),
        Elim::First | Elim::Second => false,
    }
}

#[cycle(occurs)]
#[tactic(auto, using(crate::specs::Plain::plain_laws, crate::proofs::Spines::occurs_laws))]
fn occurs_expression(expr: &Expr, var: u64) -> bool
    requires { var ≤ BEYOND }
    ensures { (v : ℕ) → min v BEYOND ≡ var → result ≡ spec.occurs_expression v (plain_expr expr.now) }
{
    let mut inner = var;
    for step in expr.steps.as_slice() {
        if occurs_neutral(&step.rhs, inner) {
            return true;
        }
        inner = under(inner, step.modes.len());
    }
    occurs_tuple(expr.result.as_slice(), inner)
}

#[cycle(occurs)]
#[tactic(auto, using(crate::specs::Plain::plain_laws, crate::proofs::Spines::occurs_laws))]
fn occurs_tuple(tuple: &[TupleEntry], var: u64) -> bool
    requires { var ≤ BEYOND }
    ensures { (v : ℕ) → min v BEYOND ≡ var → result ≡ spec.occurs_tuple v (tuple_of (map plain_entry tuple.now)) }
{
    for entry in tuple {
        if occurs_object(&entry.obj, var) {
            return true;
        }
    }
    false
}

fn occurs_indices(indices: &[Obj], var: u64) -> bool
    requires { var ≤ BEYOND }
    ensures { (v : ℕ) → min v BEYOND ≡ var → result ≡ list_any (spec.occurs v) (map plain_obj indices.now) }
{
    for index in indices {
        if occurs_object(index, var) {
            return true;
        }
    }
    false
}

#[cycle(occurs_type)]
#[tactic(auto, using(crate::specs::PlainTypes::plain_type_laws))]
fn occurs_type(ty: &Ty, var: u64) -> bool
    requires { var ≤ BEYOND }
    ensures { (v : ℕ) → min v BEYOND ≡ var → result ≡ spec.occurs_type v (plain_ty ty.now) }
{
    match ty {
        Ty::Fam { family: _, indices } => occurs_indices(indices.as_slice(), var),
        Ty::Fun { mode: _, dom, cod } => occurs_type(dom.get(), var)
            || occurs_type(cod.get(), under(var, 1)),
        Ty::With { left, right } => occurs_type(left.get(), var) || occurs_type(right.get(), var),
        Ty::Top => false,
        Ty::Monad { tele } => occurs_entries(tele.entries.as_slice(), var),
    }
}

#[cycle(occurs_type)]
#[tactic(auto, using(crate::specs::PlainTypes::plain_type_laws))]
fn occurs_entries(entries: &[TeleEntry], var: u64) -> bool
    requires { var ≤ BEYOND }
    ensures { (v : ℕ) → min v BEYOND ≡ var →
        result ≡ spec.occurs_telescope v (telescope_of (map plain_tele_entry entries.now)) }
{
    let mut inner = var;
    for entry in entries {
        if occurs_type(&entry.ty, inner) {
            return true;
        }
        inner = under(inner, 1);
    }
    false
}

fn occurs_arguments(args: &[Ty], var: u64) -> bool
    requires { var ≤ BEYOND }
    ensures { (v : ℕ) → min v BEYOND ≡ var → result ≡ spec.occurs_kind v (map plain_ty args.now) }
{
    let mut inner = var;
    for arg in args {
        if occurs_type(arg, inner) {
            return true;
        }
        inner = under(inner, 1);
    }
    false
}

/// Whether a free variable occurs in the entries of a telescope, or in the last ones of it.
pub fn occurs_in_entries(entries: &[TeleEntry], var: u32) -> bool
    ensures { result ≡ spec.occurs_telescope var (telescope_of (map plain_tele_entry entries.now)) }
{
    occurs_entries(entries, u64::from(var))
}

/// Whether a free variable occurs in the arguments of a kind, or in the last ones of it.
pub fn occurs_in_arguments(args: &[Ty], var: u32) -> bool
    ensures { result ≡ spec.occurs_kind var (map plain_ty args.now) }
{
    occurs_arguments(args, u64::from(var))
}

impl Obj {
    /// Whether a free variable occurs.
    pub fn occurs(&self, var: u32) -> bool
        ensures { result ≡ spec.occurs var (plain_obj self.now) }
    {
        occurs_object(self, u64::from(var))
    }
}

impl Neutral {
    /// Whether a free variable occurs.
    pub fn occurs(&self, var: u32) -> bool
        ensures { result ≡ spec.occurs_neutral var (plain_neutral self.now) }
    {
        occurs_neutral(self, u64::from(var))
    }

    /// Whether none of the newest variables occurs, of so many.
    pub fn lacks_newest(&self, count: usize) -> bool
        ensures { IsTrue result ↔ ((v : ℕ) → v < count → spec.occurs_neutral v (plain_neutral self.now) ≡ false) }
    {
        for var in 0..count {
            if occurs_neutral(self, under(0, var)) {
                return false;
            }
        }
        true
    }
}

impl Expr {
    /// Whether a free variable occurs.
    pub fn occurs(&self, var: u32) -> bool
        ensures { result ≡ spec.occurs_expression var (plain_expr self.now) }
    {
        occurs_expression(self, u64::from(var))
    }
}

impl Ty {
    /// Whether a free variable occurs.
    pub fn occurs(&self, var: u32) -> bool
        ensures { result ≡ spec.occurs_type var (plain_ty self.now) }
    {
        occurs_type(self, u64::from(var))
    }
}

impl Tele {
    /// Whether a free variable occurs.
    #[tactic(auto, using(crate::specs::PlainTypes::plain_type_laws))]
    pub fn occurs(&self, var: u32) -> bool
        ensures { result ≡ spec.occurs_telescope var (plain_tele self.now) }
    {
        occurs_entries(self.entries.as_slice(), u64::from(var))
    }
}

impl Kind {
    /// Whether a free variable occurs.
    pub fn occurs(&self, var: u32) -> bool
        ensures { result ≡ spec.occurs_kind var (plain_kind self.now) }
    {
        occurs_arguments(self.args.as_slice(), u64::from(var))
    }
}
