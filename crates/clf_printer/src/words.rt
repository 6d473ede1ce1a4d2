//! Names, variables and marks.
ghost use Rattle.std.specs.Prelude.{◌≡◌, ◌++◌, ◌+◌, ◌-◌, ◌||◌, nat_lt, IfOk, OnOk, if◌then◌else◌};
ghost use Rattle.std.specs.Fmt.{decimal};
ghost use Rattle.clf_syntax.specs.Word.{is_variable_word as is_variable_word_of};
ghost use Rattle.clf_sig.specs.Signature.{plain_signature};
ghost use Rattle.clf_printer.specs.Text as spec;

use clf_sig::{Entry, Signature};
use clf_syntax::{Head, Mode, is_variable_word};
use itoa::Buffer;
use std::alloc::AllocError;

/// A number of binders, raised by further ones. No text of 2^64 binders fits memory.
pub fn raised(level: u64, by: usize) -> Result<u64, AllocError>
    ensures { IfOk result (λ r. r ≡ level + by) }
{
    match level.checked_add(by as u64) {
        Some(raised) => Ok(raised),
        None => Err(AllocError),
    }
}

/// Writes a text where it is wanted.
pub fn push_if(out: &mut Vec<u8>, wanted: bool, text: &[u8]) -> Result<(), AllocError>
    ensures { OnOk result (out.new.items ≡ out.old.items ++ spec.when wanted text.now) }
{
    if wanted {
        out.extend_from_slice(text)?;
    }
    Ok(())
}

/// Writes a number in decimal.
pub fn push_number(out: &mut Vec<u8>, number: u64) -> Result<(), AllocError>
    ensures { OnOk result (out.new.items ≡ out.old.items ++ decimal number) }
{
    let mut buffer = Buffer::new();
    out.extend_from_slice(buffer.format(number).as_bytes())?;
    Ok(())
}

/// Whether a name is written with `$`.
fn has_dollar(name: &str, entry: &Entry) -> bool
    ensures { result ≡ (nat_lt 0 entry.now.implicit || is_variable_word_of name.now) }
{
    entry.implicit > 0 || is_variable_word(name.as_bytes())
}

/// Writes the name of a place.
#[tactic(auto, using(crate::proofs::Places::places))]
pub fn push_place(out: &mut Vec<u8>, sig: &Signature, place: u32) -> Result<(), AllocError>
    ensures { OnOk result (out.new.items ≡ out.old.items ++ spec.place_text (plain_signature sig.now) place) }
{
    let Some(name) = sig.name(place) else {
        out.push(b'$')?;
        return Ok(());
    };
    let Some(entry) = sig.entry(place) else {
        out.push(b'$')?;
        return Ok(());
    };
    push_if(out, has_dollar(name, entry), b"$")?;
    out.extend_from_slice(name.as_bytes())?;
    Ok(())
}

/// Writes the variable of a number.
pub fn push_variable(out: &mut Vec<u8>, number: u64) -> Result<(), AllocError>
    ensures { OnOk result (out.new.items ≡ out.old.items ++ spec.variable_text number) }
{
    out.push(b'x')?;
    push_number(out, number)
}

/// Writes the variable that is bound under so many binders.
pub fn push_new_variable(out: &mut Vec<u8>, level: u64) -> Result<(), AllocError>
    ensures { OnOk result (out.new.items ≡ out.old.items ++ spec.new_variable_text level) }
{
    push_variable(out, raised(level, 1)?)
}

/// The number in the name of the variable of this index.
fn used_number(level: u64, index: u32) -> u64
    ensures { result ≡ (if nat_lt index level then level - index else 0) }
{
    let index = u64::from(index);
    if index < level { level - index } else { 0 }
}

/// The number of a metavariable in a list: its place, counted from 1.
fn meta_number(metas: &[u32], meta: u32) -> Result<u64, AllocError>
    ensures { IfOk result (λ n. n ≡ spec.meta_number metas.now meta) }
{
    let mut number = 1;
    for known in metas {
        if *known == meta {
            return Ok(number);
        }
        number = raised(number, 1)?;
    }
    Ok(number)
}

/// Writes a head.
pub fn push_head(
    out: &mut Vec<u8>,
    sig: &Signature,
    metas: &[u32],
    level: u64,
    head: Head,
) -> Result<(), AllocError>
    ensures { OnOk result
        (out.new.items ≡ out.old.items ++ spec.head_text (plain_signature sig.now) metas.now level head) }
{
    match head {
        Head::Const(place) => push_place(out, sig, place),
        Head::Var(index) => push_variable(out, used_number(level, index)),
        Head::Meta(meta) => {
            out.push(b'?')?;
            push_number(out, meta_number(metas, meta)?)
        }
    }
}

fn mark(mode: Mode) -> &'static [u8]
    ensures { result.now ≡ spec.mark_text mode }
{
    match mode {
        Mode::Persistent => b"!",
        Mode::Affine => b"@",
        Mode::Linear => b"",
    }
}

/// Writes the mark of a mode.
pub fn push_mark(out: &mut Vec<u8>, mode: Mode) -> Result<(), AllocError>
    ensures { OnOk result (out.new.items ≡ out.old.items ++ spec.mark_text mode) }
{
    out.extend_from_slice(mark(mode))?;
    Ok(())
}

/// Writes a new variable with its mode.
pub fn push_binder(out: &mut Vec<u8>, level: u64, mode: Mode) -> Result<(), AllocError>
    ensures { OnOk result (out.new.items ≡ out.old.items ++ spec.binder_text level mode) }
{
    push_mark(out, mode)?;
    push_new_variable(out, level)
}

/// Writes the pattern of a step.
pub fn push_pattern(out: &mut Vec<u8>, level: u64, modes: &[Mode]) -> Result<(), AllocError>
    ensures { OnOk result (out.new.items ≡ out.old.items ++ spec.pattern_text level modes.now) }
{
    push_if(out, modes.is_empty(), b"1")?;
    push_if(out, modes.len() > 1, b"[")?;
    push_binders(out, level, modes)?;
    push_if(out, modes.len() > 1, b"]")
}

fn push_binders(out: &mut Vec<u8>, level: u64, modes: &[Mode]) -> Result<(), AllocError>
    ensures { OnOk result (out.new.items ≡ out.old.items ++ spec.binders_text level modes.now) }
{
    let mut rest = modes;
    let mut inner = level;
    while let [mode, later @ ..] = rest {
        push_binder(out, inner, *mode)?;
        push_if(out, !later.is_empty(), b", ")?;
        inner = raised(inner, 1)?;
        rest = later;
    }
    Ok(())
}
