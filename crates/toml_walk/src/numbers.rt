//! Numbers.

ghost use Rattle.std.specs.Prelude.{◌≡◌, ◌≤◌, ◌<◌, ◌^◌, IfOk, map};
ghost use Rattle.toml.specs.View.{view};
ghost use Rattle.toml_walk.specs.Bounds.{greatest, within, bounds_of_form};
ghost use Rattle.toml_walk.specs.Fault.{Gives};
ghost use Rattle.toml_walk.specs.Walk.{values_of};
ghost use Rattle.toml_walk.specs.Values.{integer, bounded_number, number, both, two_in_list, two};

use crate::list::items_of;
use crate::{Bounds, Form, GREATEST, KeyFault, Path, PlanError, Reader};
use std::alloc::Global;
use toml::Value;

/// The number that a value is, or the fault `Kind` of this path.
pub fn integer_of(alloc: Global, path: &Path, value: &Value) -> Result<i64, PlanError>
    ensures { Gives (λ z. z) result (integer path.now (view value.now)) }
{
    match value.as_integer() {
        None => Err(path.refuse(alloc, KeyFault::Kind)),
        Some(z) => Ok(z),
    }
}

fn bounded_of(alloc: Global, bounds: &Bounds, path: &Path, z: i64) -> Result<u64, PlanError>
    ensures gives { Gives (λ n. n) result (bounded_number bounds.now path.now z) }
    ensures most { IfOk result (λ n. n ≤ bounds.now.most) }
{
    if z >= 0 && bounds.admit(z as u64) {
        Ok(z as u64)
    } else {
        Err(path.refuse(alloc, KeyFault::Range(z)))
    }
}

/// The number within bounds that a value is. Refused, in this order: `Kind` if it is no number, `Range` with the number
/// if it is outside.
pub fn number_of(
    alloc: Global,
    bounds: &Bounds,
    path: &Path,
    value: &Value,
) -> Result<u64, PlanError>
    ensures gives { Gives (λ n. n) result (number bounds.now path.now (view value.now)) }
    ensures most { IfOk result (λ n. n ≤ bounds.now.most) }
{
    let z = integer_of(alloc, path, value)?;
    bounded_of(alloc, bounds, path, z)
}

/// Numbers of 8 bits.
#[derive(Clone, Copy)]
pub struct Byte {
    pub bounds: Bounds,
    ghost narrow: { bounds.most < 2 ^ 8 },
}

impl Byte {
    /// From `least` to `most`.
    pub fn within(least: u8, most: u8) -> Byte
        ensures { result.bounds ≡ within least most }
    {
        Byte {
            bounds: Bounds::within(u64::from(least), u64::from(most)),
        }
    }

    /// From `least` to `most`, of the form.
    pub fn formed(least: u8, most: u8, form: Form) -> Byte
        ensures { result.bounds ≡ bounds_of_form least most form }
    {
        Byte {
            bounds: Bounds::formed(u64::from(least), u64::from(most), form),
        }
    }
}

impl Reader for Byte {
    type Out = u8;

    ghost reads = { λ r. number r.bounds };

    fn read(&self, alloc: Global, path: &Path, value: &Value) -> Result<u8, PlanError> {
        let n = number_of(alloc, &self.bounds, path, value)?;
        Ok(n as u8)
    }
}

/// Numbers of 16 bits.
#[derive(Clone, Copy)]
pub struct Word {
    pub bounds: Bounds,
    ghost narrow: { bounds.most < 2 ^ 16 },
}

impl Word {
    /// From `least` to `most`.
    pub fn within(least: u16, most: u16) -> Word
        ensures { result.bounds ≡ within least most }
    {
        Word {
            bounds: Bounds::within(u64::from(least), u64::from(most)),
        }
    }

    /// From `least` to `most`, of the form.
    pub fn formed(least: u16, most: u16, form: Form) -> Word
        ensures { result.bounds ≡ bounds_of_form least most form }
    {
        Word {
            bounds: Bounds::formed(u64::from(least), u64::from(most), form),
        }
    }
}

impl Reader for Word {
    type Out = u16;

    ghost reads = { λ r. number r.bounds };

    fn read(&self, alloc: Global, path: &Path, value: &Value) -> Result<u16, PlanError> {
        let n = number_of(alloc, &self.bounds, path, value)?;
        Ok(n as u16)
    }
}

/// Numbers of 32 bits.
#[derive(Clone, Copy)]
pub struct Long {
    pub bounds: Bounds,
    ghost narrow: { bounds.most < 2 ^ 32 },
}

impl Long {
    /// From `least` to `most`.
    pub fn within(least: u32, most: u32) -> Long
        ensures { result.bounds ≡ within least most }
    {
        Long {
            bounds: Bounds::within(u64::from(least), u64::from(most)),
        }
    }
}

impl Reader for Long {
    type Out = u32;

    ghost reads = { λ r. number r.bounds };

    fn read(&self, alloc: Global, path: &Path, value: &Value) -> Result<u32, PlanError> {
        let n = number_of(alloc, &self.bounds, path, value)?;
        Ok(n as u32)
    }
}

/// Numbers of 64 bits.
#[derive(Clone, Copy)]
pub struct Wide {
    pub bounds: Bounds,
}

impl Wide {
    /// From `least` to `most`.
    pub fn within(least: u64, most: u64) -> Wide
        ensures { result.bounds ≡ within least most }
    {
        Wide {
            bounds: Bounds::within(least, most),
        }
    }

    /// From `least` on, of the form.
    pub fn formed(least: u64, form: Form) -> Wide
        ensures { result.bounds ≡ bounds_of_form least greatest form }
    {
        Wide {
            bounds: Bounds::formed(least, GREATEST, form),
        }
    }
}

impl Reader for Wide {
    type Out = u64;

    ghost reads = { λ r. number r.bounds };

    fn read(&self, alloc: Global, path: &Path, value: &Value) -> Result<u64, PlanError> {
        number_of(alloc, &self.bounds, path, value)
    }
}

// Two numbers, each within its bounds.
fn both_of(
    alloc: Global,
    first: &Bounds,
    last: &Bounds,
    path: &Path,
    m: &Value,
    n: &Value,
) -> Result<(u64, u64), PlanError>
    ensures gives { Gives (λ p. p) result (both first.now last.now path.now (view m.now) (view n.now)) }
    ensures first_most { IfOk result (λ p. p.0 ≤ first.now.most) }
    ensures last_most { IfOk result (λ p. p.1 ≤ last.now.most) }
{
    let m = number_of(alloc, first, &path.place(0), m)?;
    let n = number_of(alloc, last, &path.place(1), n)?;
    Ok((m, n))
}

// Two numbers in a list, if the list may have any.
fn two_of(
    alloc: Global,
    allowed: bool,
    first: &Bounds,
    last: &Bounds,
    path: &Path,
    values: &[Value],
) -> Result<(u64, u64), PlanError>
    ensures gives { Gives (λ p. p) result (two_in_list allowed first.now last.now path.now (map view values.now)) }
    ensures first_most { IfOk result (λ p. p.0 ≤ first.now.most) }
    ensures last_most { IfOk result (λ p. p.1 ≤ last.now.most) }
{
    let count = match values {
        [m, n] if allowed => return both_of(alloc, first, last, path, m, n),
        [_, _, _, ..] => {
            return Err(path.refuse(alloc, KeyFault::Limit));
        }
        other => other.len(),
    };
    Err(path.refuse(alloc, KeyFault::Range(count as i64)))
}

/// The list of two numbers, each within its bounds, that a value is. Refused, in this order: `Kind` if it is no list,
/// `Limit` if it has more than two elements, `Range` with their number if it has fewer or none are `allowed`, then by
/// the first number that is refused.
pub fn two_numbers(
    alloc: Global,
    allowed: bool,
    first: &Bounds,
    last: &Bounds,
    path: &Path,
    value: &Value,
) -> Result<(u64, u64), PlanError>
    ensures gives { Gives (λ p. p) result (two allowed first.now last.now path.now (view value.now)) }
    ensures first_most { IfOk result (λ p. p.0 ≤ first.now.most) }
    ensures last_most { IfOk result (λ p. p.1 ≤ last.now.most) }
{
    let values = items_of(alloc, path, value)?;
    two_of(alloc, allowed, first, last, path, values)
}
