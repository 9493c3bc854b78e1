//! Lists.

ghost use Rattle.std.specs.Prelude.{◌≡◌, map, option_map, length};
ghost use Rattle.toml.specs.Data.{as_array};
ghost use Rattle.toml.specs.View.{view};
ghost use Rattle.toml_walk.specs.Fault.{Gives};
ghost use Rattle.toml_walk.specs.Walk.{data_list, values_of, within_span, each, list, is_past, count_between};
ghost use Rattle.toml_walk.specs.Walk.{any_number};

use crate::{KeyFault, Path, PlanError, Reader};
use ide_types::Items;
use std::alloc::Global;
use toml::Value;

/// How many elements a list may have.
#[derive(Clone, Copy, PartialEq, Eq)]
pub struct CountRange {
    pub least: usize,
    /// No bound if there is none.
    pub most: Option<usize>,
    /// Whether the list may have elements at all.
    pub allowed: bool,
}

impl CountRange {
    /// From `least` to `most` elements.
    pub fn between(least: usize, most: usize) -> CountRange
        ensures { result ≡ count_between least most }
    {
        CountRange {
            least,
            most: Some(most),
            allowed: true,
        }
    }

    /// Any number of elements.
    pub fn any_number() -> CountRange
        ensures { result ≡ any_number }
    {
        CountRange {
            least: 0,
            most: None,
            allowed: true,
        }
    }

    fn is_passed(&self, count: usize) -> bool
        ensures { result ≡ is_past self.now.most count }
    {
        match self.most {
            None => false,
            Some(most) => most < count,
        }
    }
}

// The elements of a list.
#[tactic(auto, using(crate::proofs::Lists::list_of_view))]
fn items_if_list(value: &Value) -> Option<&[Value]>
    ensures { option_map (λ vs. map view vs.now) result ≡ option_map data_list (as_array (view value.now)) }
{
    match value.as_array() {
        None => None,
        Some(items) => Some(items.as_slice()),
    }
}

/// The elements of the list that a value is, or the fault `Kind` of this path.
pub fn items_of<'a>(alloc: Global, path: &Path, value: &'a Value) -> Result<&'a [Value], PlanError>
    ensures { Gives (λ vs. map view vs.now) result (values_of path.now (view value.now)) }
{
    match items_if_list(value) {
        None => Err(path.refuse(alloc, KeyFault::Kind)),
        Some(items) => Ok(items),
    }
}

// Refuses too many elements, and then too few.
fn refuse_count(
    alloc: Global,
    span: &CountRange,
    path: &Path,
    items: &[Value],
) -> Result<(), PlanError>
    ensures { Gives (λ _. map view items.now) result (within_span span.now path.now (map view items.now)) }
{
    let count = items.len();
    if span.is_passed(count) {
        return Err(path.refuse(alloc, KeyFault::Limit));
    }
    if count < span.least || (!span.allowed && count > 0) {
        return Err(path.refuse(alloc, KeyFault::Range(count as i64)));
    }
    Ok(())
}

// Each element of a list, up to the first fault.
fn each_of<R: Reader>(
    alloc: Global,
    reader: &R,
    path: &Path,
    values: &[Value],
) -> Result<Vec<R::Out>, PlanError>
    ensures { Gives (λ v. v.items) result (each (R.reads reader.now) path.now 0 (map view values.now)) }
{
    let mut all = Vec::new(alloc);
    for (i, value) in values.iter().enumerate() {
        all.push(reader.read(alloc, &path.place(i), value)?)?;
    }
    Ok(all)
}

/// A list of so many elements, by how an element is read. Refused, in this order: `Kind` if it is no list, `Limit` if
/// it has too many elements, `Range` with their number if it has too few, then by the first element that is refused.
#[derive(Clone, Copy)]
pub struct ListOf<R> {
    pub span: CountRange,
    pub element: R,
}

impl<R> ListOf<R> {
    /// From `least` to `most` elements.
    pub fn between(least: usize, most: usize, element: R) -> ListOf<R>
        ensures span { result.span ≡ count_between least most }
        ensures element { result.element ≡ element }
    {
        ListOf {
            span: CountRange::between(least, most),
            element,
        }
    }
}

impl<R: Reader> Reader for ListOf<R> {
    type Out = Items<R::Out>;

    ghost reads = { λ l. list l.span (R.reads l.element) };

    fn read(&self, alloc: Global, path: &Path, value: &Value) -> Result<Items<R::Out>, PlanError> {
        let items = items_of(alloc, path, value)?;
        refuse_count(alloc, &self.span, path, items)?;
        Ok(Items::new(each_of(alloc, &self.element, path, items)?))
    }
}
