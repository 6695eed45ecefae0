//! What the holder of some rules lacks of others.
ghost use Rattle.std.specs.Prelude.{◌≡◌, ◌++◌, ◌∷◌, ◌+◌, [], ℕ, List, length, true, IfOk, OnOk};
ghost use Rattle.kapi_rules.specs.Missing.{CoversAll, missing as missing_of};
ghost use Rattle.kapi_missing.specs.Private.Grid.{AreGridColumns, IsGrid, IsMarked};
ghost use Rattle.kapi_missing.specs.Private.Index.{IsIndex};
ghost use Rattle.kapi_missing.specs.Private.Left.{AreLevels, Sees, left_atoms, lists_in, resource_lists, url_lists};
ghost use Rattle.kapi_missing.specs.Private.Once.{once};
ghost use Rattle.kapi_missing.specs.Private.Stoppers.{Stopper, stoppers};

use crate::grid::{Grid, count_unmarked, grid_of, mark, placed_rule, push_unmarked};
use crate::index::{Rules, rules_of};
use crate::numbers::{first_numbers, set};
use crate::tree::{Levels, count, push, resource_levels, url_levels};
use kapi_model::PolicyRule;
use kapi_rules::Atom;
use kapi_text::Memory;
use std::alloc::Global;

// Room for the atoms is taken before the first is made.
fn push_levels<'a>(
    alloc: Global,
    list: &mut Vec<Atom>,
    before: &[u64],
    levels: &Levels<'a, '_>,
) -> Result<(), Memory>
    ensures { OnOk result ((all others : List Stopper) → Sees all (λ s. true) before.now → AreLevels all others (levels.now.first ∷ levels.now.behind.items)
        → list.new.items ≡ list.old.items ++ left_atoms all (lists_in (levels.now.first ∷ levels.now.behind.items))) }
{
    let left = count(alloc, before, &levels.first, levels.behind.as_slice())?;
    if left > 0 {
        list.reserve(left)?;
        let mut chosen = Vec::new(alloc);
        push(
            alloc,
            list,
            &mut chosen,
            before,
            &levels.first,
            levels.behind.as_slice(),
        )?;
    }
    Ok(())
}

// The rules before have those numbers, and the rule has the next one.
fn push_on_resources(
    alloc: Global,
    list: &mut Vec<Atom>,
    rules: &Rules<'_>,
    grid: &Grid<'_>,
    before: &[u64],
    rule: &PolicyRule,
    number: usize,
) -> Result<(), Memory>
    requires { IsGrid grid.now }
    ensures { OnOk result ((all others : List Stopper) → IsIndex (all ++ others) rules.now → Sees all (λ s. true) before.now → IsMarked all grid.now.columns grid.now.marks.items
        → list.new.items ≡ list.old.items ++ left_atoms all (resource_lists (once rule.now))) }
{
    match placed_rule(alloc, &grid.columns, rule)? {
        Some(placed) => {
            list.reserve(count_unmarked(alloc, grid, number)?)?;
            push_unmarked(alloc, list, grid, &placed)
        }
        None => {
            let levels = resource_levels(alloc, rules, before, rule)?;
            push_levels(alloc, list, before, &levels)
        }
    }
}

fn push_on_urls(
    alloc: Global,
    list: &mut Vec<Atom>,
    rules: &Rules<'_>,
    before: &[u64],
    rule: &PolicyRule,
) -> Result<(), Memory>
    ensures { OnOk result ((all others : List Stopper) → IsIndex (all ++ others) rules.now → Sees all (λ s. true) before.now
        → list.new.items ≡ list.old.items ++ left_atoms all (url_lists (once rule.now))) }
{
    if rule.non_resource_urls.as_slice().is_empty() {
        return Ok(());
    }
    let levels = url_levels(alloc, rules, before, rule)?;
    push_levels(alloc, list, before, &levels)
}

fn push_all(
    alloc: Global,
    list: &mut Vec<Atom>,
    rules: &Rules<'_>,
    held: &[PolicyRule],
    wanted: &[PolicyRule],
) -> Result<(), Memory>
    ensures { OnOk result (IsIndex (stoppers held.now wanted.now) rules.now → list.new.items ≡ list.old.items ++ missing_of held.now wanted.now) }
{
    let mut before = first_numbers(alloc, held.len())?;
    let mut grid = grid_of(alloc, rules, held, wanted)?;
    for (position, rule) in wanted.iter().enumerate() {
        let number = held.len() + position;
        push_on_resources(alloc, list, rules, &grid, before.as_slice(), rule, number)?;
        push_on_urls(alloc, list, rules, before.as_slice(), rule)?;
        set(&mut before, number)?;
        mark(alloc, &mut grid, number)?;
    }
    Ok(())
}

/// The atoms of the wanted rules, in order and each once, that no single atom of a held rule implies. If there is none, every
/// point of a resource without a slash that a wanted rule allows is allowed by a held one. Room for those of a rule is taken
/// before the first of them is made.
pub fn missing(
    alloc: Global,
    held: &[PolicyRule],
    wanted: &[PolicyRule],
) -> Result<Vec<Atom>, Memory>
    ensures exact { IfOk result (λ v. v.items ≡ missing_of held.now wanted.now) }
    ensures law { IfOk result (λ v. v.items ≡ [] → CoversAll held.now wanted.now) }
{
    let rules = rules_of(alloc, held, wanted)?;
    let mut list = Vec::new(alloc);
    push_all(alloc, &mut list, &rules, held, wanted)?;
    Ok(list)
}
