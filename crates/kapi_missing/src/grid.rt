//! A bit for each atom of few entries: whether some rule meets all of them.
ghost use Rattle.std.specs.Prelude.{◌≡◌, ◌==◌, ◌&&◌, ◌||◌, ◌∷◌, ◌++◌, ◌+◌, ◌*◌, ◌/◌, ◌%◌, ◌<◌, ◌≤◌, [], ℕ, Bool, List as ListValue, nat_lt, length, take, true, Some, IfOk, IfSome, OnOk};
ghost use lib.Bits.{bit_and};
ghost use Rattle.std.specs.Int.{bit_at};
ghost use Rattle.std.specs.List.{list_all, list_any};
ghost use Rattle.kapi_missing.specs.Private.Grid.{AreAmong, AreColumns, AreFew, AreGridColumns, ArePlaced, AreResourcesMarked, AreVerbsMarked, IsGrid, IsMarked, IsPlaced, IsRowMarked, are_below, column_has, item_at, lists_at, placed_items};
ghost use Rattle.kapi_missing.specs.Private.Index.{IsIndex};
ghost use Rattle.kapi_missing.specs.Private.Left.{Sees, atoms_behind, item, items_in, left, left_atoms, resource_lists, text_in};
ghost use Rattle.kapi_missing.specs.Private.Numbers.{has_bit, has_number};
ghost use Rattle.kapi_missing.specs.Private.Once.{once};
ghost use Rattle.kapi_missing.specs.Private.Stoppers.{Stopper, meets};

use crate::index::Rules;
use crate::numbers::{common, first_numbers, is_set, no_numbers, or_at, word_at};
use crate::rows::{List, ListEntry, names, parts, row};
use crate::tree::push_atom;
use kapi_model::PolicyRule;
use kapi_rules::Atom;
use kapi_text::{Memory, Text};
use std::alloc::Global;

/// A grid has at most so many entries of each list, so the bits of all names are one word.
const PLACES: usize = 64;
/// A grid is made if its words times the rules are no more: to mark as many takes two seconds.
const STEPS: usize = 1 << 31;

/// An entry of the wanted rules, and the numbers of the rules that meet it.
#[derive(Drop)]
pub struct Column<'a> {
    pub part: ListEntry<'a>,
    pub rules: Vec<u64>,
}

/// The entries that have places.
#[derive(Drop)]
pub struct Columns<'a> {
    pub groups: Vec<Column<'a>>,
    pub resources: Vec<Column<'a>>,
    pub verbs: Vec<Column<'a>>,
    pub names: Vec<Column<'a>>,
}

/// The entries that have places, and a word for each group, resource and verb of them, with a bit for each name.
#[derive(Drop)]
pub struct Grid<'a> {
    pub columns: Columns<'a>,
    pub marks: Vec<u64>,
}

/// The rows that a rule meets, and the bits of the names.
#[derive(Drop)]
pub struct Area {
    pub rows: Vec<usize>,
    pub names: u64,
}

/// An entry of a wanted rule, and its place.
#[derive(Drop)]
pub struct Placed<'a> {
    pub part: ListEntry<'a>,
    pub place: usize,
}

/// The entries of a wanted rule, each of which has a place.
#[derive(Drop)]
pub struct PlacedRule<'a> {
    pub groups: Vec<Placed<'a>>,
    pub resources: Vec<Placed<'a>>,
    pub verbs: Vec<Placed<'a>>,
    pub names: Vec<Placed<'a>>,
    pub bits: u64,
}

fn is_same_text(one: Option<&Text>, other: Option<&Text>) -> bool
    ensures { result ≡ true → text_in one.entry ≡ text_in other.entry }
{
    match (one, other) {
        (Some(one), Some(other)) => one.as_str() == other.as_str(),
        (None, None) => true,
        _ => false,
    }
}

fn is_same(one: ListEntry<'_>, other: ListEntry<'_>) -> bool
    ensures { result ≡ true → item one.entry ≡ item other.entry }
{
    one.list == other.list && is_same_text(one.text, other.text)
}

fn place(columns: &[Column<'_>], part: ListEntry<'_>) -> Option<usize>
    ensures { IfSome result (λ p. item_at columns.now p ≡ Some (item part.entry)) }
{
    for (place, column) in columns.iter().enumerate() {
        if is_same(column.part, part) {
            return Some(place);
        }
    }
    None
}

// The entry has a column too, if it has none and there is room.
fn add_column<'a>(
    alloc: Global,
    columns: &mut Vec<Column<'a>>,
    rules: &Rules<'_>,
    everyone: &[u64],
    part: ListEntry<'a>,
) -> Result<(), Memory>
    ensures few { OnOk result (length columns.old.items ≤ 64 → length columns.new.items ≤ 64) }
    ensures columns { OnOk result ((all : ListValue Stopper) → IsIndex all rules.now → Sees all (λ s. true) everyone.now → AreColumns all columns.old.items → AreColumns all columns.new.items) }
{
    if columns.len() < PLACES && place(columns.as_slice(), part).is_none() {
        let row = row(alloc, rules, part)?;
        let rules = common(alloc, everyone, row.as_slice())?;
        columns.push(Column { part, rules })?;
    }
    Ok(())
}

fn add_columns<'a>(
    alloc: Global,
    columns: &mut Vec<Column<'a>>,
    rules: &Rules<'_>,
    everyone: &[u64],
    parts: Vec<ListEntry<'a>>,
) -> Result<(), Memory>
    ensures few { OnOk result (length columns.old.items ≤ 64 → length columns.new.items ≤ 64) }
    ensures columns { OnOk result ((all : ListValue Stopper) → IsIndex all rules.now → Sees all (λ s. true) everyone.now → AreColumns all columns.old.items → AreColumns all columns.new.items) }
{
    for part in parts {
        add_column(alloc, columns, rules, everyone, part)?;
    }
    Ok(())
}

fn add_rule<'a>(
    alloc: Global,
    columns: &mut Columns<'a>,
    rules: &Rules<'_>,
    everyone: &[u64],
    rule: &'a PolicyRule,
) -> Result<(), Memory>
    ensures few { OnOk result (AreFew columns.old → AreFew columns.new) }
    ensures columns { OnOk result ((all : ListValue Stopper) → IsIndex all rules.now → Sees all (λ s. true) everyone.now → AreGridColumns all columns.old → AreGridColumns all columns.new) }
{
    let groups = parts(alloc, List::Groups, rule.api_groups.as_slice())?;
    add_columns(alloc, &mut columns.groups, rules, everyone, groups)?;
    let resources = parts(alloc, List::Resources, rule.resources.as_slice())?;
    add_columns(alloc, &mut columns.resources, rules, everyone, resources)?;
    let verbs = parts(alloc, List::Verbs, rule.verbs.as_slice())?;
    add_columns(alloc, &mut columns.verbs, rules, everyone, verbs)?;
    let names = names(alloc, rule.resource_names.as_slice())?;
    add_columns(alloc, &mut columns.names, rules, everyone, names)
}

fn no_columns<'a>(alloc: Global) -> Columns<'a>
    ensures few { AreFew result }
    ensures columns { (all : ListValue Stopper) → AreGridColumns all result }
    ensures none { length result.groups.items ≡ 0 }
{
    Columns {
        groups: Vec::new(alloc),
        resources: Vec::new(alloc),
        verbs: Vec::new(alloc),
        names: Vec::new(alloc),
    }
}

fn columns_of<'a>(
    alloc: Global,
    rules: &Rules<'_>,
    everyone: &[u64],
    wanted: &'a [PolicyRule],
) -> Result<Columns<'a>, Memory>
    ensures few { IfOk result AreFew }
    ensures columns { IfOk result (λ c. (all : ListValue Stopper) → IsIndex all rules.now → Sees all (λ s. true) everyone.now → AreGridColumns all c) }
{
    let mut columns = no_columns(alloc);
    for rule in wanted {
        add_rule(alloc, &mut columns, rules, everyone, rule)?;
    }
    Ok(columns)
}

// The places of the entries that the rule meets.
fn met(alloc: Global, columns: &[Column<'_>], number: usize) -> Result<Vec<usize>, Memory>
    ensures those { IfOk result (λ v. (p : ℕ) → has_number v.items p ≡ column_has columns.now p number) }
    ensures bound { IfOk result (λ v. are_below (length columns.now) v.items ≡ true) }
{
    let mut places = Vec::new(alloc);
    for (place, column) in columns.iter().enumerate() {
        if is_set(column.rules.as_slice(), number) {
            places.push(place)?;
        }
    }
    Ok(places)
}

fn bits(places: &[usize]) -> u64
    requires { are_below 64 places.now ≡ true }
    ensures { (n : ℕ) → n < 64 → (bit_at result n == 1) ≡ has_number places.now n }
{
    let mut bits: u64 = 0;
    for place in places {
        bits = bits | (1 << *place);
    }
    bits
}

fn push_rows(rows: &mut Vec<usize>, first: usize, places: &[usize]) -> Result<(), Memory>
    requires first { first ≤ 262144 }
    requires places { are_below 64 places.now ≡ true }
    ensures those { OnOk result ((x : ℕ) → has_number rows.new.items x ≡ (has_number rows.old.items x || list_any (λ p. (first + p) == x) places.now)) }
    ensures bound { OnOk result ((b : ℕ) → are_below b rows.old.items ≡ true → list_all (λ p. nat_lt (first + p) b) places.now ≡ true → are_below b rows.new.items ≡ true) }
{
    for place in places {
        rows.push(first + *place)?;
    }
    Ok(())
}

// The rows of each of the rows, one for each place.
fn rows_below(
    alloc: Global,
    rows: &[usize],
    size: usize,
    places: &[usize],
) -> Result<Vec<usize>, Memory>
    requires rows { are_below 4096 rows.now ≡ true }
    requires size { size ≤ 64 }
    requires places { are_below size places.now ≡ true }
    ensures those { IfOk result (λ v. (p q : ℕ) → q < size → has_number v.items (p * size + q) ≡ (has_number rows.now p && has_number places.now q)) }
    ensures bound { IfOk result (λ v. (b : ℕ) → are_below b rows.now ≡ true → are_below (b * size) v.items ≡ true) }
{
    let mut below = Vec::new(alloc);
    for row in rows {
        push_rows(&mut below, *row * size, places)?;
    }
    Ok(below)
}

// The rows and names that the rule meets.
fn area_of(alloc: Global, grid: &Grid<'_>, number: usize) -> Result<Area, Memory>
    requires { IsGrid grid.now }
    ensures bound { IfOk result (λ a. are_below (length grid.now.marks.items) a.rows.items ≡ true) }
    ensures rows { IfOk result (λ a. (g r v : ℕ) → r < length grid.now.columns.resources.items → v < length grid.now.columns.verbs.items
        → has_number a.rows.items ((g * length grid.now.columns.resources.items + r) * length grid.now.columns.verbs.items + v)
        ≡ ((column_has grid.now.columns.groups.items g number && column_has grid.now.columns.resources.items r number) && column_has grid.now.columns.verbs.items v number)) }
    ensures names { IfOk result (λ a. (n : ℕ) → n < 64 → (bit_at a.names n == 1) ≡ column_has grid.now.columns.names.items n number) }
{
    let columns = &grid.columns;
    let groups = met(alloc, columns.groups.as_slice(), number)?;
    let resources = met(alloc, columns.resources.as_slice(), number)?;
    let verbs = met(alloc, columns.verbs.as_slice(), number)?;
    let names = met(alloc, columns.names.as_slice(), number)?;
    let rows = rows_below(
        alloc,
        groups.as_slice(),
        columns.resources.len(),
        resources.as_slice(),
    )?;
    let rows = rows_below(
        alloc,
        rows.as_slice(),
        columns.verbs.len(),
        verbs.as_slice(),
    )?;
    Ok(Area {
        rows,
        names: bits(names.as_slice()),
    })
}

fn mark_rows(marks: &mut Vec<u64>, rows: &[usize], names: u64)
    requires { are_below (length marks.old.items) rows.now ≡ true }
    ensures long { length marks.new.items ≡ length marks.old.items }
    ensures bits { (n : ℕ) → has_bit marks.new.items n ≡ (has_bit marks.old.items n || (has_number rows.now (n / 64) && (bit_at names (n % 64) == 1))) }
{
    for row in rows {
        or_at(marks, *row, names);
    }
}

/// Sets the bits of what the rule meets.
pub fn mark(alloc: Global, grid: &mut Grid<'_>, number: usize) -> Result<(), Memory>
    requires { IsGrid grid.old }
    ensures columns { OnOk result (grid.new.columns ≡ grid.old.columns) }
    ensures grid { OnOk result (IsGrid grid.new) }
    ensures marks { OnOk result ((before others : ListValue Stopper) (s : Stopper) → number ≡ length before → AreGridColumns (before ++ s ∷ others) grid.old.columns
        → IsMarked before grid.old.columns grid.old.marks.items → IsMarked (before ++ s ∷ []) grid.new.columns grid.new.marks.items) }
{
    let area = area_of(alloc, grid, number)?;
    mark_rows(&mut grid.marks, area.rows.as_slice(), area.names);
    Ok(())
}

fn places<'a>(
    alloc: Global,
    columns: &[Column<'_>],
    parts: Vec<ListEntry<'a>>,
) -> Result<Option<Vec<Placed<'a>>>, Memory>
    ensures items { IfOk result (λ o. IfSome o (λ v. placed_items v.items ≡ items_in parts.entry.items)) }
    ensures places { IfOk result (λ o. IfSome o (λ v. ArePlaced columns.now v.items)) }
{
    let mut entries = Vec::new(alloc);
    for part in parts {
        match place(columns, part) {
            Some(place) => entries.push(Placed { part, place })?,
            None => return Ok(None),
        }
    }
    Ok(Some(entries))
}

fn bits_of(names: &[Placed<'_>]) -> u64
    ensures { AreAmong result names.now }
{
    let mut bits: u64 = 0;
    for name in names {
        bits = bits | (1 << (name.place % 64));
    }
    bits
}

/// The places of the rule's entries, if each has one.
pub fn placed_rule<'a>(
    alloc: Global,
    columns: &Columns<'_>,
    rule: &'a PolicyRule,
) -> Result<Option<PlacedRule<'a>>, Memory>
    ensures lists { IfOk result (λ o. IfSome o (λ p. lists_at p ≡ resource_lists (once rule.now))) }
    ensures places { IfOk result (λ o. IfSome o (IsPlaced columns.now)) }
{
    let groups = parts(alloc, List::Groups, rule.api_groups.as_slice())?;
    let resources = parts(alloc, List::Resources, rule.resources.as_slice())?;
    let verbs = parts(alloc, List::Verbs, rule.verbs.as_slice())?;
    let names = names(alloc, rule.resource_names.as_slice())?;
    let Some(groups) = places(alloc, columns.groups.as_slice(), groups)? else {
        return Ok(None);
    };
    let Some(resources) = places(alloc, columns.resources.as_slice(), resources)? else {
        return Ok(None);
    };
    let Some(verbs) = places(alloc, columns.verbs.as_slice(), verbs)? else {
        return Ok(None);
    };
    let Some(names) = places(alloc, columns.names.as_slice(), names)? else {
        return Ok(None);
    };
    let bits = bits_of(names.as_slice());
    Ok(Some(PlacedRule {
        groups,
        resources,
        verbs,
        names,
        bits,
    }))
}

/// How many atoms of what the rule meets have no bit yet.
pub fn count_unmarked(alloc: Global, grid: &Grid<'_>, number: usize) -> Result<usize, Memory>
    requires { IsGrid grid.now }
{
    let area = area_of(alloc, grid, number)?;
    let mut count: usize = 0;
    for row in area.rows {
        let unmarked = area.names & !word_at(grid.marks.as_slice(), row);
        count = count.saturating_add(unmarked.count_ones() as usize);
    }
    Ok(count)
}

fn is_marked(word: u64, place: usize) -> bool
    requires { place < 64 }
    ensures { result ≡ (bit_at word place == 1) }
{
    (word >> place) & 1 == 1
}

// The atom of the entries, unless its bit is set.
fn push_name(
    alloc: Global,
    list: &mut Vec<Atom>,
    word: u64,
    group: ListEntry<'_>,
    resource: ListEntry<'_>,
    verb: ListEntry<'_>,
    name: &Placed<'_>,
) -> Result<(), Memory>
    requires { name.now.place < 64 }
    ensures { OnOk result ((all : ListValue Stopper) (test : Stopper → Bool) → (bit_at word name.now.place == 1) ≡ list_any (λ s. test s && meets (item name.now.part) s) all
        → list.new.items ≡ list.old.items ++ atoms_behind (item group.entry ∷ item resource.entry ∷ item verb.entry ∷ item name.now.part ∷ []) (left all (λ s. test s && meets (item name.now.part) s) [])) }
{
    if is_marked(word, name.place) {
        return Ok(());
    }
    push_atom(alloc, list, &[group, resource, verb, name.part])
}

fn has_all(word: u64, bits: u64) -> bool
    ensures { result ≡ true → bit_and word bits ≡ bits }
{
    word & bits == bits
}

// Most rows of dense rules have all bits, so no name of these is looked at.
fn push_names(
    alloc: Global,
    list: &mut Vec<Atom>,
    columns: &Columns<'_>,
    word: u64,
    group: ListEntry<'_>,
    resource: ListEntry<'_>,
    verb: ListEntry<'_>,
    names: &[Placed<'_>],
    bits: u64,
) -> Result<(), Memory>
    requires few { AreFew columns.now }
    requires bits { AreAmong bits names.now }
    requires places { ArePlaced columns.now.names.items names.now }
    ensures { OnOk result ((all : ListValue Stopper) (test : Stopper → Bool) → IsRowMarked all test columns.now.names.items word
        → list.new.items ≡ list.old.items ++ atoms_behind (item group.entry ∷ item resource.entry ∷ item verb.entry ∷ []) (left all test (placed_items names.now ∷ []))) }
{
    if has_all(word, bits) {
        return Ok(());
    }
    for name in names {
        push_name(alloc, list, word, group, resource, verb, name)?;
    }
    Ok(())
}

fn push_verbs(
    alloc: Global,
    list: &mut Vec<Atom>,
    grid: &Grid<'_>,
    first: usize,
    group: ListEntry<'_>,
    resource: ListEntry<'_>,
    rule: &PlacedRule<'_>,
) -> Result<(), Memory>
    requires grid { IsGrid grid.now }
    requires places { IsPlaced grid.now.columns rule.now }
    requires first { first ≤ 262144 }
    ensures { OnOk result ((all : ListValue Stopper) (test : Stopper → Bool) → AreVerbsMarked all test grid.now.columns grid.now.marks.items first
        → list.new.items ≡ list.old.items ++ atoms_behind (item group.entry ∷ item resource.entry ∷ []) (left all test (placed_items rule.now.verbs.items ∷ placed_items rule.now.names.items ∷ []))) }
{
    let columns = &grid.columns;
    let names = rule.names.as_slice();
    for verb in rule.verbs.as_slice() {
        let word = word_at(grid.marks.as_slice(), first + verb.place);
        push_names(
            alloc, list, columns, word, group, resource, verb.part, names, rule.bits,
        )?;
    }
    Ok(())
}

fn push_resources(
    alloc: Global,
    list: &mut Vec<Atom>,
    grid: &Grid<'_>,
    first: usize,
    group: ListEntry<'_>,
    rule: &PlacedRule<'_>,
) -> Result<(), Memory>
    requires grid { IsGrid grid.now }
    requires places { IsPlaced grid.now.columns rule.now }
    requires first { first ≤ 4032 }
    ensures { OnOk result ((all : ListValue Stopper) (test : Stopper → Bool) → AreResourcesMarked all test grid.now.columns grid.now.marks.items first
        → list.new.items ≡ list.old.items ++ atoms_behind (item group.entry ∷ []) (left all test (placed_items rule.now.resources.items ∷ placed_items rule.now.verbs.items ∷ placed_items rule.now.names.items ∷ []))) }
{
    for resource in rule.resources.as_slice() {
        let row = (first + resource.place) * grid.columns.verbs.len();
        push_verbs(alloc, list, grid, row, group, resource.part, rule)?;
    }
    Ok(())
}

/// The atoms of the rule whose bits are not set.
pub fn push_unmarked(
    alloc: Global,
    list: &mut Vec<Atom>,
    grid: &Grid<'_>,
    rule: &PlacedRule<'_>,
) -> Result<(), Memory>
    requires grid { IsGrid grid.now }
    requires places { IsPlaced grid.now.columns rule.now }
    ensures { OnOk result ((all : ListValue Stopper) → IsMarked all grid.now.columns grid.now.marks.items → list.new.items ≡ list.old.items ++ left_atoms all (lists_at rule.now)) }
{
    for group in rule.groups.as_slice() {
        let row = group.place * grid.columns.resources.len();
        push_resources(alloc, list, grid, row, group.part, rule)?;
    }
    Ok(())
}

fn no_grid<'a>(alloc: Global) -> Grid<'a>
    ensures grid { IsGrid result }
    ensures columns { (all : ListValue Stopper) → AreGridColumns all result.columns }
    ensures marks { (all : ListValue Stopper) → IsMarked all result.columns result.marks.items }
{
    Grid {
        columns: no_columns(alloc),
        marks: Vec::new(alloc),
    }
}

// The columns with no bit set, if they are few enough.
fn unmarked<'a>(alloc: Global, columns: Columns<'a>, rules: usize) -> Result<Grid<'a>, Memory>
    requires { AreFew columns }
    ensures grid { IfOk result IsGrid }
    ensures columns { IfOk result (λ g. (all : ListValue Stopper) → AreGridColumns all columns.entry → AreGridColumns all g.columns) }
    ensures marks { IfOk result (λ g. IsMarked [] g.columns g.marks.items) }
{
    let rows = columns.groups.len() * columns.resources.len() * columns.verbs.len();
    if rows.saturating_mul(rules) > STEPS {
        return Ok(no_grid(alloc));
    }
    let marks = no_numbers(alloc, rows)?;
    Ok(Grid { columns, marks })
}

/// The grid of the entries of the wanted rules, with the bits of the held ones, which have the first numbers.
pub fn grid_of<'a>(
    alloc: Global,
    rules: &Rules<'_>,
    held: &[PolicyRule],
    wanted: &'a [PolicyRule],
) -> Result<Grid<'a>, Memory>
    ensures grid { IfOk result IsGrid }
    ensures columns { IfOk result (λ g. (all : ListValue Stopper) → IsIndex all rules.now → length all ≡ length held.now + length wanted.now → AreGridColumns all g.columns) }
    ensures marks { IfOk result (λ g. (all : ListValue Stopper) → IsIndex all rules.now → length all ≡ length held.now + length wanted.now → IsMarked (take (length held.now) all) g.columns g.marks.items) }
{
    let all = held.len() + wanted.len();
    let everyone = first_numbers(alloc, all)?;
    let columns = columns_of(alloc, rules, everyone.as_slice(), wanted)?;
    let mut grid = unmarked(alloc, columns, all)?;
    for number in 0..held.len() {
        mark(alloc, &mut grid, number)?;
    }
    Ok(grid)
}
