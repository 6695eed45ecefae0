//! Which aggregated cluster roles may differ from their unions.
ghost use Rattle.std.specs.Prelude.{◌≡◌, map, IfOk, OnOk, option_copied, option_map};
ghost use Rattle.std.specs.Cmp.Lexicographic.{slice_cmp};
ghost use Rattle.std.specs.List.{list_any};
ghost use Rattle.std.specs.Ordering.{is_le, nat_cmp};
ghost use Rattle.kapi_store.specs.Stored.{stored_tree};
ghost use Rattle.kapi_store.specs.Plain.{plain_change, plain_of};
ghost use Rattle.kapi_aggregation.specs.Marks.{Keeps, mark_all, mark_change, mark_changed, mark_object, keys_if, mark_takers, marks_from, rule_left, turn_given};
ghost use Rattle.kapi_aggregation.specs.Roles.{is_cluster_role as is_cluster_role_key, labels_in, takes_from as takes_from_labels};
ghost use Rattle.kapi_aggregation.specs.Views.{labelled};

use crate::roles::{ClusterRoles, NamedRole, is_cluster_role, role_named, roles_named};
use crate::takers::{Taker, givers_of, names_for, put_left, put_name, put_selectors, takers_of};
use crate::turn::{Turn, turn_at, turn_in};
use kapi_model::AggregationRule;
use kapi_store::{Change, Store, StoredObject};
use kapi_text::{Memory, Text};
use std::alloc::Global;
use std::collections::BTreeSet;
use std::marker::Model;
use std::mem::replace;

/// Up to this many takers and givers, at the least, outdated ones are kept.
const ROOM: usize = 64;

/// The names of the cluster roles that may differ from their unions, and of the aggregated ones.
#[derive(Drop)]
pub struct Tracker {
    alloc: Global,
    marks: BTreeSet<Text>,
    /// The aggregated cluster roles by the labels that they ask for; may include outdated entries.
    takers: BTreeSet<Taker>,
    /// The cluster roles by the labels that they have; may include outdated entries. `None` before the first turn.
    givers: Option<BTreeSet<Taker>>,
    /// With more takers and givers than this, outdated ones are forgotten.
    room: usize,
}

impl Model for Tracker {
    ghost use Rattle.kapi_aggregation.specs.Marks.{Tracked, keys_if};

    ghost Value = { Tracked };

    ghost view = { λ t. record { marks = t.marks.keys; takers = t.takers.keys; givers = keys_if t.givers } };
}

/// Whether the role takes rules from the object, by its labels.
fn takes_from(role: &NamedRole<'_>, object: &StoredObject) -> bool
    ensures { result ≡ takes_from_labels (labelled role.now) (labels_in (stored_tree object.now)) }
{
    role.selectors()
        .iter()
        .any(|selector| object.is_selected(selector))
}

/// Whether a name is another one, or before it.
fn is_up_to(name: &Text, other: &Text) -> bool
    ensures { result ≡ is_le (slice_cmp nat_cmp name.now other.now) }
{
    name.as_str() <= other.as_str()
}

/// Drops the names before this one, and touches no others, unless there is no memory for the cut.
fn drop_before(names: &mut BTreeSet<Text>, first: &Text)
    ensures { names.new.keys ≡ marks_from names.old.keys first.now }
{
    match names.split_off(first) {
        Ok(rest) => *names = rest,
        Err(_refused) => names.retain(|name| is_up_to(first, name)),
    }
}

/// Whether some of the changes is of a cluster role.
fn are_of_roles(changes: &[Change]) -> bool
    ensures { result ≡ list_any (λ c. is_cluster_role_key c.key) changes.now }
{
    changes.iter().any(|change| is_cluster_role(&change.key))
}

/// Marks the roles that take rules from the object, by its labels.
#[tactic(auto, unfolding(crate::specs::Marks::mark_takers))]
fn mark_by_labels(
    alloc: Global,
    marks: &mut BTreeSet<Text>,
    roles: &[NamedRole<'_>],
    object: &StoredObject,
) -> Result<(), Memory>
    ensures marked { OnOk result (marks.new.keys ≡ mark_takers (map labelled roles.now) marks.old.keys (labels_in (stored_tree object.now))) }
    ensures kept { Keeps marks.old.keys marks.new.keys }
{
    for role in roles {
        if takes_from(role, object) {
            put_name(alloc, marks, role.name)?;
        }
    }
    Ok(())
}

/// Marks the roles that take rules from the object, if there is one. Of the others, those alone are read that may.
fn mark_by_object(
    alloc: Global,
    marks: &mut BTreeSet<Text>,
    takers: &BTreeSet<Taker>,
    store: &Store,
    object: Option<&StoredObject>,
) -> Result<(), Memory>
    ensures marked { OnOk result (marks.new.keys ≡ mark_object (plain_of store.now).objects takers.now.keys marks.old.keys (option_map (λ o. stored_tree o.now) object.entry)) }
    ensures kept { Keeps marks.old.keys marks.new.keys }
{
    match object {
        Some(object) => {
            let names = names_for(alloc, takers, object)?;
            let roles = roles_named(alloc, store, &names)?;
            mark_by_labels(alloc, marks, roles.as_slice(), object)
        }
        None => Ok(()),
    }
}

/// What a change leaves, if anything.
fn left_object(change: &Change) -> Option<&StoredObject>
    ensures { option_map (λ o. stored_tree o.now) result ≡ (plain_change change.now).new }
{
    match &change.new {
        Some(object) => Some(object.get()),
        None => None,
    }
}

/// The rule of the aggregated cluster role that a change leaves, if it leaves one.
fn left_rule(change: &Change) -> Option<&AggregationRule>
    ensures { option_copied result ≡ rule_left (plain_change change.now) }
{
    match &change.new {
        Some(object) if is_cluster_role(&change.key) => object.get().aggregation_rule(),
        _none => None,
    }
}

/// Marks the roles that take rules from a changed one, as it is in the store or as the change leaves it.
#[tactic(auto, unfolding(crate::specs::Marks::mark_changed))]
fn mark_by_change(
    alloc: Global,
    marks: &mut BTreeSet<Text>,
    takers: &BTreeSet<Taker>,
    store: &Store,
    change: &Change,
) -> Result<(), Memory>
    ensures marked { OnOk result (marks.new.keys ≡ mark_changed (plain_of store.now).objects takers.now.keys marks.old.keys (plain_change change.now)) }
    ensures kept { Keeps marks.old.keys marks.new.keys }
{
    mark_by_object(alloc, marks, takers, store, store.get(&change.key))?;
    mark_by_object(alloc, marks, takers, store, left_object(change))
}

/// Marks the roles that take rules from a changed one, if the change is of a cluster role.
fn mark_if_role(
    alloc: Global,
    marks: &mut BTreeSet<Text>,
    takers: &BTreeSet<Taker>,
    store: &Store,
    change: &Change,
) -> Result<(), Memory>
    ensures marked { OnOk result (marks.new.keys ≡ mark_change (plain_of store.now).objects takers.now.keys marks.old.keys (plain_change change.now)) }
    ensures kept { Keeps marks.old.keys marks.new.keys }
{
    if is_cluster_role(&change.key) {
        mark_by_change(alloc, marks, takers, store, change)
    } else {
        Ok(())
    }
}

/// Marks the roles that take rules from the changed cluster roles.
fn mark_by_changes(
    alloc: Global,
    marks: &mut BTreeSet<Text>,
    takers: &BTreeSet<Taker>,
    store: &Store,
    changes: &[Change],
) -> Result<(), Memory>
    ensures marked { OnOk result (marks.new.keys ≡ mark_all (plain_of store.now).objects takers.now.keys marks.old.keys (map plain_change changes.now)) }
    ensures kept { Keeps marks.old.keys marks.new.keys }
{
    for change in changes {
        mark_if_role(alloc, marks, takers, store, change)?;
    }
    Ok(())
}

/// What the cluster role of the name is to become, where it is there and differs from its union by the givers.
fn turn_named(
    alloc: Global,
    store: &Store,
    givers: &Option<BTreeSet<Taker>>,
    name: &Text,
) -> Result<Option<Turn>, Memory>
    ensures { IfOk result (λ t. t ≡ turn_given (plain_of store.now).objects (keys_if givers.now) name.now) }
{
    match role_named(alloc, store, name)? {
        Some(role) => turn_in(alloc, store, givers, &role),
        None => Ok(None),
    }
}

impl Tracker {
    ghost use Rattle.std.specs.Cmp.Lexicographic.{slice_cmp};
    ghost use Rattle.std.specs.List.Sorted.{IsStrictlySortedBy};
    ghost use Rattle.std.specs.Ordering.{nat_cmp};
    ghost use Rattle.std.specs.Prelude.{◌≡◌, ◌==◌, List, [], length, map, not, None, IfOk, OnOk, OnErr};
    ghost use Rattle.kapi_store.specs.Changes.{placed_all};
    ghost use Rattle.kapi_store.specs.Plain.{plain_change, plain_of, trees_left_by};
    ghost use Rattle.kapi_aggregation.specs.Roles.{Labelled, roles_in};
    ghost use Rattle.kapi_aggregation.specs.Turns.{first_some, next as next_of};
    ghost use Rattle.kapi_aggregation.specs.Marks.{Covers, CoversAsMuch, KeepsAll, NoneAggregated, learn, learned, left_by, marks_after, givers_after, noted, turn_given, turn_if_marked as turn_of_marked};
    ghost use Rattle.kapi_aggregation.specs.Lent.{roles_of};
    ghost use Rattle.kapi_aggregation.specs.Views.{labelled};

    /// A tracker without names, as for a store without aggregated cluster roles.
    #[tactic(auto, using(crate::proofs::Unmoved::none_covered))]
    pub fn new(alloc: Global) -> Tracker
        ensures no_marks { result.marks ≡ [] }
        ensures no_takers { result.takers ≡ [] }
        ensures covers { (roles : List Labelled) → NoneAggregated roles → Covers result roles }
    {
        Tracker {
            alloc,
            marks: BTreeSet::new(alloc),
            takers: BTreeSet::new(alloc),
            givers: None,
            room: ROOM,
        }
    }

    /// Marks what some changes of the store affect, before they are made: the aggregated cluster roles they write, and
    /// the roles that take rules from a changed cluster role, as it is before or after the change. If no change is of
    /// a cluster role, nothing is read.
    ///
    /// Names already kept stay, also if an allocation fails, so changes which are not made do no harm.
    pub fn note_write(&mut self, store: &Store, changes: &[Change]) -> Result<(), Memory>
        // what was covered is covered still, and so are the roles after the changes
        ensures covers { CoversAsMuch self.old self.new }
        ensures covers_after { OnOk result (Covers self.old (roles_in (plain_of store.now).objects)
            → Covers self.new (roles_in (placed_all (trees_left_by (map plain_change changes.now)) (plain_of store.now).objects))) }
    {
        if !are_of_roles(changes) {
            return Ok(());
        }
        let _revision = store.revision();
        self.note(store, changes)?;
        Ok(())
    }

    /// Notes changes among which some are of cluster roles.
    #[tactic(auto, unfolding(crate::specs::Marks::noted))]
    fn note(&mut self, store: &Store, changes: &[Change]) -> Result<(), Memory>
        ensures noted { OnOk result (self.new ≡ noted (plain_of store.now).objects self.old (map plain_change changes.now)) }
        ensures kept { KeepsAll self.old self.new }
    {
        self.learn_all(changes)?;
        self.learn_labels(changes)?;
        mark_by_changes(self.alloc, &mut self.marks, &self.takers, store, changes)
    }

    /// Keeps and marks the aggregated cluster roles that the changes leave.
    fn learn_all(&mut self, changes: &[Change]) -> Result<(), Memory>
        ensures learned { OnOk result (self.new ≡ learned self.old (map plain_change changes.now)) }
        ensures kept { KeepsAll self.old self.new }
    {
        for change in changes {
            self.learn(change)?;
        }
        Ok(())
    }

    /// Keeps what the changes leave, by its labels, if givers are known.
    fn learn_labels(&mut self, changes: &[Change]) -> Result<(), Memory>
        ensures learned { OnOk result (self.new ≡ record self.old { givers = givers_after self.old.givers (map plain_change changes.now) }) }
        ensures kept { KeepsAll self.old self.new }
    {
        match &mut self.givers {
            Some(givers) => put_left(self.alloc, givers, changes),
            None => Ok(()),
        }
    }

    fn learn(&mut self, change: &Change) -> Result<(), Memory>
        ensures learned { OnOk result (self.new ≡ learn self.old (plain_change change.now)) }
        ensures kept { KeepsAll self.old self.new }
    {
        let Some(rule) = left_rule(change) else {
            return Ok(());
        };
        let name = &change.key.name;
        put_name(self.alloc, &mut self.marks, name)?;
        let selectors = rule.cluster_role_selectors.as_slice();
        put_selectors(self.alloc, &mut self.takers, name, selectors)
    }

    /// The aggregated cluster role of least name that differs from its union, with its union; none where none differs.
    ///
    /// Reads marked roles alone, in the order of their names. The marks before the returned role are dropped, and all
    /// if none is returned. If an allocation fails none is dropped.
    #[tactic(auto, using(crate::proofs::Turning::found_where_covered, crate::proofs::Turning::none_unmarked, crate::proofs::Turning::next_covers))]
    pub fn next(&mut self, roles: &ClusterRoles<'_>) -> Result<Option<Turn>, Memory>
        ensures turn { IfOk result (λ t. t ≡ first_some (turn_of_marked self.old.marks (roles_of roles.now)) (roles_of roles.now)) }
        ensures left { IfOk result (λ t. self.new ≡ left_by self.old (roles_of roles.now) t) }
        ensures refused { OnErr result (self.new ≡ self.old) }

        // the returned turn is due, and nothing else that is due is forgotten
        ensures exact { IfOk result (λ t. Covers self.old (roles_of roles.now) → t ≡ next_of (roles_of roles.now)) }
        ensures covers { Covers self.old (roles_of roles.now) → Covers self.new (roles_of roles.now) }
        ensures unmarked { IfOk result (λ t. self.old.marks ≡ [] → t ≡ None) }
    {
        let turn = self.first_turn(roles.as_slice())?;
        self.keep_marks_after(&turn);
        Ok(turn)
    }

    /// The next turn for the cluster roles of the store. Where no role is marked, nothing is read; else the marked ones
    /// are, in the order of their names, and what they take rules from.
    #[tactic(auto, using(crate::proofs::Giving::given_next))]
    pub fn next_turn(&mut self, store: &Store) -> Result<Option<Turn>, Memory>
        ensures exact { IfOk result (λ t. Covers self.old (roles_in (plain_of store.now).objects) → t ≡ next_of (roles_in (plain_of store.now).objects)) }
        ensures covers { Covers self.old (roles_in (plain_of store.now).objects) → Covers self.new (roles_in (plain_of store.now).objects) }
    {
        if !self.has_marks() {
            return Ok(None);
        }
        let _revision = store.revision();
        self.learn_anew(store)?;
        let turn = self.first_in(store)?;
        self.keep_marks_after(&turn);
        Ok(turn)
    }

    /// Keeps those takers and givers alone that are there, if many are kept or givers are not known. It is done once in
    /// so many writes that the walk over all cluster roles counts for nothing.
    #[tactic(auto, using(crate::proofs::Giving::anew_covers))]
    fn learn_anew(&mut self, store: &Store) -> Result<(), Memory>
        ensures marks { self.new.marks ≡ self.old.marks }
        ensures covers { Covers self.old (roles_in (plain_of store.now).objects) → Covers self.new (roles_in (plain_of store.now).objects) }
    {
        if !self.is_stale() {
            return Ok(());
        }
        let _revision = store.revision();
        let roles = ClusterRoles::read(self.alloc, store)?;
        let takers = takers_of(self.alloc, roles.as_slice())?;
        let givers = givers_of(self.alloc, roles.as_slice())?;
        let count = takers.len().saturating_add(givers.len());
        self.room = count.saturating_mul(2).saturating_add(ROOM);
        self.takers = takers;
        drop(replace(&mut self.givers, Some(givers)));
        Ok(())
    }

    /// Whether many takers and givers are kept, or givers are not known.
    fn is_stale(&self) -> bool {
        match &self.givers {
            Some(givers) => self.takers.len().saturating_add(givers.len()) > self.room,
            None => true,
        }
    }

    /// What the first marked role that differs from its union is to become. Other roles are read for its union alone.
    fn first_in(&self, store: &Store) -> Result<Option<Turn>, Memory>
        ensures first { IfOk result (λ t. t ≡ first_some (turn_given (plain_of store.now).objects self.now.givers) self.now.marks) }
        ensures ordered { IsStrictlySortedBy (slice_cmp nat_cmp) self.now.marks }
    {
        let _count = self.marks.len();
        for name in &self.marks {
            let turn = turn_named(self.alloc, store, &self.givers, name)?;
            if turn.is_some() {
                return Ok(turn);
            }
        }
        Ok(None)
    }

    /// Whether some cluster role is marked.
    pub fn has_marks(&self) -> bool
        ensures { result ≡ not (length self.now.marks == 0) }
    {
        !self.marks.is_empty()
    }

    /// What the first marked role that differs from its union is to become.
    fn first_turn(&self, roles: &[NamedRole<'_>]) -> Result<Option<Turn>, Memory>
        ensures { IfOk result (λ t. t ≡ first_some (turn_of_marked self.now.marks (map labelled roles.now)) (map labelled roles.now)) }
    {
        for role in roles {
            let turn = self.turn_if_marked(roles, role)?;
            if turn.is_some() {
                return Ok(turn);
            }
        }
        Ok(None)
    }

    fn turn_if_marked(
        &self,
        roles: &[NamedRole<'_>],
        role: &NamedRole<'_>,
    ) -> Result<Option<Turn>, Memory>
        ensures { IfOk result (λ t. t ≡ turn_of_marked self.now.marks (map labelled roles.now) (labelled role.now)) }
    {
        if self.marks.contains(role.name) {
            turn_at(self.alloc, roles, role)
        } else {
            Ok(None)
        }
    }

    /// Keeps the marks that are needed after a turn.
    fn keep_marks_after(&mut self, turn: &Option<Turn>)
        ensures marks { self.new.marks ≡ marks_after self.old.marks turn.now }
        ensures takers { self.new.takers ≡ self.old.takers }
        ensures givers { self.new.givers ≡ self.old.givers }
    {
        match turn {
            Some(turn) => drop_before(&mut self.marks, &turn.name),
            None => self.marks.clear(),
        }
    }
}
