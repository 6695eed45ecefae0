//! Ways in the order in which they are found, of each user and group the first.
ghost use Rattle.std.specs.Prelude.{◌≡◌, ◌&&◌, ◌||◌, ℕ, List, [], map, not, IfOk, OnErr, OnOk};
ghost use Rattle.std.specs.Str.{bytes_eq};
ghost use Rattle.kapi_access.specs.Noted.{is_noted};
ghost use Rattle.kapi_access.specs.Views.{way_of};
ghost use Rattle.kapi_access.specs.Who.{same_grantee, with_way, within as within_of};
ghost use Rattle.kapi_access.specs.declared.grantee.Grantee.{Grantee as Named};

use crate::dangling::place_at;
use crate::grantee::Grantee;
use crate::way::Way;
use kapi_policy::NamespacedName;
use kapi_text::Memory;
use std::alloc::Global;
use std::collections::BTreeSet;
use std::marker::Model;

/// How often a user or group is listed.
#[derive(Clone, Copy, PartialEq, Eq)]
pub enum Listed {
    /// Once, by its first way of all.
    Once,
    /// Once in each scope, by its first way there.
    InEachScope,
}

fn within<'a>(listed: Listed, way: &Way<'a>) -> &'a str
    ensures { result.now ≡ within_of listed (way_of way.now) }
{
    match listed {
        Listed::Once => "",
        Listed::InEachScope => way.binding.namespace,
    }
}

// Puts the grantee into its set. Answers whether it is new there.
fn note(
    alloc: Global,
    users: &mut BTreeSet<NamespacedName>,
    groups: &mut BTreeSet<NamespacedName>,
    there: &str,
    to: &Grantee,
) -> Result<bool, Memory>
    ensures new { IfOk result (λ b. b ≡ not (is_noted users.old groups.old there.now to.now)) }
    ensures noted { OnOk result ((n : List ℕ) (g : Named) → is_noted users.new groups.new n g ≡ ((bytes_eq n there.now && same_grantee g to.now) || is_noted users.old groups.old n g)) }
    ensures kept { OnErr result ((n : List ℕ) (g : Named) → is_noted users.new groups.new n g ≡ is_noted users.old groups.old n g) }
{
    match to {
        Grantee::User(name) => Ok(users.insert(place_at(alloc, there, name)?)?),
        Grantee::Group(name) => Ok(groups.insert(place_at(alloc, there, name)?)?),
    }
}

/// Ways in the order in which they are found, of each user and group the first, of all or in each scope. Two sets have their names
/// too, so that none is looked for by a walk over the list.
#[derive(Drop)]
pub struct FirstWays<'a> {
    listed: Listed,
    list: Vec<Way<'a>>,
    users: BTreeSet<NamespacedName>,
    groups: BTreeSet<NamespacedName>,
}

impl<'a> Model for FirstWays<'a> {
    ghost use Rattle.std.specs.Prelude.{map};
    ghost use Rattle.kapi_access.specs.Noted.{HaveThose};
    ghost use Rattle.kapi_access.specs.Views.{way_of};
    ghost use Rattle.kapi_access.specs.Who.{FoundWays};

    ghost Value = { FoundWays };

    ghost view = { λ f. record { listed = f.listed; list = map way_of f.list.items } };

    ghost invariant = { λ f. HaveThose f.users f.groups (record { listed = f.listed; list = map way_of f.list.items }) };
}

impl<'a> FirstWays<'a> {
    /// No way.
    pub fn new(alloc: Global, listed: Listed) -> FirstWays<'a>
        ensures { result ≡ record { listed = listed; list = [] } }
    {
        FirstWays {
            listed,
            list: Vec::new(alloc),
            users: BTreeSet::new(alloc),
            groups: BTreeSet::new(alloc),
        }
    }

    /// Puts the way at the end, unless there is one of its grantee, or one in its scope.
    pub fn add(&mut self, alloc: Global, way: Way<'a>) -> Result<(), Memory>
        ensures { OnOk result (self.new ≡ with_way self.old (way_of way.entry)) }
    {
        self.list.reserve(1)?;
        let there = within(self.listed, &way);
        if note(alloc, &mut self.users, &mut self.groups, there, &way.to)? {
            self.list.push_reserved(way);
        }
        Ok(())
    }

    /// The ways, in their order; takes no memory.
    pub fn into_vec(self) -> Vec<Way<'a>>
        ensures { map way_of result.items ≡ self.entry.list }
    {
        self.list
    }
}
