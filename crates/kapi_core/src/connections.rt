ghost use Rattle.std.specs.Prelude.{◌≡◌, None, Some};
ghost use Rattle.std.specs.Ordering.{nat_cmp};
ghost use Rattle.std.specs.Map.{lookup, remove_entry, set_value};
ghost use Rattle.std.specs.BTreeMap.{is_at};
ghost use Rattle.kapi_answer.specs.declared.watch.Watching.{Watching as Watched};
ghost use Rattle.kapi_core.specs.Private.Feeds.{Feeds, passed};
ghost use Rattle.kapi_answer.specs.declared.watch.After.TheVariants as After;
ghost use Rattle.kapi_http.specs.Inbox.{after_next, next_of};
ghost use Rattle.kapi_core.specs.declared.connection.Connection.{Connection as Linked};

use crate::connection::Connection;
use kapi_answer::{After, KeptWatch};
use kapi_http::{FeedError, HttpFault, HttpRequest};
use kapi_watch::Cursor;
use std::collections::BTreeMap;

/// Takes bytes in on the connection of a number.
pub fn feed_at(
    connections: &mut BTreeMap<u64, Connection>,
    id: u64,
    piece: &[u8],
) -> Result<(), FeedError>
    ensures { Feeds connections.old.entries connections.new.entries id piece.now result }
{
    match connections.get_mut(&id) {
        Some(connection) => connection.inbox.feed(piece),
        None => Err(FeedError::Ended),
    }
}

/// Takes the first item out on the connection of a number, which shows that watch from now on, if there is one.
pub fn finish_request(
    connections: &mut BTreeMap<u64, Connection>,
    id: u64,
    item: &Result<HttpRequest, HttpFault>,
    watching: Option<KeptWatch>,
)
    requires { (c : Linked) → lookup (is_at (nat_cmp id)) connections.old.entries ≡ Some c → next_of c.inbox ≡ Some item.now }
    ensures { (c : Linked) → lookup (is_at (nat_cmp id)) connections.old.entries ≡ Some c
        → connections.new.entries ≡ set_value (is_at (nat_cmp id)) connections.old.entries (record c { inbox = after_next c.inbox item.now; watching = watching }) }
{
    if let Some(connection) = connections.get_mut(&id) {
        connection.finish(item, watching);
    }
}

/// After an event of a watch, moves the watch on to a place, or ends it, or closes the connection.
pub fn advance_watch(
    connections: &mut BTreeMap<u64, Connection>,
    id: u64,
    after: After,
    place: Cursor,
)
    ensures { (c : Linked) (w : Watched) → lookup (is_at (nat_cmp id)) connections.old.entries ≡ Some c → c.watching ≡ Some w
        → connections.new.entries ≡ passed connections.old.entries id c w after place }
{
    match after {
        After::Watches => move_at(connections, id, place),
        After::WatchEnded => unwatch_at(connections, id),
        After::Closes => close_at(connections, id),
    }
}

/// Moves the watch of the connection of a number to a place.
fn move_at(connections: &mut BTreeMap<u64, Connection>, id: u64, place: Cursor)
    ensures { (c : Linked) (w : Watched) → lookup (is_at (nat_cmp id)) connections.old.entries ≡ Some c → c.watching ≡ Some w
        → connections.new.entries ≡ passed connections.old.entries id c w After.Watches place }
{
    if let Some(connection) = connections.get_mut(&id) {
        if let Some(watching) = &mut connection.watching {
            watching.shown(place);
        }
    }
}

/// Ends the watch of the connection of a number.
fn unwatch_at(connections: &mut BTreeMap<u64, Connection>, id: u64)
    ensures { (c : Linked) → lookup (is_at (nat_cmp id)) connections.old.entries ≡ Some c
        → connections.new.entries ≡ set_value (is_at (nat_cmp id)) connections.old.entries (record c { watching = None }) }
{
    if let Some(connection) = connections.get_mut(&id) {
        connection.watching = None;
    }
}

/// Takes out the connection of a number, if there is one. It is a function of its own since only who closes needs room
/// for what is taken out.
pub fn close_at(connections: &mut BTreeMap<u64, Connection>, id: u64)
    ensures { connections.new.entries ≡ remove_entry (is_at (nat_cmp id)) connections.old.entries }
{
    drop(connections.remove(&id));
}
