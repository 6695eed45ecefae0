ghost use Rattle.std.specs.Prelude.{◌≡◌, ◌≤◌, ℕ, [], map};
ghost use Rattle.kapi_serve.specs.Private.Clients.{freed, freed_on};
ghost use Rattle.kapi_serve.specs.Private.ServerStates.{AdvancesAfter, AdvancesFor, at, stage};
ghost use Rattle.kapi_serve.specs.Private.ClientsMatch.{IsServed, IsWithin, Settles, ClientsMatchAfter, Tends, Visits, Waits};
ghost use Rattle.kapi_serve.specs.Advances.{Advances, Serves};
ghost use Rattle.kapi_serve.specs.declared.port.PortEvent.TheVariants as happened;
ghost use Rattle.kapi_serve.specs.declared.progress.Progress.TheVariants as progress;

use crate::client::{Client, Flushed};
use crate::clients::{Clients, Pulled};
use crate::pending::Unsent;
use crate::port::{PortEvent, Ports};
use crate::progress::Progress;
use crate::publishing::Publishing;
use kapi_core::Core;
use kapi_policy::Policy;
use kapi_publishing::Desk;
use std::sync::Wait;

/// The number of bytes that are read at a time.
const READ_SIZE: usize = 65_536;

/// The connections, and what is left to be published.
#[derive(Drop)]
pub struct Server {
    clients: Clients,
    publishing: Publishing,
}

/// Serves the clients of ports until the ports have no more events: each byte read is fed to the machine, each answer
/// is sent in order, and each step that changed the policy is published before the next one is made.
pub fn serve_loop<R: Wait, P: Policy + Drop, Q: Ports>(
    rt: &R,
    core: &mut Core<P>,
    desk: &mut Desk,
    ports: &mut Q,
)
    requires { desk.old.waiting ≡ [] }
    ensures { Serves core.old core.new desk.old desk.new (Q.report ports.old) (Q.report ports.new) }
{
    let mut server = Server {
        clients: Clients::new(core.allocator()),
        publishing: Publishing::new(),
    };
    let mut buffer = [0u8; READ_SIZE];
    for _ in rt.forever() {
        match ports.next() {
            Some(event) => {
                let _rest = server.react(rt, core, desk, ports, &mut buffer, event);
            }
            None => return,
        }
    }
}

impl Server {
    /// Applies all that an event of the ports requires.
    fn react<R: Wait, P: Policy + Drop, Q: Ports>(
        &mut self,
        rt: &R,
        core: &mut Core<P>,
        desk: &mut Desk,
        ports: &mut Q,
        buffer: &mut [u8],
        event: PortEvent,
    ) -> Progress
        ensures goes { AdvancesAfter event (at core.old desk.old self.old (Q.report ports.old)) (at core.new desk.new self.new (Q.report ports.new)) }
        ensures settles { Settles core.old core.new self.old.clients self.new.clients (result ≡ progress.Still) }
        ensures woken { self.new.clients.woken ≡ core.new.store.revision }
    {
        self.publishing.retry(rt, desk);
        self.take(rt, core, desk, ports, buffer, event);
        self.clients.retry(core, ports);
        self.settle(rt, core, desk, ports)
    }

    /// Takes in an event of the ports.
    fn take<R: Wait, P: Policy + Drop, Q: Ports>(
        &mut self,
        rt: &R,
        core: &mut Core<P>,
        desk: &mut Desk,
        ports: &mut Q,
        buffer: &mut [u8],
        event: PortEvent,
    )
        ensures goes { AdvancesAfter event (at core.old desk.old self.old (Q.report ports.old)) (at core.new desk.new self.new (Q.report ports.new)) }
        ensures stands { ClientsMatchAfter core.old core.new self.old.clients self.new.clients }
        ensures writable { (slot : ℕ) → event ≡ happened.Writable slot → self.new.clients.list.items ≡ freed_on slot self.old.clients.list.items }
        ensures idle { event ≡ happened.Idle → self.new.clients.list.items ≡ map freed self.old.clients.list.items }
    {
        match event {
            PortEvent::Opened(slot, identity) => self.clients.open(core, ports, slot, identity),
            PortEvent::Readable(slot) => self.read(rt, core, desk, ports, slot, buffer),
            PortEvent::Writable(slot) => self.clients.unblock(slot),
            PortEvent::Idle => self.clients.unblock_all(),
        }
    }

    /// Reads a slot until it would block, at its end, or at the end of its connection, and settles after each piece.
    fn read<R: Wait, P: Policy + Drop, Q: Ports>(
        &mut self,
        rt: &R,
        core: &mut Core<P>,
        desk: &mut Desk,
        ports: &mut Q,
        slot: usize,
        buffer: &mut [u8],
    )
        ensures goes { Advances (at core.old desk.old self.old (Q.report ports.old)) (at core.new desk.new self.new (Q.report ports.new)) }
        ensures stands { ClientsMatchAfter core.old core.new self.old.clients self.new.clients }
    {
        for _ in rt.forever() {
            match self.clients.read_slot(core, ports, slot, buffer) {
                Pulled::Fed => {
                    let _rest = self.settle(rt, core, desk, ports);
                }
                Pulled::Stopped => return,
            }
        }
    }

    /// Goes over the connections until nothing more is done.
    fn settle<R: Wait, P: Policy + Drop, Q: Ports>(
        &mut self,
        rt: &R,
        core: &mut Core<P>,
        desk: &mut Desk,
        ports: &mut Q,
    ) -> Progress
        ensures goes { Advances (at core.old desk.old self.old (Q.report ports.old)) (at core.new desk.new self.new (Q.report ports.new)) }
        ensures settles { Settles core.old core.new self.old.clients self.new.clients (result ≡ progress.Still) }
        ensures woken { self.new.clients.woken ≡ core.new.store.revision }
    {
        for _ in rt.forever() {
            let progress = self.round(rt, core, desk, ports);
            if progress != Progress::Made {
                return progress;
            }
        }
        unreachable!()
    }

    /// Goes once over the connections at which something may be done, and then wakes those with a watch that a change
    /// may concern. One that moves up as another leaves is visited in the next round.
    fn round<R: Wait, P: Policy + Drop, Q: Ports>(
        &mut self,
        rt: &R,
        core: &mut Core<P>,
        desk: &mut Desk,
        ports: &mut Q,
    ) -> Progress
        ensures goes { Advances (at core.old desk.old self.old (Q.report ports.old)) (at core.new desk.new self.new (Q.report ports.new)) }
        ensures settles { Settles core.old core.new self.old.clients self.new.clients (result ≡ progress.Still) }
        ensures woken { self.new.clients.woken ≡ core.new.store.revision }
    {
        let mut progress = self.publishing.make_turns(rt, core, desk);
        for index in self.clients.awake.start..self.clients.awake.end {
            let passed = self
                .clients
                .pass_before(rt, core, desk, &mut self.publishing, index);
            let before = progress.and(passed);
            let visited = self.visit(rt, core, desk, ports, index);
            progress = before.and(visited);
        }
        self.clients.narrow();
        progress.and(self.clients.wake(core))
    }

    /// Writes, serves and pumps the connection at a place, if something may be done there, and makes the turns that
    /// follow.
    fn visit<R: Wait, P: Policy + Drop, Q: Ports>(
        &mut self,
        rt: &R,
        core: &mut Core<P>,
        desk: &mut Desk,
        ports: &mut Q,
        index: usize,
    ) -> Progress
        requires { IsWithin self.old.clients.awake index }
        ensures goes { Advances (at core.old desk.old self.old (Q.report ports.old)) (at core.new desk.new self.new (Q.report ports.new)) }
        ensures visits { Visits core.old core.new self.old.clients self.new.clients index (result ≡ progress.Still) }
        ensures start { self.new.clients.awake.start ≤ self.old.clients.awake.start }
        ensures end { self.new.clients.awake.end ≡ self.old.clients.awake.end }
    {
        if !self.clients.is_awake(index) {
            return Progress::Still;
        }
        let client = &mut self.clients.list[index];
        let before = client.pending.count();
        let flushed = client.flush(rt, ports);
        let unsent = &mut self.clients.unsent;
        unsent.settle(client.user, before, client.pending.count());
        if client.is_over(flushed) {
            self.clients.end(core, ports, index);
            return Progress::Made;
        }
        let answered = answer(rt, core, desk, &mut self.publishing, client, unsent);
        match flushed {
            Flushed::Sent => Progress::Made,
            Flushed::Nothing => answered,
            Flushed::Failed => answered,
        }
    }
}

/// Serves and pumps a connection, and makes the turns that follow. If too much is yet to be sent to its user, it waits.
fn answer<R: Wait, P: Policy + Drop>(
    rt: &R,
    core: &mut Core<P>,
    desk: &mut Desk,
    publishing: &mut Publishing,
    client: &mut Client,
    unsent: &mut Unsent,
) -> Progress
    ensures goes { AdvancesFor (stage core.old desk.old publishing.old) (stage core.new desk.new publishing.new) client.old client.new }
    ensures tends { Tends core.old core.new client.old client.new }
    ensures still { result ≡ progress.Still → Waits client.old client.new × IsServed client.new }
{
    if unsent.is_much(client.user) {
        return Progress::Starved;
    }
    let before = client.pending.count();
    let served = client.serve(rt, core, desk, publishing);
    let shown = client.pump(rt, core, desk, publishing);
    unsent.settle(client.user, before, client.pending.count());
    let turned = publishing.make_turns(rt, core, desk);
    served.and(shown).and(turned)
}
