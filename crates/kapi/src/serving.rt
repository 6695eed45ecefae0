ghost use Rattle.std.specs.Prelude.{◌≡◌, ◌≤◌, true, [], IfOk, IfSome};
ghost use Rattle.kapi.specs.Doors.{doors_of};
ghost use Rattle.kapi_core.specs.Table.{fits};
ghost use Rattle.kapi_serve.specs.Listening.{doors};

use crate::beginning::{BeginError, Objects, begin, first_of};
use crate::bounded_lines::BoundedLines;
use kapi_audit::answer_run;
use kapi_command_line::{Listen, ServeOptions};
use kapi_files::{
    Ending, ReadPolicy, Reason, read_file, read_kinds, read_served, tell_reason, tell_unloaded,
};
use kapi_loading::{StartError, Started, object_reason};
use kapi_model::ResourceRow;
use kapi_publishing::Seat;
use kapi_serve::{Sockets, serve_loop};
use kapi_text::{Sequence, TryCopy};
use std::alloc::Global;
use std::fs::Files;
use std::io::{self, BufWriter, ErrorKind};
use std::net::{Ipv4Addr, Net, SocketAddr, TcpListener, TcpStream};
use std::sync::Wait;
use std::thread::{self, Threads};
use std::time::{Clock, Duration};

/// The port that cannot be listened on, and why.
#[derive(Clone, Copy)]
struct Refused {
    port: u16,
    error: io::Error,
}

/// What a server begins with, as it was read.
#[derive(Drop)]
enum Opening {
    Lines(Vec<u8>),
    Manifests(ReadPolicy),
}

/// Serves the ports for as long as clients can be waited for. Status 1 if the file cannot be loaded or the clock
/// gives no first revision, 3 if a port cannot be listened on, 4 where the wait fails.
pub fn run_serve<
    R: Files
        + Input
        + Print
        + Eprint
        + AllocGlobal
        + Wait
        + Threads
        + Clock
        + Clone
        + Drop
        + Send
        + Net<Listener = TcpListener, Stream = TcpStream>
        + 'static,
>(rt: &R, options: &ServeOptions) -> io::Result<Ending> {
    warn_of_options(rt, options)?;
    let Some(table) = read_kinds(rt, options.kinds.as_slice())? else {
        return Ok(Ending::Stopped);
    };
    let Some(opening) = read_opening(rt, table.as_slice(), options)? else {
        return Ok(Ending::Stopped);
    };
    let first = options.first_revision;
    let milliseconds = match first {
        Some(_told) => 0,
        None => u64::try_from(rt.since_1970()?.as_millis()).unwrap_or(u64::MAX),
    };
    match begin(
        rt.alloc(),
        rt,
        &table,
        objects_of(&opening),
        first,
        milliseconds,
        seats_of(options),
    ) {
        Ok(started) => {
            // The text of the file is not kept beside what was made of it.
            drop(opening);
            serve_ports(rt, started, options)
        }
        Err(fault) => refuse_begin(rt, &table, fault, first_of(first, milliseconds), &opening),
    }
}

/// The number of seats: one for each reader, and one if there is no port for questions.
fn seats_of(options: &ServeOptions) -> usize
    ensures { (1 ≤ result) × (result ≤ 16) }
{
    match options.answer {
        Some(_port) => options.readers,
        None => 1,
    }
}

/// Reports options without effect, and ports whose user or group has white space at an end.
fn warn_of_options(rt: &impl Eprint, options: &ServeOptions) -> io::Result<()> {
    if options.idle_readers {
        eprintln!(rt; "--readers has no effect without --answer")?;
    }
    for listen in options.listens.as_slice() {
        tell_names(rt, listen)?;
    }
    Ok(())
}

/// Reports a port whose user or group has white space at an end.
fn tell_names(rt: &impl Eprint, listen: &Listen) -> io::Result<()> {
    tell_name(rt, listen.port, listen.identity.user.as_str())?;
    for group in listen.identity.groups.as_slice() {
        tell_name(rt, listen.port, group.as_str())?;
    }
    Ok(())
}

/// Reports a name that begins or ends with white space.
fn tell_name(rt: &impl Eprint, port: u16, name: &str) -> io::Result<()> {
    if name.trim().len() < name.len() {
        eprintln!(rt; "port {port}: the name '{name}' begins or ends with white space")?;
    }
    Ok(())
}

/// What a server begins with; none if a file cannot be read, or is no file of manifests.
fn read_opening<R: Files + Input + Eprint + AllocGlobal + Clone + Drop>(
    rt: &R,
    table: &[ResourceRow],
    options: &ServeOptions,
) -> io::Result<Option<Opening>> {
    if let Some(reading) = &options.manifests {
        return match read_served(rt, table, reading)? {
            Some(policy) => Ok(Some(Opening::Manifests(policy))),
            None => Ok(None),
        };
    }
    match &options.load {
        Some(file) => match read_file(rt, file.as_str())? {
            Some(lines) => Ok(Some(Opening::Lines(lines))),
            None => Ok(None),
        },
        None => Ok(Some(Opening::Lines(Vec::new(rt.alloc())))),
    }
}

fn objects_of(opening: &Opening) -> Objects<'_> {
    match opening {
        Opening::Lines(lines) => Objects::Lines(lines.as_slice()),
        Opening::Manifests(policy) => Objects::Alone(policy.lines()),
    }
}

/// Reports why a server does not begin after a revision, and why objects are not loaded: status 1.
fn refuse_begin<R: Eprint + AllocGlobal>(
    rt: &R,
    table: &Sequence<ResourceRow>,
    fault: BeginError,
    first: Option<u64>,
    opening: &Opening,
) -> io::Result<Ending>
    requires table { fits table.now ≡ true }
    requires first { IfSome first (λ n. n ≤ 281474976710650) }
{
    match (fault, opening) {
        (BeginError::Start(StartError::Line(_line)), Opening::Manifests(policy)) => {
            tell_unloaded(rt, table, policy)?;
        }
        (BeginError::Start(StartError::Line(_line)), Opening::Lines(lines)) => {
            eprintln!(rt; "{fault}")?;
            if let Some(first) = first {
                tell_reason(
                    rt,
                    object_reason(rt.alloc(), table, first, lines.as_slice()),
                )?;
            }
        }
        _ => eprintln!(rt; "{fault}")?,
    }
    Ok(Ending::Stopped)
}

/// Listens on each port and serves its clients; the desk is closed at the end.
fn serve_ports<
    R: Print
        + Eprint
        + AllocGlobal
        + Wait
        + Threads
        + Clock
        + Clone
        + Drop
        + Send
        + Net<Listener = TcpListener, Stream = TcpStream>
        + 'static,
>(rt: &R, started: Started, options: &ServeOptions) -> io::Result<Ending>
    requires free { started.desk.waiting ≡ [] }
    requires unopened { started.core.next_id ≡ 0 }
{
    let Started {
        mut core,
        mut desk,
        seats,
    } = started;
    core.recheck_watches(options.recheck);
    let status = match listen_all(rt, options, seats) {
        Ok(Ok(mut sockets)) => {
            serve_loop(rt, &mut core, &mut desk, &mut sockets);
            Ok(Ending::Adrift)
        }
        Ok(Err(refused)) => refuse(rt, refused),
        Err(error) => Err(error),
    };
    drop(desk.close(rt));
    status
}

/// Listens on the ports, and then on the port for questions, which readers answer from the seats.
fn listen_all<
    R: Print
        + AllocGlobal
        + Wait
        + Threads
        + Clock
        + Clone
        + Drop
        + Send
        + Net<Listener = TcpListener, Stream = TcpStream>
        + 'static,
>(rt: &R, options: &ServeOptions, seats: Vec<Seat>) -> io::Result<Result<Sockets<R>, Refused>>
    ensures { IfOk result (λ served. IfOk served (λ s. doors s.listeners.items ≡ doors_of options.now.listens)) }
{
    let sockets = match listen(rt, options.listens.as_slice())? {
        Ok(sockets) => sockets,
        Err(refused) => return Ok(Err(refused)),
    };
    let Some(port) = options.answer else {
        return Ok(Ok(sockets));
    };
    match TcpListener::bind(rt, SocketAddr::from((Ipv4Addr::LOCALHOST, port))) {
        Ok(listener) => {
            start_readers(rt, rt.alloc(), &listener, seats)?;
            println!(rt; "listening {port}")?;
            Ok(Ok(sockets))
        }
        Err(error) => Ok(Err(Refused { port, error })),
    }
}

/// Listens on the ports in their order and prints each.
fn listen<R: Print + AllocGlobal + Clock + Clone + Drop + Net>(
    rt: &R,
    listens: &[Listen],
) -> io::Result<Result<Sockets<R>, Refused>>
    ensures { IfOk result (λ served. IfOk served (λ s. doors s.listeners.items ≡ doors_of listens.now)) }
{
    let mut sockets = Sockets::new(rt.alloc(), rt, rt.clone()?)?;
    for listen in listens {
        let identity = listen.identity.copy(rt.alloc())?;
        match sockets.listen(rt, listen.port, identity) {
            Ok(port) => println!(rt; "listening {port}")?,
            Err(error) => {
                let port = listen.port;
                return Ok(Err(Refused { port, error }));
            }
        }
    }
    Ok(Ok(sockets))
}

/// A port that cannot be listened on: status 3.
fn refuse(rt: &impl Eprint, refused: Refused) -> io::Result<Ending> {
    let port = refused.port;
    let reason = Reason(&refused.error);
    eprintln!(rt; "cannot listen {port}: {reason}")?;
    Ok(Ending::Unheard)
}

/// The pause in milliseconds before the listener is waited for again if no client could be accepted.
const PAUSE: u64 = 100;

/// Starts a thread for each seat. A thread takes the clients of the listener one after the other and answers their
/// questions; a fault of one client ends that client alone. The threads end with the program.
fn start_readers<R: Threads + Wait + Clock + Clone + Drop + Send + 'static>(
    rt: &R,
    alloc: Global,
    listener: &TcpListener,
    seats: Vec<Seat>,
) -> io::Result<()> {
    for seat in seats {
        let listener = listener.try_clone()?;
        let own = rt.clone()?;
        if thread::spawn(rt, move || answer_clients(&own, alloc, &listener, seat)).is_err() {
            return Err(io::Error::from(ErrorKind::OutOfMemory));
        }
    }
    Ok(())
}

/// Answers the clients of a listener, one after the other, for as long as the program runs. A reader goes on if a
/// client fails or cannot be accepted.
fn answer_clients<R: Wait + Clock>(rt: &R, alloc: Global, listener: &TcpListener, seat: Seat) -> ! {
    let mut seat = seat;
    for _ in rt.forever() {
        match listener.accept() {
            Ok((stream, _address)) => {
                let _ended = answer_client(alloc, &mut seat, &stream);
            }
            Err(_error) => thread::sleep(rt, Duration::from_millis(PAUSE)),
        }
    }
    unreachable!()
}

/// Answers a client to the end of its lines, or to a line that is too long.
fn answer_client(alloc: Global, seat: &mut Seat, stream: &TcpStream) -> io::Result<()> {
    stream.set_nodelay(true)?;
    let mut reader = BoundedLines::new(stream);
    let mut writer = BufWriter::new(alloc, stream)?;
    let _fault = answer_run(alloc, seat, &mut reader, &mut writer);
    Ok(())
}
