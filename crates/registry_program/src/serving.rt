//! A server at an address, over a registry that is opened again where its storage fails.
ghost use Rattle.std.specs.Prelude.{◌≡◌, [], true, false, None, OnOk, IfOk, IfErr};
ghost use Rattle.std.specs.Io.KnownBytes.{Appends};
ghost use Rattle.registry_loop.specs.Together.{ServesAll};
ghost use Rattle.registry_opening.specs.Openings.{between};
ghost use Rattle.registry_orders.specs.Failures.{IsOfServing};
ghost use Rattle.registry_orders.specs.Outputs.{output};
ghost use Rattle.registry_tasks.specs.Sockets.{ServesAddress, greeting};
ghost use Rattle.registry_program.specs.Serving.{ServesSpan, ServesSpans, IsOfSockets, IsStopped, Begins};

use registry_holding::Holding;
use registry_loop::{Crowd, Doors, Gathering};
use registry_model::{Keeper, LARGEST_BLOB, Settings};
use registry_opening::{Ended, Opener, Work};
use registry_orders::{Beside, Failure, Layout, Limits};
use registry_service::Service;
use registry_tasks::listening::{Listeners, NotBound, introduction, listen};
use registry_tasks::order_socket::stop_orders;
use registry_tasks::sockets::announce;
use request_log::{Log, Outlet};
use std::alloc::Global;
use std::io;
use std::io::Write;
use std::os::fd::RawFd;

/// The descriptors of standard input and of standard error.
const STANDARD_INPUT: RawFd = 0;

const STANDARD_ERROR: RawFd = 2;

/// What `registry serve` was told but for its registry.
#[derive(Clone, Copy)]
pub struct Serving<'a> {
    pub address: &'a str,
    pub connections: u64,
    pub limits: Limits,
    pub beside: Beside<'a>,
    pub settings: Settings,
}

/// How serving over one opening of a registry ended.
#[derive(Clone, Copy)]
pub enum Stop {
    /// All have come and gone.
    Over,
    /// The storage has failed.
    Spent,
    /// Nobody is served any more, or was.
    Failed(Failure),
}

/// How many bytes may be staged together: where that is not said, half of the buffer, or a largest blob where
/// that is more.
fn most_staged(limits: &Limits) -> u64 {
    match limits.staged {
        Some(bytes) => bytes,
        None => (limits.buffer / 2).max(LARGEST_BLOB),
    }
}

/// How many bytes of blobs that were read last are held: a quarter of the buffer.
fn most_recent(limits: &Limits) -> usize {
    (limits.buffer / 4) as usize
}

/// Serves those who gather over a keeper, beside which bodies that come are staged in memory, and gives it
/// back.
fn serve_gathered<K: Keeper, G: Gathering>(
    alloc: Global,
    kept: K,
    gathering: &mut G,
    settings: Settings,
    limits: Limits,
) -> Ended<K, Stop>
    ensures honest { K.is_honest result.keeper → K.is_honest kept }
    ensures serves { K.is_honest result.keeper
        → G.buffer gathering.old ≡ limits.buffer → G.callers gathering.old ≡ []
        → ServesSpan settings limits result.told (K.kept kept) (K.kept result.keeper) }
    ensures buffer { G.buffer gathering.new ≡ G.buffer gathering.old }
    ensures none { result.told ≡ Stop.Spent → G.callers gathering.new ≡ [] }
    ensures fails { IsStopped result.told }
{
    let holder = Holding::within(alloc, kept, most_staged(&limits), most_recent(&limits));
    let mut service = Service::new(holder);
    let at_once = limits.at_once as usize;
    let told = match gathering.serve_all(alloc, &mut service, settings, at_once) {
        Ok(true) => Stop::Over,
        Ok(false) => Stop::Spent,
        Err(_) => Stop::Failed(Failure::ConnectionFailure),
    };
    Ended {
        keeper: service.into_keeper().into_keeper(),
        told,
    }
}

/// Why nobody can come.
fn of_gathering(error: io::Error) -> Failure
    ensures sockets { IsOfSockets result }
    ensures serving { IsOfServing result }
{
    match error.kind() {
        io::ErrorKind::OutOfMemory => Failure::OutOfMemory,
        _ => Failure::ConnectionFailure,
    }
}

/// The doors of a server. One that is to end with standard input fails at once where that is a file, the null
/// device or closed: nobody holds another end of these.
fn doors_of(listeners: Listeners, serving: Serving) -> Doors {
    Doors {
        listener: listeners.connections,
        orders: listeners.orders,
        watched: serving.beside.stop_at_eof.then_some(STANDARD_INPUT),
    }
}

/// Where a server listens.
#[derive(Clone, Copy)]
pub(crate) struct Binding<'a> {
    /// The place at which it cannot.
    pub(crate) not_bound: Option<NotBound<'a>>,
    /// It does, or did.
    pub(crate) listens: bool,
}

/// What a server is to do. The path is that of its registry, or what is said in the place of one.
#[derive(Clone, Copy)]
pub(crate) struct ServeTask<'r, 'a> {
    pub(crate) rt: &'r HostRuntime,
    pub(crate) path: &'a str,
    pub(crate) serving: Serving<'a>,
}

/// A server, of which nobody knows until its registry is opened.
#[derive(Drop)]
pub(crate) struct Server<'t, 'r, 'a, 'g, 'b, 'o, G: Gathering, W: Write> {
    pub(crate) task: &'t ServeTask<'r, 'a>,
    pub(crate) gathering: &'g mut G,
    pub(crate) binding: &'b mut Binding<'a>,
    pub(crate) out: &'o mut W,
    /// It was said on standard output that connections are taken.
    pub(crate) greeted: bool,
}

impl<'t, 'r, 'a, 'g, 'b, 'o, G: Gathering, W: Write> Server<'t, 'r, 'a, 'g, 'b, 'o, G, W> {
    /// Binds the address and the socket for orders, and says on standard error what is served.
    fn listen<K: Keeper>(&mut self, kept: &mut K) -> Result<(), Failure>
        ensures honest { K.is_honest kept.new → K.is_honest kept.old }
        ensures begins { K.is_honest kept.new → Begins result (K.kept kept.old) (K.kept kept.new) }
        ensures fails { IfErr result IsOfServing }
        ensures same { self.new.out ≡ self.old.out }
        ensures gathering { self.new.gathering.ghost_name ≡ self.old.gathering.ghost_name }
        ensures binding { self.new.binding.ghost_name ≡ self.old.binding.ghost_name }
        ensures task { self.new.task ≡ self.old.task }
        ensures greeted { self.new.greeted ≡ self.old.greeted }
        ensures buffer { G.buffer self.new.gathering.now ≡ G.buffer self.old.gathering.now }
        ensures none { OnOk result (G.callers self.new.gathering.now ≡ []) }
    {
        let ServeTask { rt, path, serving } = *self.task;
        let alloc = rt.alloc();
        let listeners = match listen(rt, serving.address, serving.beside.orders) {
            Ok(listeners) => listeners,
            Err(none) => {
                self.binding.not_bound = Some(none);
                return Err(Failure::ConnectionFailure);
            }
        };
        self.binding.listens = true;
        let line = introduction(alloc, kept, &listeners.connections, path)?;
        if let Some(line) = line {
            self.gathering.introduce(line.as_str());
        }
        match self.gathering.open(alloc, doors_of(listeners, serving)) {
            Ok(()) => Ok(()),
            Err(error) => Err(of_gathering(error)),
        }
    }

    /// The same, and says on standard output that connections are taken.
    fn begin<K: Keeper>(&mut self, kept: &mut K) -> Result<(), Failure>
        ensures honest { K.is_honest kept.new → K.is_honest kept.old }
        ensures begins { K.is_honest kept.new → Begins result (K.kept kept.old) (K.kept kept.new) }
        ensures fails { IfErr result IsOfServing }
        ensures same { self.new.out.ghost_name ≡ self.old.out.ghost_name }
        ensures gathering { self.new.gathering.ghost_name ≡ self.old.gathering.ghost_name }
        ensures binding { self.new.binding.ghost_name ≡ self.old.binding.ghost_name }
        ensures task { self.new.task ≡ self.old.task }
        ensures buffer { G.buffer self.new.gathering.now ≡ G.buffer self.old.gathering.now }
        ensures none { OnOk result (G.callers self.new.gathering.now ≡ []) }
        ensures greets { OnOk result (Appends (W.contents self.old.out.now) (W.contents self.new.out.now)
            greeting) }
    {
        match self.listen(kept) {
            Ok(()) => announce(self.out),
            Err(failure) => Err(failure),
        }
    }
}

impl<'t, 'r, 'a, 'g, 'b, 'o, K: Keeper, G: Gathering, W: Write> Work<K>
    for Server<'t, 'r, 'a, 'g, 'b, 'o, G, W> {
    ghost use Rattle.std.specs.Prelude.{◌≡◌, []};
    ghost use Rattle.registry_program.specs.declared.serving.Stop.TheVariants.{Spent};
    ghost use Rattle.registry_program.specs.Serving.{ServesSpan, GreetsFirst};

    type Told = Stop;

    ghost does = { λ old s stop new s'. G.buffer old.gathering.now ≡ old.task.now.serving.limits.buffer
        → G.callers old.gathering.now ≡ []
        → ServesSpan old.task.now.serving.settings old.task.now.serving.limits stop s s' };

    ghost says = { λ old stop new. (new.out.ghost_name ≡ old.out.ghost_name)
        × (new.gathering.ghost_name ≡ old.gathering.ghost_name)
        × (new.binding.ghost_name ≡ old.binding.ghost_name) × (new.task ≡ old.task)
        × (G.buffer new.gathering.now ≡ G.buffer old.gathering.now)
        × (stop ≡ Spent → G.callers new.gathering.now ≡ [])
        × GreetsFirst old.greeted stop new.greeted (W.contents old.out.now) (W.contents new.out.now) };

    fn work(&mut self, kept: K) -> Ended<K, Stop> {
        let mut kept = kept;
        if !self.greeted {
            match self.begin(&mut kept) {
                Ok(()) => self.greeted = true,
                Err(failure) => {
                    return Ended {
                        keeper: kept,
                        told: Stop::Failed(failure),
                    };
                }
            }
        }
        let ServeTask {
            rt,
            path: _,
            serving,
        } = *self.task;
        serve_gathered(
            rt.alloc(),
            kept,
            self.gathering,
            serving.settings,
            serving.limits,
        )
    }
}

/// Serves those who gather over the registry at the path, which is made with this layout where none is, and
/// opened again where its storage fails.
fn serve_together<'a, K: Keeper, O: Opener<K>, G: Gathering, W: Write>(
    opener: &mut O,
    layout: Layout,
    task: &ServeTask<'_, 'a>,
    gathering: &mut G,
    binding: &mut Binding<'a>,
    out: &mut W,
) -> Result<(), Failure>
    requires buffer { G.buffer gathering.old ≡ task.now.serving.limits.buffer }
    requires none { G.callers gathering.old ≡ [] }
    ensures spans { ServesSpans
        (between K.is_honest K.kept O.opens (O.had opener.old) (O.had opener.new)) task.now.path.now
        (ServesAll task.now.serving.settings task.now.serving.limits.at_once
        task.now.serving.limits.buffer) result }
    ensures greets { OnOk result (Appends (W.contents out.old) (W.contents out.new) greeting) }
    ensures fails { IfErr result IsOfServing }
{
    let mut server = Server {
        task,
        gathering,
        binding,
        out,
        greeted: false,
    };
    for _ in 0..u64::MAX {
        match opener.with_open(task.path, layout, &mut server) {
            Ok(Stop::Over) => return Ok(()),
            Ok(Stop::Spent) => {}
            Ok(Stop::Failed(failure)) => return Err(failure),
            Err(failure) => return Err(failure),
        }
    }
    Err(Failure::StorageFailure)
}

/// Those who are to be served, of whom nobody has come yet. The error is why nobody can.
pub(crate) fn crowd_of<'a, E: Write>(
    rt: &'a HostRuntime,
    serving: Serving,
    err: &'a mut E,
) -> Result<Crowd<'a, HostRuntime, E>, Failure>
    ensures limits { IfOk result (λ crowd. crowd.limits ≡ serving.entry.limits) }
    ensures none { IfOk result (λ crowd. ⟦<Crowd<'a, HostRuntime, E> as Gathering>⟧.callers crowd ≡ []) }
    ensures sockets { IfErr result IsOfSockets }
    ensures serving { IfErr result IsOfServing }
{
    let alloc = rt.alloc();
    let outlet = Outlet::over(alloc, rt, err, STANDARD_ERROR);
    let log = Log::new(outlet, serving.beside.log);
    match Crowd::new(alloc, rt, rt, log, serving.limits, serving.connections) {
        Ok(crowd) => Ok(crowd),
        Err(error) => Err(of_gathering(error)),
    }
}

/// Takes the socket for orders away, if the server listened there.
pub(crate) fn close_orders(rt: &HostRuntime, serving: Serving, listened: bool) {
    if listened {
        stop_orders(rt, serving.beside.orders);
    }
}

/// Opens the registry at a path, or makes one with this layout, binds the address and the socket for orders,
/// says what is served, and serves so many connections. The socket for orders is taken away at the end. Where
/// nobody can listen, the place is given at which it is so.
pub fn serve<'a, K: Keeper, O: Opener<K>, W: Write, E: Write>(
    rt: &HostRuntime,
    opener: &mut O,
    path: &'a str,
    layout: Layout,
    serving: Serving<'a>,
    out: &mut W,
    err: &mut E,
) -> (Result<(), Failure>, Option<NotBound<'a>>)
    ensures { ServesAddress
        (between K.is_honest K.kept O.opens (O.had opener.old) (O.had opener.new)) path.now
        (ServesAll serving.entry.settings serving.entry.limits.at_once serving.entry.limits.buffer) result.0
        (output (W.contents out.old) (W.contents out.new)) }
{
    let mut crowd = match crowd_of(rt, serving, err) {
        Ok(crowd) => crowd,
        Err(failure) => return (Err(failure), None),
    };
    let mut binding = Binding {
        not_bound: None,
        listens: false,
    };
    let task = ServeTask { rt, path, serving };
    let served = serve_together(opener, layout, &task, &mut crowd, &mut binding, out);
    close_orders(rt, serving, binding.listens);
    (served, binding.not_bound)
}
