//! A server at an address, over a registry in memory: what is kept there is gone when it ends.
ghost use Rattle.std.specs.Prelude.{◌≡◌, []};
ghost use Rattle.registry_orders.specs.Outputs.{output};
ghost use Rattle.registry_program.specs.Memory.{ServesMemory, ServesKept, ServesSetUp};

use crate::serving::{Binding, ServeTask, Server, Serving, Stop, close_orders, crowd_of};
use registry_loop::Gathering;
use registry_maps::MapKeeper;
use registry_model::Keeper;
use registry_opening::{Ended, Work};
use registry_orders::Failure;
use registry_orders::options::Setup;
use registry_service::Service;
use registry_tasks::listening::NotBound;
use registry_tasks::set_up;
use std::io::Write;

/// What is written in the place of the path of a database.
const IN_MEMORY: &str = "a registry in memory";

/// Serves those who gather over a keeper, until all have come and gone or its storage fails.
fn serve_once<'a, K: Keeper + Drop, G: Gathering, W: Write>(
    keeper: K,
    task: &ServeTask<'_, 'a>,
    gathering: &mut G,
    binding: &mut Binding<'a>,
    out: &mut W,
) -> Result<(), Failure>
    requires buffer { G.buffer gathering.old ≡ task.now.serving.limits.buffer }
    requires none { G.callers gathering.old ≡ [] }
    ensures { ServesKept K.is_honest K.kept keeper task.now.serving.settings task.now.serving.limits
        result (output (W.contents out.old) (W.contents out.new)) }
{
    let mut server = Server {
        task,
        gathering,
        binding,
        out,
        greeted: false,
    };
    let Ended { keeper: _, told } = server.work(keeper);
    match told {
        Stop::Over => Ok(()),
        Stop::Spent => Err(Failure::StorageFailure),
        Stop::Failed(failure) => Err(failure),
    }
}

/// Binds the address and the socket for orders, says what is served, and serves so many connections over a
/// keeper. The socket for orders is taken away at the end.
fn serve_kept<'a, K: Keeper + Drop, W: Write, E: Write>(
    rt: &HostRuntime,
    keeper: K,
    serving: Serving<'a>,
    out: &mut W,
    err: &mut E,
) -> (Result<(), Failure>, Option<NotBound<'a>>)
    ensures { ServesKept K.is_honest K.kept keeper serving.entry.settings serving.entry.limits
        result.0 (output (W.contents out.old) (W.contents out.new)) }
{
    let mut crowd = match crowd_of(rt, serving, err) {
        Ok(crowd) => crowd,
        Err(failure) => return (Err(failure), None),
    };
    let mut binding = Binding {
        not_bound: None,
        listens: false,
    };
    let task = ServeTask {
        rt,
        path: IN_MEMORY,
        serving,
    };
    let served = serve_once(keeper, &task, &mut crowd, &mut binding, out);
    close_orders(rt, serving, binding.listens);
    (served, binding.not_bound)
}

/// Sets a registry up, and serves connections over it.
fn serve_set_up<'a, K: Keeper + Drop, W: Write, E: Write>(
    rt: &HostRuntime,
    keeper: K,
    setup: &Setup,
    serving: Serving<'a>,
    out: &mut W,
    err: &mut E,
) -> (Result<(), Failure>, Option<NotBound<'a>>)
    ensures { ServesSetUp K.is_honest K.kept (K.kept keeper) serving.entry.settings serving.entry.limits
        setup.now result.0 (output (W.contents out.old) (W.contents out.new)) }
{
    let mut service = Service::new(keeper);
    match set_up(rt.alloc(), &mut service, setup) {
        Ok(()) => serve_kept(rt, service.into_keeper(), serving, out, err),
        Err(failure) => (Err(failure), None),
    }
}

/// Makes a registry in memory that begins with this setup, and serves an address over it as `serving::serve`
/// does over one in a database. The error is also what of the setup is refused, and then nobody was served.
pub fn serve_in_memory<'a, W: Write, E: Write>(
    rt: &HostRuntime,
    setup: &Setup,
    serving: Serving<'a>,
    out: &mut W,
    err: &mut E,
) -> (Result<(), Failure>, Option<NotBound<'a>>)
    ensures { ServesMemory serving.entry.settings serving.entry.limits setup.now result.0
        (output (W.contents out.old) (W.contents out.new)) }
{
    // That maps are a keeper is proved anew at each call that is generic in one, so there is one such call.
    serve_set_up(rt, MapKeeper::new(rt.alloc()), setup, serving, out, err)
}
