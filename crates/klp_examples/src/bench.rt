//! Measures the costs of an event, and the costs of the whole program.

use crate::case::Case;
use crate::measured::{Measured, SCENES, Way};
use crate::whole::{Work, shortest};
use klp_boot::{ManagerUse, over_text};
use klp_core::Manager;
use klp_watch::{Differs, RefusedEvents, compare_whole};
use std::alloc::Global;
use std::rt::{Clock, Files};
use std::time::Instant;
use std::{fs, io};

/// A catalog with as many functions and patches as possible. Each function has eight bytes. Each patch has as many
/// functions as possible, so four patches together change the whole kernel.
const LARGE: &str = "bench.catalog";

/// The example with which the console is measured. `TIMES` is how often the example's script is repeated in the input.
const SMALL: &str = "measured k";

const TIMES: usize = 512;

// Counts the items of a trace. If the trace is honest, all items but the refused events count as accepted, otherwise all
// count as refused.
fn counted(ended: Result<RefusedEvents, Differs>, items: usize) -> (u64, u64) {
    match ended {
        Ok(refused) => (
            items.saturating_sub(refused.count) as u64,
            refused.count as u64,
        ),
        Err(_) => (0, items as u64),
    }
}

/// A round of a scene. In a round, the lists are done in order, and each list is done in several slices.
#[derive(Drop)]
struct SceneRound<'a, 'b, R> {
    rt: &'a R,
    way: Way,
    lists: &'b mut [Measured],
}

impl<R: Clock> ManagerUse for SceneRound<'_, '_, R> {
    type Done = io::Result<()>;

    ghost comes_to = { λ _ _ _ _. Unit {0} };

    // In each slice the manager does all events of the list. For some lists the manager then undoes the events, and
    // only the undoing is measured. The journal has room for one slice.
    fn run(&mut self, _alloc: Global, manager: &mut Manager) -> io::Result<()> {
        let (rt, way) = (self.rt, self.way);
        let lists = &mut *self.lists;
        let mut ended = Ok(());
        for list in lists {
            for _ in 0..list.slices {
                manager.seal();
                let mut start = Instant::now(rt);
                let counts = match way {
                    Way::Watched => {
                        counted(compare_whole(manager, &list.items), list.items.len())
                    }
                    _ => manager.run(&list.events),
                };
                if let Way::TakenBack = way {
                    start = Instant::now(rt);
                    let _ = manager.rewind(0);
                }
                let end = Instant::now(rt);
                list.count(counts);
                ended = ended.and(list.shortest.add(start, end));
            }
        }
        ended
    }
}

// Does one round of a scene, with a new manager.
fn round<R: Clock>(
    rt: &R,
    alloc: Global,
    text: &[u8],
    way: Way,
    lists: &mut [Measured],
) -> io::Result<()> {
    match over_text(alloc, text, &mut SceneRound { rt, way, lists }) {
        Ok(ended) => ended,
        Err(_) => Err(io::Error::other("no manager is booted")),
    }
}

// Measures and prints the costs of the lists of a scene.
fn measure_scene<R: Clock + Print>(
    rt: &R,
    alloc: Global,
    text: &[u8],
    rounds: u32,
    way: Way,
    lists: &mut [Measured],
) -> io::Result<()> {
    for _ in 0..rounds {
        round(rt, alloc, text, way, lists)?;
    }
    for list in lists {
        println!(rt;
            "{}: accepted {} refused {}{}",
            list.name, list.accepted, list.refused, list.shortest
        )?;
    }
    Ok(())
}

// Measures and prints the costs of all lists of events over this catalog.
fn measure_events<R: Clock + Print>(
    rt: &R,
    alloc: Global,
    text: &[u8],
    rounds: u32,
) -> io::Result<()> {
    for scene in &SCENES {
        let mut lists = scene.lists(alloc, rounds)?;
        measure_scene(rt, alloc, text, rounds, scene.way, &mut lists)?;
    }
    Ok(())
}

// Measures and prints the costs of events over this catalog, and the cost of reading the catalog.
fn measure_large<R: Clock + Print>(
    rt: &R,
    alloc: Global,
    catalog: &[u8],
    rounds: u32,
) -> io::Result<()> {
    measure_events(rt, alloc, catalog, rounds)?;
    let (read, _) = shortest(rt, alloc, rounds, Work::Read(catalog))?;
    println!(rt; "a catalog of {} bytes is read{read}", catalog.len())
}

// Measures and prints the cost of booting a manager with this catalog and serving this input.
fn measure_small<R: Clock + Print>(
    rt: &R,
    alloc: Global,
    catalog: &[u8],
    input: &[u8],
    rounds: u32,
) -> io::Result<()> {
    let (boot, _) = shortest(rt, alloc, rounds, Work::Serve(catalog, b""))?;
    let bytes = catalog.len();
    println!(rt; "a manager is booted over a catalog of {bytes} bytes{boot}")?;
    let (serve, answers) = shortest(rt, alloc, rounds, Work::Serve(catalog, input))?;
    let lines = input.iter().filter(|byte| **byte == b'\n').count();
    println!(rt; "{lines} lines are answered by {answers} bytes{serve}")
}

fn run_large<R: Clock + Files + Print + AllocGlobal>(rt: &R, rounds: u32) -> io::Result<()> {
    let catalog = fs::read(rt, LARGE)?;
    measure_large(rt, rt.alloc(), &catalog, rounds)
}

fn run_small<R: Clock + Files + Print + AllocGlobal>(rt: &R, rounds: u32) -> io::Result<()> {
    let case = Case::read(rt, SMALL)?;
    let input = case.input.repeat(rt.alloc(), TIMES)?;
    measure_small(rt, rt.alloc(), &case.catalog, &input, rounds)
}

/// Measures `rounds` rounds, and writes each figure as a line. A line has how many items were accepted, refused or
/// answered. If there are several rounds, it also has the shortest time.
pub(crate) fn run<R: Clock + Files + Print + AllocGlobal>(rt: &R, rounds: u32) -> io::Result<()> {
    run_large(rt, rounds)?;
    run_small(rt, rounds)
}
