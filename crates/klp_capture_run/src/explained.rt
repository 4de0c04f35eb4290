//! Explains a log in three steps: makes a catalog of what the log names, looks for a run of the rules that shows the
//! log, and checks that run.
ghost use Rattle.std.specs.Prelude.{◌≡◌, ◌≤◌, ◌<◌, ◌↔◌, true, length, string_bytes, None, is_some, Ok, IfOk};
ghost use Rattle.std.specs.Prelude.{IfSome};
ghost use Rattle.std.specs.Str.Lines.{lines};
ghost use Rattle.klp_program.specs.Watches.{Watches};
ghost use Rattle.klp_capture.specs.Shown.{ShowSamples, samples_before};
ghost use Rattle.klp_capture_run.specs.Explained.{is_honest};
ghost use Rattle.klp_capture_run.specs.Holders.{LagOver, holders_in};
ghost use Rattle.klp_trace_page.specs.RunSentences.{AreSentencesOver};

use crate::holders::{Holder, Judgement, Lags, holders_of, judgement_over};
use klp_boot::{Fault, ManagerUse, over_text};
use klp_capture::{BootTime, Capture, PatchName, Sample, Text, Thread};
use klp_capture_catalog::{Functions, KnownPatches, forced_in};
use klp_capture_search::{OTHERS, Run};
use klp_core::Manager;
use klp_program::Verdict;
use klp_timeline::Sentence;
use klp_trace_page::sentences_over_trace;
use std::alloc::{AllocError, Global};

/// What was found out about a log.
#[derive(Drop)]
pub struct Explained<'a> {
    /// The run that was found.
    pub run: Run<'a>,
    /// The names of the patches in the trace.
    pub names: Vec<PatchName<'a>>,
    /// The threads that have a number in the trace.
    pub threads: Vec<Thread>,
    /// The text of the catalog. Its patches, objects and functions are those that the log names.
    pub catalog: String,
    /// The first sample to which none of the tried runs leads, counted from 0. `None` if there is no such sample.
    pub failed: Option<usize>,
    /// The first sample to which none of the tried runs leads, if the log was cut off. Such a log may lack the line of
    /// a force that led to the sample. So neither this sample nor a later one is judged.
    pub unjudged: Option<usize>,
    /// The first sample that the trace doesn't show, though a run led to it. It is always `None` unless the search is
    /// at fault.
    pub unshown: Option<usize>,
    /// How many samples weren't reached. They are the samples after a force, and the samples from the first one to
    /// which nothing leads.
    pub later: u64,
    /// When the transition was forced, or `None`. Samples after a force aren't looked at.
    pub forced: Option<BootTime>,
    /// The verdict on the trace.
    pub verdict: Verdict,
    /// The tasks that lag at the end of the trace, by their numbers. `None` if the trace breaks the rules.
    pub lags: Option<Lags>,
    /// The sentences that the trace's page has about the run.
    pub(crate) sentences: Vec<Sentence>,
}

impl<'a> Explained<'a> {
    /// Whether a run of the rules shows what was recorded. This is so if five things are true: the trace shows some
    /// sample, `failed`, `unjudged` and `unshown` are `None`, the trace is honest, and it is known which tasks lag at its
    /// end.
    pub fn is_explained(&self) -> bool
        ensures { (result ≡ true) ↔
            ((is_honest self.now.verdict ≡ true) × (self.now.failed ≡ None) × (self.now.unjudged ≡ None)
            × (self.now.unshown ≡ None) × (0 < self.now.run.shown) × (is_some self.now.lags ≡ true)) }
    {
        match self.verdict {
            Verdict::Honest(_) => {
                self.failed.is_none()
                    && self.unjudged.is_none()
                    && self.unshown.is_none()
                    && self.run.shown > 0
                    && self.lags.is_some()
            }
            _ => false,
        }
    }

    /// Returns the trace. The trace shows the log up to the first sample to which nothing leads.
    pub fn trace(&self) -> &str
        ensures { result.now ≡ string_bytes self.now.run.trace }
    {
        self.run.trace.as_str()
    }
}

impl<'a> Explained<'a> {
    /// Returns the tasks that hold the transition up at the end of the trace, which is the last sample that it shows. The
    /// list is empty if no transition is under way at the end.
    pub fn holders(&self, alloc: Global) -> Result<Vec<Holder>, AllocError>
        ensures { IfOk result (λ list. list.items ≡ holders_in self.now.lags) }
    {
        holders_of(alloc, &self.lags)
    }

    /// Returns a text of names (for `klppage CATALOG SCRIPT NAMES`) with the name of each task of the trace.
    pub fn names(&self, alloc: Global) -> Result<String, AllocError> {
        let mut text = String::new(alloc);
        for (number, task) in self.run.tasks.iter().enumerate() {
            let name = Text(task.name);
            let thread = task.thread;
            writeln!(text, "task {number} {name}[{thread}]")?;
        }
        writeln!(text, "task {OTHERS} others")?;
        Ok(text)
    }
}

/// The search for a run that shows the samples of a log.
#[derive(Drop)]
struct Search<'c, 'a> {
    run: Run<'a>,
    capture: &'c Capture<'a>,
    forced: Option<BootTime>,
}

impl ManagerUse for Search<'_, '_> {
    /// The first sample to which the run doesn't lead, if there is such a sample.
    type Done = Result<Option<usize>, AllocError>;

    ghost comes_to = { λ _ _ _ _. Unit {0} };

    fn run(&mut self, alloc: Global, manager: &mut Manager) -> Result<Option<usize>, AllocError> {
        let _for_its_clause = manager.mark();
        self.run.explore(alloc, manager, self.capture, self.forced)
    }
}

/// A run, and the first sample to which it doesn't lead, if there is such a sample.
#[derive(Drop)]
struct Exploration<'a> {
    run: Run<'a>,
    catalog: String,
    stopped: Option<usize>,
}

/// Makes a catalog of what a log names, and looks for a run with that catalog.
fn explored<'a>(
    alloc: Global,
    capture: &Capture<'a>,
    known: &'a KnownPatches,
    forced: Option<BootTime>,
    guesses: bool,
) -> Result<Exploration<'a>, Fault> {
    let functions = Functions::of(alloc, capture, known, guesses)?;
    let catalog = functions.catalog(alloc)?;
    let mut search = Search {
        run: Run::new(alloc, capture, functions)?,
        capture,
        forced,
    };
    let stopped = over_text(alloc, catalog.as_bytes(), &mut search)??;
    Ok(Exploration {
        run: search.run,
        catalog,
        stopped,
    })
}

/// Looks for a run, first with what the log says of each patch, and if that run stops, with a guess at which patches are
/// cumulative. A log shows that only by the symbols at its end, or where older patches go with a transition. Returns the
/// run that leads further, or the first one.
fn best_explored<'a>(
    alloc: Global,
    capture: &Capture<'a>,
    known: &'a KnownPatches,
    forced: Option<BootTime>,
) -> Result<Exploration<'a>, Fault> {
    let first = explored(alloc, capture, known, forced, false)?;
    let Some(stopped) = first.stopped else {
        return Ok(first);
    };
    let guessed = explored(alloc, capture, known, forced, true)?;
    match guessed.stopped {
        Some(later) if later <= stopped => Ok(first),
        _ => Ok(guessed),
    }
}

/// Returns the samples before the one with this number. Returns all samples if there is no number.
fn samples_before(number: Option<usize>, samples: &[Sample]) -> &[Sample]
    ensures { result.now ≡ samples_before number samples.now }
{
    match number {
        Some(number) => samples.get(..number).unwrap_or(samples),
        None => samples,
    }
}

/// Explains a log: makes a catalog of what the log names, and of what is known of its patches, and looks for a run of the rules that shows each sample. The
/// verdict is the verdict of `klpwatch` on the trace that was found, with that catalog. The trace shows each sample that
/// isn't torn, is before a force, and is before the first sample to which nothing leads. For each such sample, it shows
/// the states of the tasks that the sample names, and the files of the patches. The rules, and the state at the end of
/// the trace, decide which tasks lag there.
pub fn explain<'a>(
    alloc: Global,
    capture: &Capture<'a>,
    known: &'a KnownPatches,
) -> Result<Explained<'a>, Fault>
    ensures judged { IfOk result
        (λ found. Watches (string_bytes found.catalog) (string_bytes found.run.trace) (Ok found.verdict)) }
    ensures shown { IfOk result
        (λ found. ShowSamples capture.now found.forced found.names.items found.threads.items
        (samples_before found.unshown
        (samples_before found.failed (samples_before found.unjudged capture.now.samples.items)))
        (lines (string_bytes found.run.trace))) }
    ensures sentences { IfOk result
        (λ found. AreSentencesOver (string_bytes found.catalog) (string_bytes found.run.trace) found.sentences.items) }
    ensures lags { IfOk result
        (λ found. IfSome found.lags
        (λ lags. LagOver (string_bytes found.catalog) (string_bytes found.run.trace) lags)) }
{
    let forced = forced_in(capture);
    let Exploration {
        run,
        catalog,
        stopped,
    } = best_explored(alloc, capture, known, forced)?;
    let Judgement { verdict, lags } = judgement_over(
        alloc,
        catalog.as_bytes(),
        run.trace.as_bytes(),
    )?;
    let sentences = sentences_over_trace(alloc, catalog.as_bytes(), run.trace.as_bytes())?;
    let names = run.functions.names(alloc)?;
    let threads = run.threads(alloc)?;
    let failed = if capture.is_whole { stopped } else { None };
    let unjudged = if capture.is_whole { None } else { stopped };
    let reached = samples_before(failed, samples_before(unjudged, &capture.samples));
    let trace = run.trace.as_bytes();
    let unshown = capture.first_not_shown(alloc, trace, forced, &names, &threads, reached)?;
    let shown_or_torn = run.shown.saturating_add(run.torn);
    Ok(Explained {
        later: (capture.samples.len() as u64).saturating_sub(shown_or_torn),
        run,
        names,
        threads,
        catalog,
        failed,
        unjudged,
        unshown,
        forced,
        verdict,
        lags,
        sentences,
    })
}
