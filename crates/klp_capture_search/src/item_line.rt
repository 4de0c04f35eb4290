//! Writes an item of a run as a line of a trace.
use klp_capture::Text;
use klp_capture_catalog::Functions;
use klp_model::{Event, Seen};
use klp_types::{ObjId, PatchId, Site, Version};
use klp_watch::{Observed, Sight};
use std::alloc::AllocError;

/// Writes items of a run as lines of a trace, with the names of a log.
#[derive(Drop)]
pub(crate) struct ItemLines<'r, 'a> {
    pub(crate) functions: &'r Functions<'a>,
    pub(crate) text: &'r mut String,
}

impl<'r, 'a> ItemLines<'r, 'a> {
    fn object(&self, object: ObjId) -> Text<'a> {
        let objects = &self.functions.objects;
        Text(objects.get(usize::from(object.0)).copied().unwrap_or(b""))
    }

    fn patch(&self, patch: PatchId) -> Text<'a> {
        match self.functions.patches.get(usize::from(patch.0)) {
            Some(patch) => Text(patch.name),
            None => Text(b""),
        }
    }

    fn write_site(&mut self, site: Site) -> Result<(), AllocError> {
        match self.functions.function_at(site) {
            Some(function) => self.functions.write_symbol(self.text, function),
            None => Ok(()),
        }
    }

    fn write_version(&mut self, version: Version) -> Result<(), AllocError> {
        match version {
            Version::Original(site) => self.write_site(site),
            Version::New(patch, index) => {
                let patch = self.patch(patch);
                write!(self.text, "{patch}:{index}")
            }
        }
    }

    /// Writes an event, as the console reads it. A run has no other events than these.
    fn write_event(&mut self, event: &Event) -> Result<(), AllocError> {
        match event {
            Event::Enable(patch) => {
                let patch = self.patch(*patch);
                write!(self.text, "load {patch}")
            }
            Event::SetEnabled(patch, value) => {
                let (patch, value) = (self.patch(*patch), u8::from(*value));
                write!(
                    self.text,
                    "echo {value} > /sys/kernel/livepatch/{patch}/enabled"
                )
            }
            Event::Poll => self.text.push_str("poll"),
            Event::Coming(object) => {
                let object = self.object(*object);
                write!(self.text, "insmod {object}")
            }
            Event::Going(object) => {
                let object = self.object(*object);
                write!(self.text, "rmmod {object}")
            }
            event => self.write_task_event(event),
        }
    }

    fn write_task_event(&mut self, event: &Event) -> Result<(), AllocError> {
        let (word, task) = match event {
            Event::NewTask(task) => ("new", task),
            Event::Fork(parent, task) => {
                let (parent, task) = (parent.0, task.0);
                return write!(self.text, "task fork {parent} {task}");
            }
            Event::EndTask(task) => ("end", task),
            Event::EnterKernel(task) => ("enter", task),
            Event::ExitToUser(task) => ("exit", task),
            Event::Wake(task) => ("wake", task),
            Event::Sleep(task, _) => ("sleep", task),
            _ => return Ok(()),
        };
        let task = task.0;
        write!(self.text, "task {word} {task}")?;
        if let Event::Sleep(_, frames) = event {
            for version in frames.as_slice() {
                self.text.push_str(" ")?;
                self.write_version(*version)?;
            }
        }
        Ok(())
    }

    /// Writes what was seen. A run has no other sights than these.
    fn write_sight(&mut self, sight: &Sight) -> Result<(), AllocError> {
        match sight {
            Sight::State(task, Some(state)) => {
                let (task, state) = (task.0, state.number());
                write!(self.text, "saw {task} {state}")
            }
            Sight::Files(patch, Some(files)) => {
                let patch = self.patch(*patch);
                let (enabled, transition) = (u8::from(files.enabled), u8::from(files.transition));
                write!(self.text, "saw {patch} {enabled} {transition}")
            }
            Sight::Files(patch, None) => {
                let patch = self.patch(*patch);
                write!(self.text, "saw {patch} gone")
            }
            Sight::Version(task, _, version) => {
                let task = task.0;
                write!(self.text, "ran {task} ")?;
                self.write_version(*version)
            }
            Sight::State(_, None) | Sight::Text(..) => Ok(()),
        }
    }

    fn write_seen(&mut self, seen: &Seen) -> Result<(), AllocError> {
        match seen {
            Seen::Event(event) => self.write_event(event),
            Seen::Call(task, site) => {
                let task = task.0;
                write!(self.text, "call {task} ")?;
                self.write_site(*site)
            }
            Seen::Return(task) => {
                let task = task.0;
                write!(self.text, "return {task}")
            }
        }
    }

    /// Writes an item, and ends the line. The kernel's answer to an event isn't written: a run knows none.
    pub(crate) fn write(&mut self, item: &Observed) -> Result<(), AllocError> {
        match item {
            Observed::Seen(seen) => self.write_seen(seen)?,
            Observed::Answered(event, _) => self.write_event(event)?,
            Observed::Saw(sight) => self.write_sight(sight)?,
        }
        self.text.push_str("\n")
    }
}
