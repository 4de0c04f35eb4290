//! The course of a transition: the line since which the transition has had its target, and whether it was forced.
ghost use Rattle.std.specs.Prelude.{◌≡◌};
ghost use Rattle.klp_timeline.specs.Course.{after_said, course_of};

use crate::moment::{Fact, Said, Sentence};

/// The line since which a transition has had its present target.
#[derive(Clone, Copy)]
pub enum Since {
    /// The transition started with this line, or this line reversed it.
    Turned(u64),
    /// This line undid events. The transition has had its present target at least since this line.
    Undone(u64),
}

/// The course of the transition at the end of a run. If there is no transition at the end, the course is that of the
/// last transition.
#[derive(Clone, Copy)]
pub struct Course {
    /// The line since which the transition has had its target. `None` if it had this target already before the run.
    pub since: Option<Since>,
    /// Whether the transition was forced, and the force wasn't undone afterwards.
    pub is_forced: bool,
}

/// Returns the course after one more sentence. `course` is the course before the sentence. Only the start, the reversal
/// or the force of a transition changes the course, or an undoing of events.
fn after_said(course: Course, sentence: &Sentence) -> Course
    ensures { result ≡ after_said course sentence.now.line sentence.now.said }
{
    let line = sentence.line;
    let Said::Did(fact) = &sentence.said else {
        return course;
    };
    match fact {
        Fact::Starts(_) => Course {
            since: Some(Since::Turned(line)),
            is_forced: false,
        },
        Fact::Reverses(_) => Course {
            since: Some(Since::Turned(line)),
            ..course
        },
        Fact::Undoes(_, _) => Course {
            since: Some(Since::Undone(line)),
            is_forced: false,
        },
        Fact::Forces(_) => Course {
            is_forced: true,
            ..course
        },
        _ => course,
    }
}

/// Returns the course of the transition at the end of a run, or of the last transition if none is under way then.
/// `sentences` are all sentences of the run. If none of them changes the course, `since` is `None`, and the transition
/// counts as not forced.
pub fn latest_course(sentences: &[Sentence]) -> Course
    ensures { result ≡ course_of sentences.now }
{
    let mut course = Course {
        since: None,
        is_forced: false,
    };
    for sentence in sentences {
        course = after_said(course, sentence);
    }
    course
}
