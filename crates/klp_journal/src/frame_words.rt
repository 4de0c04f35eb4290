//! The frames of a task as words, for a table of tasks that stores them. Making the word of a frame needs a few steps.
//! A task that sleeps through a transition is logged three times: when the transition starts, when the task is
//! switched, and when the transition ends. So the words are made once, when the task falls asleep, and then only copied
//! and compared.
ghost use Rattle.std.specs.Prelude.{◌≡◌, ◌≤◌, [], length, map};
ghost use Rattle.std.specs.List.{All};
ghost use Rattle.klp_journal.specs.Words.{frame_word, IsFrame};

use crate::write_words::write_frames;
use klp_types::{Frames, MAX_FRAMES};
use std::marker::Model;

/// The words of a task's frames, outermost first, as in the task's record.
#[derive(Clone, Drop)]
pub struct FrameWords {
    /// The words of the frames are the first `count` elements. The other elements mean nothing.
    words: [u64; MAX_FRAMES],
    /// How many words the frames have.
    count: usize,
}

impl Model for FrameWords {
    ghost use Rattle.std.specs.Prelude.{List, ◌≤◌, map, take};
    ghost use Rattle.klp_types.specs.declared.version.Version.{Version};
    ghost use Rattle.klp_journal.specs.Words.{AreFramesOf};
    ghost use Rattle.klp_journal.specs.Decoded.{frame_of};

    ghost Value = { List Version };

    ghost view = { λ f. map frame_of (take f.count f.words) };

    ghost invariant = { λ f. (f.count ≤ 32) × AreFramesOf (take f.count f.words)
        (map frame_of (take f.count f.words)) };
}

impl FrameWords {
    /// Creates the words of no frames.
    pub fn new() -> Self
        ensures { result ≡ [] }
    {
        Self {
            words: [0; MAX_FRAMES],
            count: 0,
        }
    }

    /// Replaces the words by those of these frames. The cost grows with the number of frames.
    pub fn set(&mut self, frames: &Frames)
        ensures { self.new ≡ frames.now }
    {
        self.count = frames.count();
        write_frames(frames.as_slice(), &mut self.words, 0);
    }

    /// Removes all words, at a constant cost.
    #[inline(always)]
    pub fn clear(&mut self)
        ensures { self.new ≡ [] }
    {
        self.count = 0;
    }

    /// Returns the words of the frames, without the elements that mean nothing.
    #[inline(always)]
    pub(crate) fn as_words(&self) -> &[u64]
        ensures words { result.now ≡ map frame_word self.now }
        ensures limit { length result.now ≤ 32 }
        ensures range { All IsFrame self.now }
    {
        let words: &[u64] = &self.words;
        &words[..self.count]
    }
}
