//! Reads a record from the end of a list of words.
ghost use Rattle.std.specs.Prelude.{◌≡◌, ℕ, ◌+◌, ◌*◌, ◌^◌, ◌<◌, ◌≤◌, List, [], ◌∷◌, ◌++◌, length, drop, Some, IfSome};
ghost use Rattle.std.specs.List.{All};
ghost use Rattle.klp_types.specs.declared.record.Record.{Record};
ghost use Rattle.klp_journal.specs.declared.kinds.TheConstants.{KIND_TASK, KIND_VARIABLE, KIND_STATE_VALUE, KIND_STATE};
ghost use Rattle.klp_journal.specs.declared.kinds.TheConstants.{KIND_LOADED, KIND_INSTALLED, KIND_ENTRY, KIND_HOOK};
ghost use Rattle.klp_journal.specs.declared.kinds.TheConstants.{KIND_TRANSITION, KIND_PINNED};
ghost use Rattle.klp_journal.specs.Words.{flag_word, mode_word, words_of, IsBelow, IsRecord, IsStateOf, IsFrameOf};
ghost use Rattle.klp_journal.specs.Words.{AreFramesOf, IsTaskOf, IsPlaceOf, IsValueOf, IsBody};
ghost use Rattle.klp_types.specs.Finds.{Finds};
ghost use Rattle.klp_journal.specs.Decoded.{state_of, mode_of, func_of, bytes_in};

use crate::kinds::{
    KIND_ENTRY, KIND_HOOK, KIND_INSTALLED, KIND_LOADED, KIND_PINNED, KIND_STATE, KIND_STATE_VALUE,
    KIND_TASK, KIND_TRANSITION, KIND_VARIABLE, TAG_OF_A_WORD,
};
use klp_types::{
    Frames, MAX_VALUE_BYTES, Mode, ObjId, PatchId, PatchState, Place, Record, ShadowKey,
    ShadowValue, Site, Task, TaskId, Transition, Version,
};

/// How many object numbers there are.
const OBJECT_NUMBERS: u64 = 256;

/// How many patch numbers there are.
const PATCH_NUMBERS: u64 = 256;

/// How many site numbers there are.
const SITE_NUMBERS: u64 = 65536;

/// Returns the record at the end of the list, and how many words it has, including its tag. Returns `None` if the list
/// is empty or doesn't end with a record.
pub fn read_back(words: &[u64]) -> Option<(Record, usize)>
    ensures read { IfSome result (λ found. (older : List ℕ) × ((words.now ≡ older ++ words_of found.0)
        × (found.1 ≡ length (words_of found.0)) × IsRecord found.0)) }
    ensures every { (older : List ℕ) (row : Record) → IsRecord row → words.now ≡ older ++ words_of row
        → result ≡ Some (row, length (words_of row)) }
{
    if words.is_empty() {
        return None;
    }
    let last = words.len() - 1;
    let tag = words[last];
    let count = tag / TAG_OF_A_WORD;
    if count > last as u64 {
        return None;
    }
    let body = &words[last - count as usize..last];
    match read_body(tag % TAG_OF_A_WORD, body) {
        Some(row) => Some((row, count as usize + 1)),
        None => None,
    }
}

/// Reads the record of this kind whose words before its tag are `body`. Returns `None` if there is no such record. Each
/// of the functions below reads a part of a record, or the records of one kind.
fn read_body(kind: u64, body: &[u64]) -> Option<Record>
    ensures { Finds (IsBody kind body.now) result }
{
    match kind {
        KIND_TASK => read_task(body),
        KIND_VARIABLE => read_variable(body),
        KIND_STATE_VALUE => read_state_value(body),
        KIND_STATE => read_state_row(body),
        KIND_LOADED => read_loaded(body),
        KIND_INSTALLED => read_installed(body),
        KIND_ENTRY => read_entry(body),
        KIND_HOOK => read_hook(body),
        KIND_TRANSITION => read_moving(body),
        KIND_PINNED => read_pinned(body),
        _ => None,
    }
}

/// Reads a patch state: the words 0, 1 and 2 stand for -1, 0 and 1.
fn read_state(word: u64) -> Option<PatchState>
    ensures { Finds (IsStateOf word) result }
{
    match word {
        0 => Some(PatchState::UNDEFINED),
        1 => Some(PatchState::UNPATCHED),
        2 => Some(PatchState::PATCHED),
        _ => None,
    }
}

/// Reads the mode of a task.
fn read_mode(word: u64) -> Option<Mode>
    ensures { Finds (λ mode. mode_word mode ≡ word) result }
{
    match word {
        0 => Some(Mode::User),
        1 => Some(Mode::Kernel),
        2 => Some(Mode::Asleep),
        _ => None,
    }
}

/// Returns the patch state of a word from 0 to 2.
#[inline(always)]
pub(crate) fn state_of(word: u64) -> PatchState
    requires { word ≤ 2 }
    ensures { result ≡ state_of word }
{
    match word {
        0 => PatchState::UNDEFINED,
        1 => PatchState::UNPATCHED,
        _ => PatchState::PATCHED,
    }
}

/// Returns the mode for which a word stands: 0 is user space, 1 is the kernel, and any other word is asleep.
#[inline(always)]
pub(crate) fn mode_of(word: u64) -> Mode
    ensures { result ≡ mode_of word }
{
    match word {
        0 => Mode::User,
        1 => Mode::Kernel,
        _ => Mode::Asleep,
    }
}

/// Returns the function of an entry from its word: 0 stands for a nop, any other word for the function's number plus 1.
#[inline(always)]
pub(crate) fn func_of(word: u64) -> Option<u16>
    requires { word ≤ 65536 }
    ensures { result ≡ func_of word }
{
    if word == 0 {
        None
    } else {
        Some((word - 1) as u16)
    }
}

/// Reads a frame. A word below 65536 is a site's original. Any other word is a new function of a patch.
fn read_frame(word: u64) -> Option<Version>
    ensures { Finds (IsFrameOf word) result }
{
    if word < 65536 {
        return Some(Version::Original(Site(word as u16)));
    }
    let patch = word / 65536 - 1;
    if patch > 255 {
        return None;
    }
    Some(Version::New(PatchId(patch as u8), (word % 65536) as u16))
}

/// Reads the frames of a task, one from each word. Returns `None` if a word is wrong or there are too many words.
fn read_frames(words: &[u64]) -> Option<Frames>
    ensures { Finds (AreFramesOf words.now) result }
{
    let mut frames = Frames::new();
    for word in words {
        let Some(frame) = read_frame(*word) else {
            return None;
        };
        if !frames.push(frame) {
            return None;
        }
    }
    Some(frames)
}

/// Reads a task. `word` has the task's patch state and its mode.
fn read_task_row(word: u64, frames: &[u64]) -> Option<Task>
    ensures { Finds (IsTaskOf word frames.now) result }
{
    let state = read_state(word % 4)?;
    let mode = read_mode(word / 4)?;
    let frames = read_frames(frames)?;
    Some(Task {
        state,
        mode,
        frames,
    })
}

/// Reads a record of a task. If the record has only the task's number, the task didn't exist.
fn read_task(body: &[u64]) -> Option<Record>
    ensures { Finds (IsBody KIND_TASK body.now) result }
{
    if body.is_empty() {
        return None;
    }
    let number = body[0];
    if number > 255 {
        return None;
    }
    let task = TaskId(number as u8);
    if body.len() == 1 {
        return Some(Record::NoTaskRow { task });
    }
    match read_task_row(body[1], &body[2..]) {
        Some(was) => Some(Record::TaskRow { task, was }),
        None => None,
    }
}

/// Reads a record of a shadow variable. If the record has only the variable's key, the variable didn't exist.
fn read_variable(body: &[u64]) -> Option<Record>
    ensures { Finds (IsBody KIND_VARIABLE body.now) result }
{
    if body.len() < 2 {
        return None;
    }
    let key = ShadowKey {
        obj: body[0],
        id: body[1],
    };
    if body.len() == 2 {
        return Some(Record::NoShadowVariable { key });
    }
    match read_value(body[2], &body[3..]) {
        Some(was) => Some(Record::ShadowVariable { key, was }),
        None => None,
    }
}

/// Reads a value of `count` bytes. Returns `None` if the number of words isn't the one that the value needs, or if the
/// unused bytes of the last word aren't 0.
fn read_value(count: u64, words: &[u64]) -> Option<ShadowValue>
    ensures { Finds (IsValueOf count words.now) result }
{
    if count > 64 {
        return None;
    }
    if words.len() as u64 != (count + 7) / 8 {
        return None;
    }
    let mut bytes = [0; MAX_VALUE_BYTES];
    unpack(words, &mut bytes);
    ShadowValue::unpadded(bytes, count as u8)
}

/// Writes the bytes of the words to the beginning of `bytes`.
fn unpack(words: &[u64], bytes: &mut [u8])
    requires { 8 * length words.now ≤ length bytes.old }
    ensures bytes { bytes.new ≡ bytes_in words.now ++ drop (8 * length words.now) bytes.old }
    ensures range { All (λ w. w < 2 ^ 64) words.now }
{
    for (k, word) in words.iter().enumerate() {
        bytes[8 * k..8 * k + 8].copy_from_slice(&word.to_le_bytes());
    }
}

/// Reads a record of the value of a system state.
fn read_state_value(body: &[u64]) -> Option<Record>
    ensures { Finds (IsBody KIND_STATE_VALUE body.now) result }
{
    if body.len() != 3 {
        return None;
    }
    let patch = body[0];
    if patch > 255 {
        return None;
    }
    Some(Record::StateValue {
        patch: PatchId(patch as u8),
        id: body[1],
        was: body[2],
    })
}

/// Reads a record of a patch's system state. If the record has no value, the state didn't exist.
fn read_state_row(body: &[u64]) -> Option<Record>
    ensures { Finds (IsBody KIND_STATE body.now) result }
{
    if body.len() < 2 {
        return None;
    }
    let number = body[0];
    if number > 255 {
        return None;
    }
    let patch = PatchId(number as u8);
    let id = body[1];
    if body.len() == 2 {
        return Some(Record::StateRow {
            patch,
            id,
            was: None,
        });
    }
    if body.len() > 3 {
        return None;
    }
    Some(Record::StateRow {
        patch,
        id,
        was: Some(body[2]),
    })
}

/// Reads a number, which must be below `limit`, and a flag. Returns `None` if the words aren't such a number and a
/// flag.
fn number_and_flag(body: &[u64], limit: u64) -> Option<(u64, bool)>
    ensures { Finds (λ pair. (pair.0 ∷ flag_word pair.1 ∷ [] ≡ body.now) × (pair.0 < limit)) result }
{
    match body {
        [number, flag] if *number < limit && *flag <= 1 => Some((*number, *flag == 1)),
        _ => None,
    }
}

/// Reads a record of whether an object was loaded.
fn read_loaded(body: &[u64]) -> Option<Record>
    ensures { Finds (IsBody KIND_LOADED body.now) result }
{
    let (object, was) = number_and_flag(body, OBJECT_NUMBERS)?;
    Some(Record::LoadedFlag {
        object: ObjId(object as u8),
        was,
    })
}

/// Reads a record of an installed patch. If the record has no index, the patch wasn't installed.
fn read_installed(body: &[u64]) -> Option<Record>
    ensures { Finds (IsBody KIND_INSTALLED body.now) result }
{
    if body.is_empty() {
        return None;
    }
    let number = body[0];
    if number > 255 {
        return None;
    }
    let patch = PatchId(number as u8);
    if body.len() == 1 {
        return Some(Record::InstalledPatch { patch, place: None });
    }
    let place = body[1];
    if body.len() > 2 || place > 255 {
        return None;
    }
    Some(Record::InstalledPatch {
        patch,
        place: Some(place as u8),
    })
}

/// Reads a record of an entry of a function stack. If the record has no place, the entry didn't exist.
fn read_entry(body: &[u64]) -> Option<Record>
    ensures { Finds (IsBody KIND_ENTRY body.now) result }
{
    if body.len() < 2 {
        return None;
    }
    let place = body[0];
    let number = body[1];
    if place > 65535 || number > 255 {
        return None;
    }
    let site = Site(place as u16);
    let patch = PatchId(number as u8);
    if body.len() == 2 {
        return Some(Record::StackEntry {
            site,
            patch,
            was: None,
        });
    }
    match read_place(&body[2..]) {
        Some(was) => Some(Record::StackEntry {
            site,
            patch,
            was: Some(was),
        }),
        None => None,
    }
}

/// Reads the place of an entry: its index and its function.
fn read_place(words: &[u64]) -> Option<Place>
    ensures { Finds (IsPlaceOf words.now) result }
{
    if words.len() != 2 {
        return None;
    }
    let index = words[0];
    let func = words[1];
    if index > 255 || func > 65536 {
        return None;
    }
    Some(Place {
        index: index as u8,
        func: func_of(func),
    })
}

/// Reads a record of whether a site was hooked. Returns `None` if the words aren't those of such a record.
fn read_hook(body: &[u64]) -> Option<Record>
    ensures { Finds (IsBody KIND_HOOK body.now) result }
{
    let (site, was) = number_and_flag(body, SITE_NUMBERS)?;
    Some(Record::HookFlag {
        site: Site(site as u16),
        was,
    })
}

/// Reads a record of the transition. If `body` is empty, there was no transition.
fn read_moving(body: &[u64]) -> Option<Record>
    ensures { Finds (IsBody KIND_TRANSITION body.now) result }
{
    if body.is_empty() {
        return Some(Record::NothingMoving);
    }
    let (patch, target) = number_and_flag(body, PATCH_NUMBERS)?;
    Some(Record::Moving {
        was: Transition {
            patch: PatchId(patch as u8),
            target,
        },
    })
}

/// Reads a record of whether a patch was pinned.
fn read_pinned(body: &[u64]) -> Option<Record>
    ensures { Finds (IsBody KIND_PINNED body.now) result }
{
    let (patch, was) = number_and_flag(body, PATCH_NUMBERS)?;
    Some(Record::PinnedFlag {
        patch: PatchId(patch as u8),
        was,
    })
}
