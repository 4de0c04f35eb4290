//! Writes records as words, each at the end of a list. From the start, the list has room for all words. So writing a
//! word is one store, without a check for room.
ghost use Rattle.std.specs.Prelude.{◌≡◌, ◌+◌, ◌*◌, ◌<◌, ◌≤◌, [], ◌∷◌, ◌++◌, length, map, take, vec_len, vec_capacity};
ghost use Rattle.std.specs.Int.{w64, from_le_bytes};
ghost use Rattle.std.specs.List.{All};
ghost use Rattle.klp_types.specs.declared.record.Record.TheVariants.{TaskRow, ShadowVariable, NoShadowVariable};
ghost use Rattle.klp_types.specs.declared.record.Record.TheVariants.{StateRow, InstalledPatch, StackEntry};
ghost use Rattle.klp_types.specs.PatchStates.{IsPatchState};
ghost use Rattle.klp_journal.specs.Words.{flag_word, state_word, mode_word, frame_word, byte_words, func_word};
ghost use Rattle.klp_journal.specs.Words.{words_of, IsFrame, IsBelow, IsRecord};

use crate::frame_words::FrameWords;
use crate::kinds::{
    KIND_ENTRY, KIND_HOOK, KIND_INSTALLED, KIND_LOADED, KIND_PINNED, KIND_STATE, KIND_STATE_VALUE,
    KIND_TASK, KIND_TRANSITION, KIND_VARIABLE, tag,
};
use klp_types::{
    Mode, ObjId, PatchId, PatchState, Place, Record, ShadowKey, ShadowValue, Site, Task, TaskId,
    Version,
};

/// Writes a record at the end of the words, as [`Records`](crate::Records) does. The caller must make sure that there
/// is room for the longest record. So the call takes no memory.
#[inline(always)]
pub fn write_record(row: &Record, words: &mut Vec<u64>)
    requires { vec_len words.old + 36 ≤ vec_capacity words.old }
    ensures written { words.new.items ≡ words.old.items ++ words_of row.now }
    ensures room { vec_capacity words.old ≤ vec_capacity words.new }
    ensures range { IsRecord row.now }
{
    match row {
        Record::TaskRow { task, was } => write_task(*task, was, words),
        Record::NoTaskRow { task } => append(words, &[task_number(*task), tag(KIND_TASK, 1)]),
        Record::ShadowVariable { key, was } => write_variable(*key, was, words),
        Record::NoShadowVariable { key } => write_no_variable(*key, words),
        Record::StateValue { patch, id, was } => {
            append(
                words,
                &[patch_number(*patch), *id, *was, tag(KIND_STATE_VALUE, 3)],
            )
        }
        Record::StateRow { patch, id, was } => write_state_row(*patch, *id, *was, words),
        Record::LoadedFlag { object, was } => {
            append(
                words,
                &[object_number(*object), flag_word(*was), tag(KIND_LOADED, 2)],
            )
        }
        Record::InstalledPatch { patch, place } => write_installed(*patch, *place, words),
        Record::StackEntry { site, patch, was } => write_entry(*site, *patch, *was, words),
        Record::HookFlag { site, was } => {
            append(
                words,
                &[site_number(*site), flag_word(*was), tag(KIND_HOOK, 2)],
            )
        }
        Record::Moving { was } => {
            append(
                words,
                &[
                    patch_number(was.patch),
                    flag_word(was.target),
                    tag(KIND_TRANSITION, 2),
                ],
            )
        }
        Record::NothingMoving => append(words, &[tag(KIND_TRANSITION, 0)]),
        Record::PinnedFlag { patch, was } => {
            append(
                words,
                &[patch_number(*patch), flag_word(*was), tag(KIND_PINNED, 2)],
            )
        }
    }
}

/// Appends words one by one. There are only a few words. If their number is known at compile time, each word is just
/// one store.
#[inline(always)]
fn append(words: &mut Vec<u64>, new: &[u64])
    requires { vec_len words.old + length new.now ≤ vec_capacity words.old }
    ensures written { words.new.items ≡ words.old.items ++ new.now }
    ensures count { vec_len words.new ≡ vec_len words.old + length new.now }
    ensures room { vec_capacity words.old ≤ vec_capacity words.new }
{
    for word in new {
        words.push_reserved(*word);
    }
}

/// Returns a task's number as a word. The contract also states the range of the number, like the contracts of the next
/// functions. Otherwise a contract knows this range only where the number itself is read.
fn task_number(task: TaskId) -> u64
    ensures value { result ≡ task }
    ensures range { task < 256 }
{
    u64::from(task.0)
}

/// Returns a patch's number as a word.
fn patch_number(patch: PatchId) -> u64
    ensures value { result ≡ patch }
    ensures range { patch < 256 }
{
    u64::from(patch.0)
}

/// Returns an object's number as a word.
fn object_number(object: ObjId) -> u64
    ensures value { result ≡ object }
    ensures range { object < 256 }
{
    u64::from(object.0)
}

/// Returns a site's number as a word.
fn site_number(site: Site) -> u64
    ensures value { result ≡ site }
    ensures range { site < 65536 }
{
    u64::from(site.0)
}

/// Returns 1 for true, and 0 for false.
fn flag_word(flag: bool) -> u64
    ensures { result ≡ flag_word flag }
{
    if flag { 1 } else { 0 }
}

/// Returns the word of a patch state: 0, 1 or 2 for -1, 0 or 1.
fn state_word(state: PatchState) -> u64
    ensures value { result ≡ state_word state }
    ensures range { IsPatchState state }
{
    (state.number() + 1) as u64
}

/// Returns the word of a mode.
fn mode_word(mode: Mode) -> u64
    ensures value { result ≡ mode_word mode }
    ensures small { result ≤ 2 }
{
    match mode {
        Mode::User => 0,
        Mode::Kernel => 1,
        Mode::Asleep => 2,
    }
}

/// Returns the word of a frame. The word is below 65536 for a site's original, and at least 65536 for a new function of
/// a patch.
fn frame_word(frame: Version) -> u64
    ensures value { result ≡ frame_word frame }
    ensures range { IsFrame frame }
{
    match frame {
        Version::Original(site) => site_number(site),
        Version::New(patch, func) => 65536 * (patch_number(patch) + 1) + u64::from(func),
    }
}

/// Writes the words of frames, outermost first, into `words` from index `at` on. Returns the index after the last
/// written word.
pub(crate) fn write_frames(frames: &[Version], words: &mut [u64], at: usize) -> usize
    requires { at + length frames.now ≤ length words.old }
    ensures written { take result words.new ≡ take at words.old ++ map frame_word frames.now }
    ensures end { result ≡ at + length frames.now }
    ensures range { All IsFrame frames.now }
{
    for (k, frame) in frames.iter().enumerate() {
        words[at + k] = frame_word(*frame);
    }
    at + frames.len()
}

/// Writes the record of a task. The call first makes the words of the task's frames. Most tasks are logged by
/// `copy_task` instead, which copies words that exist already.
fn write_task(task: TaskId, was: &Task, words: &mut Vec<u64>)
    requires { vec_len words.old + 36 ≤ vec_capacity words.old }
    ensures written { words.new.items ≡ words.old.items ++ words_of (TaskRow task was.now) }
    ensures room { vec_capacity words.old ≤ vec_capacity words.new }
    ensures range { IsRecord (TaskRow task was.now) }
{
    let mut frames = FrameWords::new();
    frames.set(&was.frames);
    copy_task(task, was, &frames, words);
}

/// Writes the record of a task. `frames` are the words of the task's frames.
#[inline(always)]
pub(crate) fn copy_task(task: TaskId, was: &Task, frames: &FrameWords, words: &mut Vec<u64>)
    requires spare { vec_len words.old + 36 ≤ vec_capacity words.old }
    requires frames { frames.now ≡ was.now.frames }
    ensures written { words.new.items ≡ words.old.items ++ words_of (TaskRow task was.now) }
    ensures room { vec_capacity words.old ≤ vec_capacity words.new }
    ensures range { IsRecord (TaskRow task was.now) }
{
    let number = task_number(task);
    let word = state_word(was.state) + 4 * mode_word(was.mode);
    let frames = frames.as_words();
    if frames.is_empty() {
        append(words, &[number, word, tag(KIND_TASK, 2)]);
    } else {
        append_sleeper(words, number, word, frames);
    }
}

/// Writes the record of a task that is inside of functions. The words of the task's frames are copied all at once,
/// since there may be many. The function isn't inlined, so that a task inside of nothing has no cost from it.
#[inline(never)]
fn append_sleeper(words: &mut Vec<u64>, number: u64, word: u64, frames: &[u64])
    requires spare { vec_len words.old + 36 ≤ vec_capacity words.old }
    requires few { length frames.now ≤ 32 }
    ensures written { words.new.items
        ≡ words.old.items ++ number ∷ word ∷ (frames.now ++ (1 + 256 * (2 + length frames.now)) ∷ []) }
    ensures room { vec_capacity words.old ≤ vec_capacity words.new }
{
    append(words, &[number, word]);
    let _ = words.extend_from_slice(frames);
    append(words, &[tag(KIND_TASK, 2 + frames.len() as u64)]);
}

/// Writes the record of a shadow variable that existed.
fn write_variable(key: ShadowKey, was: &ShadowValue, words: &mut Vec<u64>)
    requires { vec_len words.old + 36 ≤ vec_capacity words.old }
    ensures written { words.new.items ≡ words.old.items ++ words_of (ShadowVariable key was.now) }
    ensures room { vec_capacity words.old ≤ vec_capacity words.new }
    ensures range { IsRecord (ShadowVariable key was.now) }
{
    let count = was.count();
    append(words, &[key.obj, key.id, count as u64]);
    write_bytes(was.padded(), (count + 7) / 8, words);
    append(words, &[tag(KIND_VARIABLE, 3 + (count as u64 + 7) / 8)]);
}

/// Writes the record of a shadow variable that didn't exist.
fn write_no_variable(key: ShadowKey, words: &mut Vec<u64>)
    requires { vec_len words.old + 36 ≤ vec_capacity words.old }
    ensures written { words.new.items ≡ words.old.items ++ words_of (NoShadowVariable key) }
    ensures room { vec_capacity words.old ≤ vec_capacity words.new }
    ensures range { IsRecord (NoShadowVariable key) }
{
    append(words, &[key.obj, key.id, tag(KIND_VARIABLE, 2)]);
}

/// Writes bytes as `count` words, eight bytes in each word.
fn write_bytes(bytes: &[u8], count: usize, words: &mut Vec<u64>)
    requires within { 8 * count ≤ length bytes.now }
    requires spare { vec_len words.old + count ≤ vec_capacity words.old }
    ensures written { words.new.items ≡ words.old.items ++ byte_words count bytes.now }
    ensures count { vec_len words.new ≡ vec_len words.old + count }
    ensures room { vec_capacity words.old ≤ vec_capacity words.new }
    ensures range { All (λ b. b < 256) bytes.now }
{
    for k in 0..count {
        words.push_reserved(first_word(&bytes[8 * k..]));
    }
}

/// Returns the word of the first eight bytes, the lowest first.
fn first_word(bytes: &[u8]) -> u64
    requires { 8 ≤ length bytes.now }
    ensures { result ≡ from_le_bytes w64 (take 8 bytes.now) }
{
    match <[u8; 8]>::try_from(&bytes[..8]) {
        Ok(bytes) => u64::from_le_bytes(bytes),
        Err(_) => unreachable!(),
    }
}

/// Writes the record of a patch's system state. If the state existed, the record has its value.
fn write_state_row(patch: PatchId, id: u64, was: Option<u64>, words: &mut Vec<u64>)
    requires { vec_len words.old + 36 ≤ vec_capacity words.old }
    ensures written { words.new.items ≡ words.old.items ++ words_of (StateRow patch id was) }
    ensures room { vec_capacity words.old ≤ vec_capacity words.new }
    ensures range { IsRecord (StateRow patch id was) }
{
    match was {
        Some(value) => append(words, &[patch_number(patch), id, value, tag(KIND_STATE, 3)]),
        None => append(words, &[patch_number(patch), id, tag(KIND_STATE, 2)]),
    }
}

/// Writes the record of a patch. If the patch was installed, the record has its index.
fn write_installed(patch: PatchId, place: Option<u8>, words: &mut Vec<u64>)
    requires { vec_len words.old + 36 ≤ vec_capacity words.old }
    ensures written { words.new.items ≡ words.old.items ++ words_of (InstalledPatch patch place) }
    ensures room { vec_capacity words.old ≤ vec_capacity words.new }
    ensures range { IsRecord (InstalledPatch patch place) }
{
    match place {
        Some(place) => append(
            words,
            &[
                patch_number(patch),
                u64::from(place),
                tag(KIND_INSTALLED, 2),
            ],
        ),
        None => append(words, &[patch_number(patch), tag(KIND_INSTALLED, 1)]),
    }
}

/// Returns the word of an entry's function: 0 for a nop, otherwise the function's number plus 1.
fn func_word(func: Option<u16>) -> u64
    ensures value { result ≡ func_word func }
    ensures range { IsBelow 65536 func }
{
    match func {
        Some(func) => u64::from(func) + 1,
        None => 0,
    }
}

/// Writes the record of an entry of a function stack. If the entry existed, the record has its place.
fn write_entry(site: Site, patch: PatchId, was: Option<Place>, words: &mut Vec<u64>)
    requires { vec_len words.old + 36 ≤ vec_capacity words.old }
    ensures written { words.new.items ≡ words.old.items ++ words_of (StackEntry site patch was) }
    ensures room { vec_capacity words.old ≤ vec_capacity words.new }
    ensures range { IsRecord (StackEntry site patch was) }
{
    let site = site_number(site);
    let patch = patch_number(patch);
    match was {
        Some(place) => {
            let func = func_word(place.func);
            append(
                words,
                &[
                    site,
                    patch,
                    u64::from(place.index),
                    func,
                    tag(KIND_ENTRY, 4),
                ],
            )
        }
        None => append(words, &[site, patch, tag(KIND_ENTRY, 2)]),
    }
}
