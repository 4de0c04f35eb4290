//! The limits on how many items of each kind there may be and how long they may be, and the length of an entry site.
//! The limits are this project's own, with three exceptions: an entry site is as long as a call; names have the length
//! of the kernel's `MODULE_NAME_LEN`; and names of symbols have the length that the kernel's `KSYM_NAME_LEN` had for
//! many years. All limits are in this one module, since tables of fixed size in crates above depend on them. `laws`
//! repeats the value of each limit.

/// How many objects an image may have: `vmlinux`, which must be the first, and 16 modules.
pub const MAX_OBJECTS: usize = 17;

/// How many symbols all objects of an image may have together; each symbol is a site. A set of versions has a flag for
/// each site, so this limit bounds what a transition costs.
pub const MAX_SITES: usize = 256;

/// How many bytes an entry site has: the length of a near call, which has one byte of opcode and a displacement of 32
/// bits.
pub const ENTRY_SITE_LEN: usize = 5;

/// How many bytes the body of a symbol may have. The image stores two copies of each body.
pub const MAX_BODY: usize = 256;

/// How many patches a catalog may have, and how many may be installed. A patch has at most one entry on a site. So the
/// stack of any site fits into an array of this length.
pub const MAX_PATCHES: usize = 16;

/// How many objects a patch may change. Each of these objects may have four callbacks.
pub const MAX_TARGETS: usize = 8;

/// How many new functions a patch may have, for all its objects together.
pub const MAX_FUNCTIONS: usize = 64;

/// How many system states a patch may name. While the patch is installed, each of its system states is a row of the
/// state. So this limit bounds how many records are logged when a patch is enabled.
pub const MAX_STATES: usize = 16;

/// How many kinds of callbacks there are. An object of a patch has at most one callback of each kind (callbacks,
/// Callbacks).
pub const CALLBACK_KINDS: usize = 4;

/// How many edits a script may have. This limit bounds the number of records of a callback, and so also the number of
/// records of an event.
pub const MAX_EDITS: usize = 16;

/// How many shadow variables there may be. Boot allocates room for this many variables, since no later call takes
/// memory.
pub const MAX_VARIABLES: usize = 512;

/// How many bytes the value of a shadow variable may have. A kernel's variable may have any number of bytes. In this
/// project the room for every variable is allocated at the start, since no event takes memory.
pub const MAX_VALUE_BYTES: usize = 64;

/// How many tasks there may be. They are numbered from 0 to 63.
pub const MAX_TASKS: usize = 64;

/// How many functions a sleeping task may be inside of. Since an event contains all of a task's functions and is copied
/// into the journal, they are in an array and not in a list.
pub const MAX_FRAMES: usize = 32;

/// How many records one event may log. It is proved that no event logs more. So no event fails half way for lack of
/// room (docs/DECISIONS.md, "Room for 4,096 records").
pub const MAX_RECORDS: usize = 4096;

/// How many words of room there are for each record. The longest record, a task with 32 frames, needs one word less
/// than this, including its tag.
pub const MAX_RECORD_WORDS: usize = 4 + MAX_FRAMES;

/// How many records are logged when a patch is added to the list of installed patches, or removed from it: one for
/// the patch, and one for each of its states.
pub const MAX_LIST_RECORDS: usize = 1 + MAX_STATES;

/// How many records one run of a callback logs. Each edit logs one record. Each edit that adds a variable counts once
/// more, since a later edit may remove that variable. Records of variables that existed before the run, and that the
/// run removes, are counted separately.
pub const MAX_CALLBACK_RECORDS: usize = 2 * MAX_EDITS;

/// How many records the callbacks of one kind log, for all objects of a patch together.
pub const MAX_KIND_RECORDS: usize = MAX_TARGETS * MAX_CALLBACK_RECORDS;

/// How many records the callbacks log when a patch is enabled: those of pre-patch, and those of post-unpatch if an
/// object refuses.
pub const MAX_ENABLING_RECORDS: usize = 2 * MAX_KIND_RECORDS;

/// How many edits the callbacks of all patches may make when a module is loaded. Callbacks of all four kinds count,
/// since if one patch refuses, the patches that were already applied to the module are cleaned up.
pub const MAX_COMING_EDITS: usize = 4 * MAX_EDITS * MAX_PATCHES;

/// How many edits the callbacks of all patches may make when a module is unloaded. Only pre-unpatch and post-unpatch
/// run then.
pub const MAX_GOING_EDITS: usize = 2 * MAX_EDITS * MAX_PATCHES;

/// How many records an event may have logged before it changes the first site. Until then only callbacks and the list
/// of patches have logged records. The records of sites fit into the rest of `MAX_RECORDS`.
pub const RECORDS_BEFORE_SITES: usize = 2048;

/// How many records a completion may have logged when it has taken the entries off the sites. This round number is
/// above the number of all entries of all patches plus one record for each task.
pub const RECORDS_AFTER_SITES: usize = 2400;

/// How many records a completion may have logged when its callbacks have run too. The callbacks may remove every shadow
/// variable.
pub const RECORDS_AFTER_CALLBACKS: usize = 3500;

/// How many records a completion may have logged when all leaving patches are removed from the list too. Beyond this
/// number there is still room for one record for each task.
pub const RECORDS_AFTER_LIST: usize = 3800;

/// How many accepted events fit into the journal. `seal` empties the journal.
pub const MAX_GROUPS: usize = 4096;

/// How many records all events of the journal may have together. This is four times the greatest number of records that
/// one event logs. An event of a task logs only one record, so usually `MAX_GROUPS` is reached first.
pub const MAX_JOURNAL_RECORDS: usize = 16384;

/// How many bytes a line of a catalog's text may have, without the bytes that end the line. Comments have no limit. A
/// line has room for a body of 256 bytes, or for 16 edits with the greatest numbers and values.
pub const MAX_LINE: usize = 4096;

/// How many bytes the name of an object, a patch or a new function may have. Together with a terminating 0 the name has
/// 56 bytes, which is the kernel's `MODULE_NAME_LEN` on 64 bits.
pub const MAX_NAME: usize = 55;

/// How many bytes the name of a symbol may have. Together with a terminating 0 the name has 128 bytes. This was the
/// kernel's limit until Rust needed longer names.
pub const MAX_SYMBOL_NAME: usize = 127;

/// How many hexadecimal digits an address may have, including leading zeros: 16, which is enough for 64 bits.
pub const MAX_ADDRESS_DIGITS: usize = 16;

/// How many bytes a line of the console may have, without its line feed. Between two reads, an unfinished line is
/// stored in a buffer of this size.
pub const MAX_CONSOLE_LINE: usize = 256;

/// The greatest task number that a line of the console may have. Only numbers up to 63 can have a task. A greater
/// number up to this one is refused as `NoTask`, and a number above this one makes the line a `BadLine`.
pub const MAX_TASK_NUMBER: u64 = 65_535;

/// The greatest number of a new function that a line of the console may have. Such a number has 16 bits. If no function
/// has a number up to this limit, the line is refused because of an unknown function, and not as a bad line.
pub const MAX_INDEX: u64 = 65_535;

/// The greatest mark that a line of the console may have. A mark has 32 bits, and is a number of accepted events. The
/// manager refuses a mark above the number of events in the journal.
pub const MAX_MARK: u64 = 4_294_967_295;

/// How many times the console reads one input at most. So serving ends even if the input never ends.
pub const MAX_READS: u32 = 1_000_000;

/// How many bytes the console reads at a time at most. The buffer for these bytes is an array, since serving takes no
/// memory.
pub const READ_ROOM: usize = 4096;

/// How many bytes of answers the console gathers at most before it writes them. If a write fails, the console undoes
/// the lines whose answers weren't written.
pub const ANSWER_ROOM: usize = 4096;
