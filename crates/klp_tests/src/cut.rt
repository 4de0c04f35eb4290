//! Catalogs that are cut after each of their bytes. The test checks which line is reported and why, or that the catalog
//! boots. The cut line, and the place of the cut, determine what should be reported. The test reads no text to find
//! this out.
use klp_program::{CATALOG, console};
use std::alloc::{AllocError, Global};

/// A catalog that has lines of each kind.
const KERNEL: &str = "\
handler ffffffff81000000
object vmlinux
symbol f ffffffff81001000 e80000000090c3
symbol h ffffffff81002000 e800000000c3
symbol d ffffffff81003000 e800000000c3
symbol d ffffffff81004000 e800000000c3
object m
symbol g ffffffffa0000000 e800000000c3
object n
symbol k ffffffffa0010000 e800000000c3
patch p
state 7 2
target vmlinux
func .klp.sym.vmlinux.f,0 f_p ffffffffc0001000
func .klp.sym.vmlinux.h,0 h_p ffffffffc0001100
pre 0 alloc:1:9:5
post 0 alloc:1:10:6
preun 0 free:1:10
postun 0 free:1:9
target m
func .klp.sym.m.g,0 g_p ffffffffc0001200
pre 0
post 0
patch q
target vmlinux
func .klp.sym.vmlinux.f,0 f_q ffffffffc0002000
patch c replace
state 7 2
target vmlinux
func .klp.sym.vmlinux.f,0 f_c ffffffffc0003000
patch x replace
target vmlinux
func .klp.sym.vmlinux.f,0 f_x ffffffffc0004000
patch y
state 7 1
target vmlinux
func .klp.sym.vmlinux.h,0 h_y ffffffffc0005000
patch r
target vmlinux
func .klp.sym.vmlinux.h,0 h_r ffffffffc0006000
pre 0 alloc:2:1:1
postun 0 free:2:1
target m
func .klp.sym.m.g,0 g_r ffffffffc0006100
pre -16
target n
func .klp.sym.n.k,0 k_r ffffffffc0006200
pre 0 alloc:3:1:1
patch s
target vmlinux
func .klp.sym.vmlinux.d,0 d_s ffffffffc0007000
";

/// The result that a cut catalog should have.
#[derive(Clone, Copy)]
enum Wanted {
    Boots,
    /// This fault of the cut line should be reported.
    OfLine(&'static str),
    /// This fault of the whole catalog should be reported.
    OfAll(&'static str),
}

/// The least number of words in each kind of line.
const WORDS: [(&str, usize); 11] = [
    ("handler", 2),
    ("object", 2),
    ("symbol", 4),
    ("patch", 2),
    ("target", 2),
    ("func", 4),
    ("state", 3),
    ("pre", 2),
    ("post", 2),
    ("preun", 2),
    ("postun", 2),
];

/// The least number of words in a line with this first word. `None` if no line of a catalog begins with the word.
fn words_of(first: &str) -> Option<usize> {
    let mut words = None;
    for (word, count) in WORDS {
        if word == first {
            words = Some(count);
        }
    }
    words
}

/// How many words this front of a line has. The last word may be cut.
fn words_in(front: &str) -> usize {
    let mut count = 0usize;
    for word in front.split(' ') {
        if !word.is_empty() {
            count = count.saturating_add(1);
        }
    }
    count
}

fn colons(word: &str) -> usize {
    let mut count = 0usize;
    for byte in word.as_bytes() {
        if *byte == b':' {
            count = count.saturating_add(1);
        }
    }
    count
}

/// The result for a symbol whose body is cut to `last`. A body needs two digits for each byte, and at least five bytes.
fn of_body(last: &str) -> Wanted {
    if last.len() % 2 == 1 {
        Wanted::OfLine("BadHex")
    } else if last.len() < 10 {
        Wanted::OfAll("ShortSymbol")
    } else {
        Wanted::Boots
    }
}

/// The result for a callback whose word `whole` is cut to `last`. A status needs a digit. An edit needs all its
/// numbers, so its last byte can't be a colon, and no colon may be missing.
fn of_callback(last: &str, whole: &str) -> Wanted {
    if last == "-" {
        Wanted::OfLine("BadNumber")
    } else if last.ends_with(":") || colons(last) < colons(whole) {
        Wanted::OfLine("BadEdit")
    } else {
        Wanted::Boots
    }
}

/// The result for a line that ends with the word `last`, which is the front of the word `whole`.
fn of_last(first: &str, last: &str, whole: &str) -> Wanted {
    let is_whole = last == whole;
    match first {
        "symbol" => of_body(last),
        // the first object must have this name
        "object" if whole == "vmlinux" && !is_whole => Wanted::OfAll("NoKernel"),
        "target" if !is_whole => Wanted::OfLine("UnknownObject"),
        "patch" if whole == "replace" && !is_whole => Wanted::OfLine("UnknownWord"),
        "pre" | "post" | "preun" | "postun" => of_callback(last, whole),
        _ => Wanted::Boots,
    }
}

/// The index at which the last word begins.
fn last_start(front: &str) -> usize {
    let mut start = 0usize;
    for (place, byte) in front.as_bytes().iter().enumerate() {
        if *byte == b' ' {
            start = place.saturating_add(1);
        }
    }
    start
}

/// The word that begins at the index `start`.
fn word_at(line: &str, start: usize) -> &str {
    let rest = line.get(start..).unwrap_or("");
    let mut words = rest.split(' ');
    match words.next() {
        Some(word) => word,
        None => "",
    }
}

/// The result for a catalog whose last line `line` is cut to `front`. All earlier lines are good.
fn wanted_of(line: &str, front: &str) -> Wanted {
    if front.is_empty() {
        return Wanted::Boots;
    }
    let first = word_at(front, 0);
    let Some(needed) = words_of(first) else {
        return Wanted::OfLine("UnknownWord");
    };
    if words_in(front) < needed {
        return Wanted::OfLine("WrongCount");
    }
    let start = last_start(front);
    let last = word_at(front, start);
    let whole = word_at(line, start);
    if last.is_empty() {
        Wanted::Boots
    } else {
        of_last(first, last, whole)
    }
}

/// The index at which the last line of this front begins, and the number of lines before that line.
fn line_at(front: &str) -> (usize, usize) {
    let mut start = 0usize;
    let mut number = 0usize;
    for (place, byte) in front.as_bytes().iter().enumerate() {
        if *byte == b'\n' {
            start = place.saturating_add(1);
            number = number.saturating_add(1);
        }
    }
    (start, number)
}

/// The line that begins at the index `start`, without its line feed.
fn line_from(text: &str, start: usize) -> &str {
    let rest = text.get(start..).unwrap_or("");
    let mut lines = rest.split('\n');
    match lines.next() {
        Some(line) => line,
        None => "",
    }
}

/// The text that should be written to standard error. `number` lines precede the cut line. The first two lines of the
/// catalog name the handler and the kernel. Without these two lines, nothing can be booted.
fn written(
    alloc: Global,
    wanted: Wanted,
    number: usize,
    is_begun: bool,
) -> Result<String, AllocError> {
    match wanted {
        Wanted::OfLine(kind) => {
            format!(in alloc; "klpsim: line {}: {kind}\n", number.saturating_add(1))
        }
        Wanted::OfAll(fault) => format!(in alloc; "klpsim: {fault}\n"),
        Wanted::Boots if number == 0 || (number == 1 && !is_begun) => {
            String::from_str(alloc, "klpsim: line 0: Missing\n")
        }
        Wanted::Boots => Ok(String::new(alloc)),
    }
}

/// The text that is written to standard error for this catalog. `None` if the exit status doesn't agree with the text,
/// or if anything is answered.
fn reported(alloc: Global, catalog: &[u8]) -> Result<Option<Vec<u8>>, AllocError> {
    let mut out = Vec::new(alloc);
    let mut err = Vec::new(alloc);
    let mut input = b"".as_slice();
    let (status, ..) = console(alloc, catalog, &mut input, &mut out, &mut err);
    let is_right = out.is_empty() && status == u8::from(!err.is_empty());
    Ok(if is_right { Some(err) } else { None })
}

/// Whether the text, cut at the index `cut`, is reported as it should be.
fn is_reported(alloc: Global, text: &str, cut: usize) -> Result<bool, AllocError> {
    let front = text.get(..cut).unwrap_or("");
    let (start, number) = line_at(front);
    let line = line_from(text, start);
    let begun = text.get(start..cut).unwrap_or("");
    let wanted = written(alloc, wanted_of(line, begun), number, !begun.is_empty())?;
    Ok(match reported(alloc, front.as_bytes())? {
        Some(err) => err.as_slice() == wanted.as_bytes(),
        None => false,
    })
}

/// How many cuts aren't reported as they should be, and the last such cut.
fn differing(alloc: Global, text: &str) -> Result<(usize, usize), AllocError> {
    let mut differing = (0usize, 0);
    for cut in 0..=text.len() {
        if !is_reported(alloc, text, cut)? {
            differing = (differing.0.saturating_add(1), cut);
        }
    }
    Ok(differing)
}

#[test]
fn a_catalog_that_is_cut_tells_the_line_that_is(rt: HostRuntime) {
    for text in [str::from_utf8(CATALOG).unwrap_or(""), KERNEL] {
        assert!(rt; text.len() > 100);
        assert!(rt; differing(rt.alloc(), text) == Ok((0, 0)));
    }
}

/// Fronts of the built-in catalog, and the text that should be written for each. A front is given by the text with
/// which it ends.
const ROWS: [(&str, &[u8]); 6] = [
    ("", b"klpsim: line 0: Missing\n"),
    ("handler ffffffff81000000\n", b"klpsim: line 0: Missing\n"),
    ("object vmli", b"klpsim: NoKernel\n"),
    ("symbol f ffff", b"klpsim: line 3: WrongCount\n"),
    ("func .klp.sym.vmlinux.f,0", b"klpsim: line 6: WrongCount\n"),
    ("func .klp.sym.vmlinux.f,0 f_p ffff", b""),
];

/// Whether `wanted` is written for the front of the built-in catalog that ends with `end`.
fn is_row(alloc: Global, end: &str, wanted: &[u8]) -> Result<bool, AllocError> {
    let text = str::from_utf8(CATALOG).unwrap_or("");
    let start = text.find(end).unwrap_or(0);
    let front = text.get(..start.saturating_add(end.len())).unwrap_or("");
    Ok(match reported(alloc, front.as_bytes())? {
        Some(err) => err.as_slice() == wanted,
        None => false,
    })
}

#[test]
fn some_cuts_are_reported_as_reckoned_by_hand(rt: HostRuntime) {
    for (end, wanted) in ROWS {
        let right = is_row(rt.alloc(), end, wanted);
        assert!(rt; right == Ok(true), "{end}");
    }
}
