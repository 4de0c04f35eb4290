//! The name by which the program is called.
ghost use Rattle.std.specs.Prelude.{◌≡◌};
ghost use Rattle.klpsim.specs.Called.{ends_in, program_at};

use std::rt::Env;

/// The programs that this one is, each under its own name.
#[derive(Clone, Copy)]
pub(crate) enum CalledProgram {
    Klpsim,
    Klpwatch,
    Klppage,
    Klplint,
    Klpsee,
    Klpko,
}

/// The greatest length of a path in bytes. A kernel refuses a longer one.
const MAX_PATH: usize = 4096;

// Whether the last part of a path is this name.
fn ends_in(path: &[u8], name: &[u8]) -> bool
    ensures { result ≡ ends_in path.now name.now }
{
    if !path.ends_with(name) {
        return false;
    }
    let folder = &path[..path.len() - name.len()];
    folder.is_empty() || folder.ends_with(b"/".as_slice())
}

// Returns the program that a path names by its last part. Any other path names klpsim.
fn program_at(path: &[u8]) -> CalledProgram
    ensures { result ≡ program_at path.now }
{
    if ends_in(path, b"klpwatch".as_slice()) {
        CalledProgram::Klpwatch
    } else if ends_in(path, b"klppage".as_slice()) {
        CalledProgram::Klppage
    } else if ends_in(path, b"klplint".as_slice()) {
        CalledProgram::Klplint
    } else if ends_in(path, b"klpsee".as_slice()) {
        CalledProgram::Klpsee
    } else if ends_in(path, b"klpko".as_slice()) {
        CalledProgram::Klpko
    } else {
        CalledProgram::Klpsim
    }
}

/// Returns the program as which this one is called. It reads only the word with the program's path, since the other
/// words may not be text.
pub(crate) fn program_called<R: Env>(rt: &R) -> CalledProgram {
    let mut path = [0u8; MAX_PATH];
    match rt.arg(0, &mut path) {
        Ok(length) => program_at(&path[..length]),
        Err(_) => CalledProgram::Klpsim,
    }
}
